//! What a person sees of connections.
use crate::connect_tests::origin;
use crate::network::Network;
use address::Origin;
use http_fetcher::Connect;
use observer::Observer;
use progress::ProgressLine;
use response_reader::Wire;
use std::alloc::Global;
use std::fmt::{Display, Write};
use std::process::Abort;
use std::sync::Wait;
use std::sync::atomic::{AtomicU64, Ordering};
use std::time::{Clock, Duration};
use std::{io, thread};
use tcp_connect::{Hosts, TcpConnect};
use tcp_fetcher::ObservedTcp;

/// When a connection ends, where it goes, and how many addresses wait then. What ports 82 and 84 send is 2,000 bytes in two
/// pieces; connections to 83 break at a read, those to 84 at a write. Each is sent 1,000 bytes, which aren't counted.
const ENDS: &[(u64, &str, usize)] = &[
    (1100, "http://two:82/", 4),
    (1300, "http://two:82/", 17),
    (1500, "http://none/", 16),
    (1600, "http://two:82/", 1_000_000),
    (1900, "http://two:83/", 9),
    (2200, "http://two:84/", 0),
];

/// The lines that a terminal shows after these, one over the other.
const LINES: &str = "2 answered, 17 waiting, 0 failed, 4 kB, 13 kB/s
3 answered, 1000000 waiting, 1 failed, 6 kB, 10 kB/s
3 answered, 9 waiting, 2 failed, 6 kB, 6 kB/s
3 answered, 0 waiting, 3 failed, 8 kB, 6 kB/s";

/// Makes a connection, which is used if there is one.
fn use_once<C: Connect>(connect: &mut C, of: &Origin) {
    if let Ok(mut wire) = connect.connect(of) {
        let _ = wire.write(&[b'x'; 1000]);
        let _ = wire.read(&mut [0u8; 1200]);
        let _ = wire.read(&mut [0u8; 800]);
        connect.close(wire);
    }
}

/// Makes these connections.
fn make_connections<R: Abort + Wait>(
    rt: &R,
    alloc: Global,
    network: &Network<'_, R>,
    connect: &mut ObservedTcp<'_, Network<'_, R>>,
    progress: &ProgressLine<'_, Network<'_, R>>,
) {
    for (at, text, waiting) in ENDS {
        network.set_clock(*at);
        progress.waiting(*waiting);
        use_once(connect, &origin(rt, alloc, text));
    }
}

/// Makes them by what the line observes.
fn run<R: Abort + Wait>(
    rt: &R,
    alloc: Global,
    network: &Network<'_, R>,
    progress: &ProgressLine<'_, Network<'_, R>>,
) {
    let hosts = Hosts::new(alloc);
    let inner = TcpConnect::new(network, alloc, &hosts);
    let mut connect = ObservedTcp::new(inner, progress);
    make_connections(rt, alloc, network, &mut connect, progress);
}

/// What is on the terminal after the lines: each is covered before the next, and so is the last.
fn shown(rt: &impl Abort, alloc: Global) -> String {
    let mut text = String::new(alloc);
    for line in LINES.lines() {
        write!(text, "\r{:79}\r{line}", "").expect(rt, "memory");
    }
    write!(text, "\r{:79}\r", "").expect(rt, "memory");
    text
}

/// Whether the lines are on the terminal after the connections, once the line is cleared.
fn shows<R: Abort + Wait>(rt: &R, alloc: Global) -> bool {
    let network = Network::new(rt, alloc);
    network.set_clock(1000);
    let progress = ProgressLine::new(&network, true);
    run(rt, alloc, &network, &progress);
    progress.clear();
    progress.clear();
    network.shows(shown(rt, alloc).as_str())
}

#[test]
fn one_line_counts_at_most_four_times_a_second(rt: HostRuntime) {
    assert!(rt; shows(&rt, rt.alloc()));
}

/// A terminal with a clock by which two threads meet: each of their calls waits for one of the other, and both receive the same
/// time, a second after that of the calls before. It counts what is written to it.
#[derive(Drop)]
struct Meeting {
    calls: AtomicU64,
    lines: AtomicU64,
}

impl Clock for Meeting {
    // The first call is that for the start, which waits for none.
    fn monotonic(&self) -> io::Result<Duration> {
        let round = self.calls.fetch_add(1, Ordering::SeqCst).div_ceil(2);
        for _ in 0..1_000_000u32 {
            if self.calls.load(Ordering::SeqCst) > round.saturating_mul(2) {
                break;
            }
            thread::yield_now();
        }
        Ok(Duration::from_secs(round))
    }

    fn since_1970(&self) -> io::Result<Duration> {
        self.monotonic()
    }
}

impl Eprint for Meeting {
    fn eprint<D: Display + Drop>(&self, _value: D) -> io::Result<()> {
        self.lines.fetch_add(1, Ordering::SeqCst);
        Ok(())
    }

    fn eprintln<D: Display + Drop>(&self, value: D) -> io::Result<()> {
        self.eprint(value)
    }
}

/// How often two workers end a request at one time.
const MEETINGS: u64 = 1000;

/// Ends so many requests of a worker.
fn end_requests(progress: &ProgressLine<'_, Meeting>) {
    for _ in 0..MEETINGS {
        progress.ended(false, 0);
    }
}

#[test]
fn two_workers_do_not_write_one_line_twice(rt: HostRuntime) {
    let terminal = Meeting {
        calls: AtomicU64::new(0),
        lines: AtomicU64::new(0),
    };
    let progress = ProgressLine::new(&terminal, true);
    thread::join(&rt, || end_requests(&progress), || end_requests(&progress));
    assert_eq!(rt; terminal.lines.load(Ordering::SeqCst), MEETINGS);
}
