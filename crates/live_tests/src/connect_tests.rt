//! What connections ask of the network.
ghost use Rattle.std.specs.Prelude.{◌≤◌, IfOk};

use crate::network::{LATE, Network};
use address::{Address, Origin};
use http_fetcher::{Connect, ConnectFault};
use response_reader::{ReadFault, Room, TcpWire, Wire, WireFault, read_reply_if_any};
use std::alloc::Global;
use std::io::{ErrorKind, Read, Write};
use std::net::SocketAddr;
use std::process::Abort;
use std::sync::Wait;
use std::{io, thread};
use tcp_connect::{Hosts, TcpConnect};

/// The origin of an address.
pub fn origin(rt: &impl Abort, alloc: Global, text: &str) -> Origin {
    let address = Address::read(alloc, text).expect(rt, "an address");
    Origin::of(&address).expect(rt, "memory")
}

/// Makes a connection to the origin of an address and closes it. Gives what resulted.
fn visit<R: Wait + Abort>(
    rt: &R,
    alloc: Global,
    connect: &mut TcpConnect<'_, Network<'_, R>>,
    text: &str,
) -> &'static str {
    let made = connect.connect(&origin(rt, alloc, text));
    match made {
        Ok(wire) => {
            connect.close(wire);
            "made"
        }
        Err(ConnectFault::Failed) => "failed",
        Err(ConnectFault::Memory) => "memory",
    }
}

/// What two workers do after one another: which of them goes where, what results, and how many lookups, reads at the end and
/// tried addresses there were by then. After `#` is what the next rows show.
const VISITS: &str =
    "# A host is looked up once, for its other ports too. A dead first address costs one connection.
0 http://two/ made (1, 1, 2)
0 http://two/ made (1, 2, 3)
1 http://two:8080/ made (1, 3, 4)
# A lookup that failed isn't made again.
0 http://none/ failed (2, 3, 4)
1 http://none:81/ failed (2, 3, 4)
# A server that keeps its connections open is waited for until one worker saw it twice.
0 http://two:81/ made (2, 4, 5)
1 http://two:81/ made (2, 5, 6)
0 http://two:81/ made (2, 6, 7)
0 http://two:81/ made (2, 6, 8)
1 http://two:81/ made (2, 6, 9)
# One that is late now and then is always waited for, as it was in time between.
0 http://two:87/ made (2, 7, 10)
0 http://two:87/ made (2, 8, 11)
0 http://two:87/ made (2, 9, 12)
0 http://two:87/ made (2, 10, 13)
# What one server of a host keeps open says nothing of another, and a connection that broke wasn't kept open.
0 http://two/ made (2, 11, 14)
0 http://two:83/ made (2, 12, 15)
0 http://two:83/ made (2, 13, 16)
0 http://two:83/ made (2, 14, 17)
# Addresses need no lookup.
1 http://[::1]:8080/ made (2, 15, 18)
0 http://10.0.0.1/ failed (2, 15, 19)
# The address that took a connection is the first from then on.
0 http://three/ made (3, 16, 21)
1 http://three/ made (3, 17, 22)
# Three dead addresses in front, and one that dies: each that is left is tried, in turn.
0 http://five/ made (4, 18, 26)
1 http://five/ made (4, 19, 28)
0 http://five/ made (4, 20, 29)
# A server that didn't answer in time isn't tried again; its host's other ports are.
0 http://10.0.0.6/ failed (4, 20, 30)
1 http://10.0.0.6/ failed (4, 20, 30)
1 http://10.0.0.6:81/ failed (4, 20, 31)
0 http://silent/ made (5, 21, 32)
# Without a limit on its time no connection is used, and without the other option it is.
0 http://two:85/ failed (5, 21, 33)
1 http://two:86/ made (5, 22, 34)
# Either error of a time limit says that a server keeps its connections open.
0 http://two:88/ made (5, 23, 35)
0 http://two:88/ made (5, 24, 36)
0 http://two:88/ made (5, 24, 37)";

/// Where some of these went.
const TRIED: &[(usize, ([u8; 4], u16))] = &[
    (5, ([10, 0, 0, 2], 81)),
    (21, ([10, 0, 0, 2], 80)),
    (22, ([10, 0, 0, 1], 80)),
    (23, ([10, 0, 0, 11], 80)),
    (24, ([10, 0, 0, 12], 80)),
    (25, ([10, 0, 0, 4], 80)),
    (26, ([10, 0, 0, 4], 80)),
    (27, ([10, 0, 0, 5], 80)),
    (28, ([10, 0, 0, 5], 80)),
    (31, ([10, 0, 0, 2], 80)),
];

/// The limits of the first connection: 900 seconds for reads and for writes, as Wget's manual has it, and a tenth of a second
/// for a read at its end; and how many connections were set to delay nothing.
const LIMITS: (u64, u64, u64, u64) = (900_000, 100, 900_000, 27);

/// Whether a visit of a worker comes out as a row says.
fn comes_out<R: Wait + Abort>(
    rt: &R,
    alloc: Global,
    network: &Network<'_, R>,
    connect: &mut TcpConnect<'_, Network<'_, R>>,
    row: &str,
) -> bool {
    let (text, wanted) = row.split_once(' ').unwrap_or((row, ""));
    let made = visit(rt, alloc, connect, text);
    let seen = format!(in alloc; "{made} {:?}", network.counts()).expect(rt, "memory");
    seen.as_str() == wanted
}

/// Makes the visits.
fn make_visits<R: Wait + Abort>(
    rt: &R,
    alloc: Global,
    network: &Network<'_, R>,
    first: &mut TcpConnect<'_, Network<'_, R>>,
    second: &mut TcpConnect<'_, Network<'_, R>>,
) {
    for line in VISITS.lines() {
        let (worker, row) = line.split_once(' ').unwrap_or((line, ""));
        let is_out = match worker {
            "#" => true,
            "0" => comes_out(rt, alloc, network, first, row),
            _ => comes_out(rt, alloc, network, second, row),
        };
        assert!(rt; is_out, "{line}");
    }
    assert!(rt; first.failures() == 4 && second.failures() == 3);
    check_tried(rt, network.log.tried.lock(rt).as_slice());
    assert!(rt; network.limits() == LIMITS);
    assert!(rt; network.clock() == 0);
}

/// Looks at where these went.
fn check_tried(rt: &impl Abort, tried: &[SocketAddr]) {
    for (k, server) in TRIED {
        assert!(rt; tried.get(*k) == Some(&SocketAddr::from(*server)), "{k}");
    }
    assert!(rt; tried.get(18 - 1) == Some(&SocketAddr::from(([0, 0, 0, 0, 0, 0, 0, 1], 8080))));
}

#[test]
fn workers_share_what_is_known_of_hosts(rt: HostRuntime) {
    let alloc = rt.alloc();
    let network = Network::new(&rt, alloc);
    let hosts = Hosts::new(alloc);
    make_visits(
        &rt,
        alloc,
        &network,
        &mut TcpConnect::new(&network, alloc, &hosts),
        &mut TcpConnect::new(&network, alloc, &hosts),
    );
}

/// Makes a connection, reads it once and closes it. Gives what resulted.
pub fn read_once<R: Wait + Abort>(
    rt: &R,
    alloc: Global,
    connect: &mut TcpConnect<'_, Network<'_, R>>,
    text: &str,
) -> &'static str {
    let Ok(mut wire) = connect.connect(&origin(rt, alloc, text)) else {
        return "none";
    };
    let read = wire.read(&mut [0u8; 2]);
    connect.close(wire);
    match read {
        Err(WireFault::Failed) => "failed",
        _ => "read",
    }
}

/// How many milliseconds were slept, or how many lookups or reads there were.
fn count_of<R: Wait + Abort>(network: &Network<'_, R>, word: &str) -> u64 {
    let (lookups, reads, _) = network.counts();
    match word {
        "clock" => network.clock(),
        "lookups" => lookups,
        _ => reads,
    }
}

/// Takes the steps of a worker, each a word and what results: it visits an address, or reads a connection to that; all others
/// are counts.
fn take_steps<R: Wait + Abort>(
    rt: &R,
    alloc: Global,
    network: &Network<'_, R>,
    connect: &mut TcpConnect<'_, Network<'_, R>>,
    text: &str,
    steps: &str,
) {
    for step in steps.split(", ") {
        let (word, wanted) = step.split_once(' ').unwrap_or((step, ""));
        let is_met = if word == "visit" {
            visit(rt, alloc, connect, text) == wanted
        } else if word == "read" {
            read_once(rt, alloc, connect, text) == wanted
        } else {
            wanted.parse::<u64>().unwrap_or(u64::MAX) == count_of(network, word)
        };
        assert!(rt; is_met, "{text} {step}");
    }
}

/// Takes them in a network of its own.
fn go_alone<R: Wait + Abort>(rt: &R, alloc: Global, text: &str, steps: &str) {
    let network = Network::new(rt, alloc);
    let hosts = Hosts::new(alloc);
    let mut connect = TcpConnect::new(&network, alloc, &hosts);
    take_steps(rt, alloc, &network, &mut connect, text, steps);
}

#[test]
fn a_connection_that_failed_says_nothing_of_how_its_server_closes(rt: HostRuntime) {
    let steps =
        "read failed, reads 1, read failed, reads 2, read failed, reads 3, visit made, reads 4";
    for text in ["http://two:81/", "http://two:83/", "http://two:88/"] {
        go_alone(&rt, rt.alloc(), text, steps);
    }
}

#[test]
fn a_host_is_looked_up_again_where_memory_was_wanting(rt: HostRuntime) {
    let steps = "visit memory, lookups 1, visit memory, lookups 2";
    go_alone(&rt, rt.alloc(), "http://full/", steps);
}

/// Where a worker goes twice in a network of its own. The errors of a port's number are Linux's (errno(3)). After `#` is what
/// the next rows show.
const WAITS: &str = "# No descriptor, no buffer and no port are waited for.
http://lacking:23/ visit made, clock 3000, visit made, clock 3000, lookups 1
http://lacking:24/ visit made, clock 3000, visit made, clock 3000, lookups 1
http://lacking:105/ visit made, clock 3000, visit made, clock 3000, lookups 1
http://lacking:11/ visit made, clock 3000, visit made, clock 3000, lookups 1
http://lacking:12/ visit made, clock 3000, visit made, clock 3000, lookups 1
http://lacking:99/ visit made, clock 3000, visit made, clock 3000, lookups 1
# No route, and nobody who listens, are not.
http://lacking:101/ visit failed, clock 0, visit failed, clock 0, lookups 1
http://lacking:111/ visit failed, clock 0, visit failed, clock 0, lookups 1
http://lacking:113/ visit failed, clock 0, visit failed, clock 0, lookups 1
# A minute at most, and nothing of it is kept.
http://never:24/ visit failed, clock 60000, visit failed, clock 120000, lookups 1
http://never:99/ visit failed, clock 60000, visit failed, clock 120000, lookups 1
# Where another address gave an answer there may be no port at all for this one.
http://mixed:99/ visit failed, clock 0, visit failed, clock 0, lookups 1
# At the address that took a connection there was one.
http://used:99/ visit made, clock 0, visit made, clock 3000, lookups 1
# The resolver's want is waited for, ten seconds at most, and what it says in want isn't kept.
http://again/ visit made, clock 3000, visit made, clock 3000, lookups 4
http://never-again/ visit failed, clock 10000, visit failed, clock 20000, lookups 22
http://tight/ visit made, clock 3000, visit made, clock 3000, lookups 61
http://hidden/ visit made, clock 3000, visit made, clock 3000, lookups 2";

#[test]
fn what_the_system_lacks_is_waited_for(rt: HostRuntime) {
    for row in WAITS.lines() {
        let (text, steps) = row.split_once(' ').unwrap_or((row, ""));
        if text != "#" {
            go_alone(&rt, rt.alloc(), text, steps);
        }
    }
}

/// Goes to a server until what was missing is there.
fn visit_until_late<R: Wait + Abort>(
    rt: &R,
    network: &Network<'_, R>,
    alloc: Global,
    hosts: &Hosts,
) {
    let mut connect = TcpConnect::new(network, alloc, hosts);
    for _ in rt.forever() {
        if network.clock() >= LATE {
            break;
        }
        assert!(rt; visit(rt, alloc, &mut connect, "http://two/") == "made");
    }
}

/// Goes to a server once, by a worker of its own.
fn visit_once<R: Wait + Abort>(
    rt: &R,
    network: &Network<'_, R>,
    alloc: Global,
    hosts: &Hosts,
    text: &str,
) -> &'static str {
    let mut connect = TcpConnect::new(network, alloc, hosts);
    visit(rt, alloc, &mut connect, text)
}

#[test]
fn a_descriptor_is_waited_for_while_connections_of_the_run_end(rt: HostRuntime) {
    let alloc = rt.alloc();
    let network = Network::following(&rt, alloc);
    let hosts = Hosts::new(alloc);
    let (got, ()) = thread::join(
        &rt,
        || visit_once(&rt, &network, alloc, &hosts, "http://late:24/"),
        || visit_until_late(&rt, &network, alloc, &hosts),
    );
    assert!(rt; got == "made" && network.clock() >= LATE);
}

#[test]
fn two_workers_look_a_host_up_once(rt: HostRuntime) {
    let alloc = rt.alloc();
    let network = Network::new(&rt, alloc);
    let hosts = Hosts::new(alloc);
    let (first, second) = thread::join(
        &rt,
        || visit_once(&rt, &network, alloc, &hosts, "http://two/"),
        || visit_once(&rt, &network, alloc, &hosts, "http://two/"),
    );
    assert!(rt; first == "made" && second == "made" && network.counts().0 == 1);
}

/// A stream that answers each call so.
#[derive(Drop)]
struct Stuck(Result<usize, ErrorKind>);

impl Stuck {
    // Never more than so many.
    fn answer(&self, most: usize) -> io::Result<usize>
        ensures { IfOk result (λ n. n ≤ most) }
    {
        match self.0 {
            Ok(n) => Ok(n.min(most)),
            Err(kind) => Err(io::Error::from(kind)),
        }
    }
}

impl Read for Stuck {
    fn read(&mut self, buf: &mut [u8]) -> io::Result<usize> {
        self.answer(buf.len())
    }
}

impl Write for Stuck {
    fn write(&mut self, buf: &[u8]) -> io::Result<usize> {
        self.answer(buf.len())
    }

    fn flush(&mut self) -> io::Result<()> {
        Ok(())
    }
}

/// What a stream answers, and what a wire over it answers to a read and to a write of two bytes.
const CALLS: &[(
    Result<usize, ErrorKind>,
    Result<usize, WireFault>,
    Result<usize, WireFault>,
)] = &[
    (Ok(1), Ok(1), Ok(1)),
    (Ok(0), Ok(0), Err(WireFault::Failed)),
    (
        Err(ErrorKind::Interrupted),
        Err(WireFault::Interrupted),
        Err(WireFault::Interrupted),
    ),
];

/// Whether a wire answers so over a stream that answers each call so.
fn answers(
    answer: Result<usize, ErrorKind>,
    read: Result<usize, WireFault>,
    write: Result<usize, WireFault>,
) -> bool {
    let mut wire = TcpWire::new(Stuck(answer));
    wire.read(&mut [0u8; 2]) == read
        && wire.write(b"ab") == write
        && wire.write(b"").is_ok() == answer.is_ok()
}

#[test]
fn faults_of_streams_are_faults_of_wires(rt: HostRuntime) {
    for (answer, read, write) in CALLS {
        assert!(rt; answers(*answer, *read, *write));
    }
    for kind in [
        ErrorKind::WouldBlock,
        ErrorKind::TimedOut,
        ErrorKind::ConnectionReset,
        ErrorKind::ConnectionAborted,
        ErrorKind::BrokenPipe,
        ErrorKind::Other,
    ] {
        let failed = Err(WireFault::Failed);
        assert!(rt; answers(Err(kind), failed, failed), "{kind:?}");
    }
}

/// What a question over a connection that served before results in, if its stream answers each call so.
fn told_by(alloc: Global, kind: ErrorKind) -> &'static str {
    let mut room = Room::new();
    let mut wire = TcpWire::new(Stuck(Err(kind)));
    match read_reply_if_any(&mut room, alloc, &mut wire) {
        Ok(Some(_)) => "answered",
        Ok(None) => "silent",
        Err(ReadFault::Device) => "lost",
        Err(_) => "ill-formed",
    }
}

/// Whether a wire says that a time limit ran out, once a write over a stream that answers each call so has failed.
fn is_late_to_write(kind: ErrorKind) -> bool {
    let mut wire = TcpWire::new(Stuck(Err(kind)));
    wire.write(b"ab").is_err() && wire.has_timed_out()
}

#[test]
fn a_time_limit_that_runs_out_is_no_end_of_a_kept_connection(rt: HostRuntime) {
    for kind in [ErrorKind::WouldBlock, ErrorKind::TimedOut] {
        assert!(rt; told_by(rt.alloc(), kind) == "lost", "{kind:?}");
        assert!(rt; is_late_to_write(kind), "{kind:?}");
    }
    for kind in [ErrorKind::ConnectionReset, ErrorKind::BrokenPipe] {
        assert!(rt; told_by(rt.alloc(), kind) == "silent", "{kind:?}");
        assert!(rt; !is_late_to_write(kind), "{kind:?}");
    }
}
