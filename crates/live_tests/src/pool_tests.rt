//! Connections that are kept, over TCP on loopback: how many are open, and which are used again.
use crate::connect_tests::origin;
use address::Origin;
use http_fetcher::Connect;
use response_reader::Wire;
use std::alloc::Global;
use std::io;
use std::io::{ErrorKind, Read, Write};
use std::net::{Net, Shutdown, SocketAddr, TcpListener, TcpStream};
use std::process::Abort;
use std::sync::Wait;
use std::sync::atomic::{AtomicBool, AtomicU64, Ordering};
use std::time::{Clock, Duration};
use tcp_connect::{Hosts, KeptConnections, TcpConnect};

/// The system's network, with a clock that goes only if the test says so, and which takes no connection while it refuses them.
#[derive(Drop)]
struct Still<'a, R: Net> {
    rt: &'a R,
    seconds: AtomicU64,
    refuses: AtomicBool,
}

impl<'a, R: Net> Still<'a, R> {
    fn new(rt: &'a R) -> Still<'a, R> {
        Still {
            rt,
            seconds: AtomicU64::new(0),
            refuses: AtomicBool::new(false),
        }
    }
}

impl<R: Net + Wait> Wait for Still<'_, R> {}

impl<R: Net> Clock for Still<'_, R> {
    fn monotonic(&self) -> io::Result<Duration> {
        Ok(Duration::from_secs(self.seconds.load(Ordering::SeqCst)))
    }

    fn since_1970(&self) -> io::Result<Duration> {
        self.monotonic()
    }
}

impl<R: Net> Net for Still<'_, R> {
    type Stream = R::Stream;

    type Listener = R::Listener;

    fn bind(&self, addr: SocketAddr) -> io::Result<R::Listener> {
        self.rt.bind(addr)
    }

    fn connect(&self, addr: SocketAddr) -> io::Result<R::Stream> {
        if self.refuses.load(Ordering::SeqCst) {
            return Err(io::Error::from(ErrorKind::ConnectionRefused));
        }
        self.rt.connect(addr)
    }
}

/// What befalls connections of which two to an origin may be open. The origins are 127.0.0.1 and so on, all of one server,
/// and a connection has the number in which it was made. `make`, `take` and `give` are a worker's calls for an origin,
/// `none` one that takes none, `elsewhere` one that takes none for another port of that host, `refused` one that makes none;
/// `sends` and `shuts` are what the server does with a connection, the worker's last, of which it reads a byte or the end,
/// and `breaks` resets the one that was made last; `ended` is one whose end the server reads, `waits` a number of seconds,
/// `fills` so many origins of which one connection waits each, and `files` the moment at which those that wait are ended.
const STEPS: &str = "make 1
none 1
give 1
none 2
take 1
make 1
give 1
give 1
make 1
ended 1
make 1
ended 0
make 1
give 1
ended 4
give 1
give 1
waits 5
none 1
ended 2
ended 3
make 1
give 1
waits 4
take 1
shuts 5
give 1
none 1
ended 5
make 100
sends 6
give 100
none 100
ended 6
make 100
give 100
none 100
ended 7
fills 64
make 1
ended 8
files 0
ended 9
ended 71
give 1
take 1
make 1
give 1
give 1
take 1
take 1
none 1
give 1
elsewhere 1
give 1
make 2
refused 2
make 2
give 2
give 2
take 2
take 2
none 2
give 2
give 2
make 4
give 4
waits 5
make 5
give 5
ended 76
make 3
breaks 3
give 3
make 3
make 3
give 3
give 3
take 3
take 3
give 3
give 3";

/// The server, and its ends of the connections in the order in which they were made.
#[derive(Drop)]
struct Server<'a> {
    listener: &'a TcpListener,
    port: u16,
    ends: Vec<TcpStream>,
}

impl Server<'_> {
    // Whether it took one more.
    fn accepts(&mut self) -> bool {
        match self.listener.accept() {
            Ok((end, _)) => self.ends.push(end).is_ok(),
            Err(_) => false,
        }
    }
}

/// Makes a worker's call. Whether it came as the word says.
fn works<C: Connect>(connect: &mut C, wires: &mut Vec<C::Wire>, of: &Origin, word: &str) -> bool {
    if word == "none" || word == "elsewhere" {
        return connect.take(of).is_none();
    }
    if word == "refused" {
        return connect.connect(of).is_err();
    }
    if word == "give" {
        let Some(wire) = wires.pop() else {
            return false;
        };
        connect.give_back(of, wire);
        return true;
    }
    let wire = if word == "take" {
        connect.take(of)
    } else {
        connect.connect(of).ok()
    };
    match wire {
        Some(wire) => wires.push(wire).is_ok(),
        None => false,
    }
}

/// The same for an origin, of which the server takes the connection that is made.
fn goes<C: Connect>(
    rt: &impl Abort,
    alloc: Global,
    connect: &mut C,
    wires: &mut Vec<C::Wire>,
    server: &mut Server<'_>,
    word: &str,
    host: usize,
) -> bool {
    let port = if word == "elsewhere" {
        server.port ^ 1
    } else {
        server.port
    };
    let text = format!(in alloc; "http://127.0.0.{host}:{port}/").expect(rt, "memory");
    let came = works(connect, wires, &origin(rt, alloc, text.as_str()), word);
    came && (word != "make" || server.accepts())
}

/// Makes a connection to each of so many origins, and gives it back.
fn fills<C: Connect>(
    rt: &impl Abort,
    alloc: Global,
    connect: &mut C,
    wires: &mut Vec<C::Wire>,
    server: &mut Server<'_>,
    count: usize,
) -> bool {
    for k in 0..count {
        let host = k.saturating_add(3);
        for word in ["make", "give"] {
            if !goes(rt, alloc, connect, wires, server, word, host) {
                return false;
            }
        }
    }
    true
}

/// Whether a connection ends, with nothing before its end.
fn is_ended<S: Read>(end: &mut S) -> bool {
    !matches!(end.read(&mut [0u8; 1]), Ok(n) if n > 0)
}

/// Whether each of these does.
fn are_ended(ends: &mut [TcpStream]) -> bool {
    for end in ends.iter_mut() {
        if !is_ended(end) {
            return false;
        }
    }
    true
}

/// How many bytes a worker reads of its last connection, one at most.
fn reads<W: Wire>(wires: &mut [W]) -> Option<usize> {
    let wire = wires.last_mut()?;
    wire.read(&mut [0u8; 1]).ok()
}

/// Does what a step says of the server's end of a connection. Whether it came as it says.
fn serves<W: Wire>(end: &mut TcpStream, wires: &mut [W], word: &str) -> bool {
    if word == "ended" {
        return is_ended(end);
    }
    if word == "sends" {
        // Both bytes have come if the first has.
        return end.write_all(b"xy").is_ok() && reads(wires) == Some(1);
    }
    end.shutdown(Shutdown::Write).is_ok() && reads(wires) == Some(0)
}

/// Resets the connection that was made last, the worker's last: it is closed while a byte waits there. Whether the worker finds it
/// broken.
fn breaks<W: Wire>(server: &mut Server<'_>, wires: &mut [W]) -> bool {
    let Some(wire) = wires.last_mut() else {
        return false;
    };
    let is_sent = wire.write(b"x").is_ok();
    drop(server.ends.pop());
    is_sent && wire.read(&mut [0u8; 1]).is_err()
}

/// Takes a step of a worker or of the server. Whether it came as it says.
fn steps<C: Connect>(
    rt: &impl Abort,
    alloc: Global,
    connect: &mut C,
    wires: &mut Vec<C::Wire>,
    server: &mut Server<'_>,
    word: &str,
    number: usize,
) -> bool {
    if word == "fills" {
        return fills(rt, alloc, connect, wires, server, number);
    }
    if word == "breaks" {
        return breaks(server, wires);
    }
    if word == "ended" || word == "sends" || word == "shuts" {
        return match server.ends.get_mut(number) {
            Some(end) => serves(end, wires, word),
            None => false,
        };
    }
    goes(rt, alloc, connect, wires, server, word, number)
}

/// Takes the steps over these connections.
fn take_steps<R: Net + Wait + Abort, C: Connect>(
    rt: &R,
    alloc: Global,
    still: &Still<'_, R>,
    kept: &KeptConnections<R::Stream>,
    connect: &mut C,
    wires: &mut Vec<C::Wire>,
    server: &mut Server<'_>,
) {
    for line in STEPS.lines() {
        let (word, number) = line.split_once(' ').unwrap_or((line, ""));
        let number = number.parse::<usize>().expect(rt, "a number");
        if word == "waits" {
            still.seconds.fetch_add(number as u64, Ordering::SeqCst);
        } else if word == "files" {
            kept.end_waiting(still);
        } else {
            still.refuses.store(word == "refused", Ordering::SeqCst);
            let came = steps(rt, alloc, connect, wires, server, word, number);
            assert!(rt; came, "{line}");
        }
    }
}

#[test]
fn connections_that_wait_are_counted_and_those_that_died_are_dropped(rt: HostRuntime) {
    let alloc = rt.alloc();
    let listener = TcpListener::bind(&rt, "0.0.0.0:0").expect(&rt, "a port");
    let mut server = Server {
        listener: &listener,
        port: listener.local_addr().expect(&rt, "its address").port(),
        ends: Vec::new(alloc),
    };
    let still = Still::new(&rt);
    let hosts = Hosts::new(alloc);
    let kept = KeptConnections::new(alloc);
    let mut connect = TcpConnect::new(&still, alloc, &hosts).keeping(&kept, 2);
    let mut wires = Vec::new(alloc);
    take_steps(
        &rt,
        alloc,
        &still,
        &kept,
        &mut connect,
        &mut wires,
        &mut server,
    );
    drop(wires);
    drop(connect);
    drop(kept);
    // After a run no connection is open.
    assert!(rt; are_ended(&mut server.ends));
}
