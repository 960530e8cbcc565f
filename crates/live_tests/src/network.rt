//! A network for tests: it knows a few hosts by name, and reports the requests. Its clock goes only while somebody sleeps, or when a test
//! sets it. It has a terminal of its own.
use std::alloc::Global;
use std::fmt::{Display, Write};
use std::io::{ErrorKind, Read};
use std::net::{IpAddr, Net, OpenListener, OpenStream, SocketAddr};
use std::os::fd::{AsRawFd, OwnedFd, RawFd};
use std::process::Abort;
use std::sync::atomic::{AtomicBool, AtomicU64, Ordering};
use std::sync::{Arc, Mutex, Wait};
use std::time::{Clock, Duration};
use std::{io, thread};

/// The port of the servers that keep a connection open, and of those that send as much as there is room for. All others end
/// a connection at once.
pub const STAYS: u16 = 81;

pub const SENDS: u16 = 82;

/// The ports of servers whose connections break: at each read, and at each write; the second sends all the same.
pub const LOSES_READS: u16 = 83;

pub const LOSES_WRITES: u16 = 84;

/// The ports of servers at whose connections a time limit is refused, and the option that nothing is delayed.
pub const REFUSES_LIMIT: u16 = 85;

pub const REFUSES_DELAY: u16 = 86;

/// The port of the servers that keep open each connection at which an even number of reads was counted before.
pub const STAYS_AT_TIMES: u16 = 87;

/// The port of the servers that keep a connection open, where a time limit has the other error (recv(2) beside connect(2)).
pub const TIMES_OUT: u16 = 88;

/// The millisecond from which on this machine is short of nothing, if it was, and that for a host that needs longer.
const SOON: u64 = 3_000;

pub const LATE: u64 = 130_000;

/// Hosts, and the last numbers of their addresses 10.0.0.x.
const HOSTS: &[(&str, &[u8])] = &[
    ("two", &[1, 2]),
    ("three", &[1, 2, 3]),
    ("five", &[1, 11, 12, 4, 5]),
    ("silent", &[6, 2]),
    ("lacking", &[7]),
    ("never", &[8]),
    ("mixed", &[8, 1]),
    ("used", &[9, 1]),
    ("late", &[10]),
    ("again", &[2]),
    ("tight", &[2]),
    ("hidden", &[2]),
];

const AGAIN: &str = "failed to lookup address information: Temporary failure in name resolution";

/// Linux: too many open files.
const EMFILE: i32 = 24;

/// What was requested of a network.
#[derive(Drop)]
pub struct CallLog {
    pub lookups: AtomicU64,
    pub reads: AtomicU64,
    /// The addresses at which a connection was requested, in order.
    pub tried: Mutex<Vec<SocketAddr>>,
    /// The milliseconds of the first limits that were set: on reads, on reads after these, and on writes.
    pub limits: [AtomicU64; 3],
    /// How often it was set that nothing is delayed.
    pub undelayed: AtomicU64,
    /// The milliseconds that were slept.
    pub clock: AtomicU64,
    /// What was written to the terminal.
    pub shown: Mutex<String>,
    // Whether there is no descriptor, if one looks for that.
    is_full: AtomicBool,
}

/// A network over the runtime of a test.
#[derive(Drop)]
pub struct Network<'a, R: Wait + Abort> {
    rt: &'a R,
    pub log: Arc<CallLog>,
    // Whether each sleep lasts until one more connection was requested.
    follows: bool,
}

/// A connection to the server at an address.
#[derive(Drop)]
pub struct FakeStream {
    server: SocketAddr,
    log: Arc<CallLog>,
}

/// No server is made here.
#[derive(Drop)]
pub struct FakeListener;

impl<'a, R: Wait + Abort> Network<'a, R> {
    pub fn new(rt: &'a R, alloc: Global) -> Network<'a, R> {
        let log = CallLog {
            lookups: AtomicU64::new(0),
            reads: AtomicU64::new(0),
            tried: Mutex::new(Vec::new(alloc)),
            limits: [AtomicU64::new(0), AtomicU64::new(0), AtomicU64::new(0)],
            undelayed: AtomicU64::new(0),
            clock: AtomicU64::new(0),
            shown: Mutex::new(String::new(alloc)),
            is_full: AtomicBool::new(false),
        };
        Network {
            rt,
            log: Arc::new(alloc, log).expect(rt, "memory"),
            follows: false,
        }
    }

    /// One in which each sleep lasts until one more connection was requested.
    pub fn following(rt: &'a R, alloc: Global) -> Network<'a, R> {
        let mut network = Network::new(rt, alloc);
        network.follows = true;
        network
    }

    /// How many lookups, reads and tried addresses there were.
    pub fn counts(&self) -> (u64, u64, usize) {
        (
            self.log.lookups.load(Ordering::SeqCst),
            self.log.reads.load(Ordering::SeqCst),
            self.log.tried.lock(self.rt).len(),
        )
    }

    /// The milliseconds of the first limits on reads, on reads after these, and on writes, and how often no delay was set.
    pub fn limits(&self) -> (u64, u64, u64, u64) {
        let [reads, ends, writes] = &self.log.limits;
        (
            reads.load(Ordering::SeqCst),
            ends.load(Ordering::SeqCst),
            writes.load(Ordering::SeqCst),
            self.log.undelayed.load(Ordering::SeqCst),
        )
    }

    /// The milliseconds that were slept.
    pub fn clock(&self) -> u64 {
        self.log.clock.load(Ordering::SeqCst)
    }

    /// Sets the clock.
    pub fn set_clock(&self, millis: u64) {
        self.log.clock.store(millis, Ordering::SeqCst);
    }

    /// Whether this was written to the terminal.
    pub fn shows(&self, wanted: &str) -> bool {
        let shown = self.log.shown.lock(self.rt);
        shown.as_str() == wanted
    }

    // Whether a connection was requested there once.
    fn is_first(&self, addr: SocketAddr) -> bool {
        let tried = self.log.tried.lock(self.rt);
        tried.iter().filter(|other| **other == addr).count() == 1
    }

    // What a connection meets at 10.0.0.x, none if it is taken; a shortage of this machine is the error of the port's number.
    fn met_at(&self, addr: SocketAddr) -> Option<io::Error> {
        let lack = Some(io::Error::from_raw_os_error(i32::from(addr.port())));
        match last_number(addr) {
            1 | 11 | 12 => Some(io::Error::from(ErrorKind::ConnectionRefused)),
            4 if !self.is_first(addr) => Some(io::Error::from(ErrorKind::ConnectionRefused)),
            6 => Some(io::Error::from(ErrorKind::TimedOut)),
            7 if self.clock() < SOON => lack,
            8 => lack,
            9 if !self.is_first(addr) && self.clock() < SOON => lack,
            10 if self.clock() < LATE => lack,
            _ => None,
        }
    }

    // What a lookup meets, none if it is answered. That of `full` has no memory, that of `tight` no descriptor, and that of
    // `hidden` doesn't report that it has none.
    fn met_by(&self, host: &str) -> Option<io::Error> {
        let early = self.clock() < SOON;
        match host {
            "full" => Some(io::Error::from(ErrorKind::OutOfMemory)),
            "again" if early => Some(io::Error::new(ErrorKind::Uncategorized, AGAIN)),
            "never-again" => Some(io::Error::new(ErrorKind::Uncategorized, AGAIN)),
            "tight" if early => Some(io::Error::from_raw_os_error(EMFILE)),
            "hidden" if early => {
                self.log.is_full.store(true, Ordering::SeqCst);
                Some(io::Error::from(ErrorKind::NotFound))
            }
            _ => None,
        }
    }
}

// The last number of an IPv4 address.
fn last_number(addr: SocketAddr) -> u8 {
    match addr.ip() {
        IpAddr::V4(ip) => ip.octets()[3],
        IpAddr::V6(_) => 0,
    }
}

impl<R: Wait + Abort> Wait for Network<'_, R> {}

impl<R: Wait + Abort> Clock for Network<'_, R> {
    fn monotonic(&self) -> io::Result<Duration> {
        Ok(Duration::from_millis(self.clock()))
    }

    fn since_1970(&self) -> io::Result<Duration> {
        Err(io::Error::from(ErrorKind::Unsupported))
    }

    fn sleep(&self, duration: Duration) {
        let before = self.counts().2;
        self.log.clock.fetch_add(millis(duration), Ordering::SeqCst);
        if self.follows {
            for _ in self.rt.forever() {
                if self.counts().2 > before || self.clock() >= LATE {
                    break;
                }
                thread::yield_now();
            }
        }
    }
}

impl<R: Wait + Abort> Eprint for Network<'_, R> {
    fn eprint<D: Display + Drop>(&self, value: D) -> io::Result<()> {
        let mut shown = self.log.shown.lock(self.rt);
        write!(shown, "{value}").expect(self.rt, "memory");
        Ok(())
    }

    fn eprintln<D: Display + Drop>(&self, value: D) -> io::Result<()> {
        self.eprint(value)
    }
}

// A time in milliseconds.
fn millis(duration: Duration) -> u64 {
    u64::try_from(duration.as_millis()).unwrap_or(u64::MAX)
}

impl<R: Wait + Abort> Net for Network<'_, R> {
    type Stream = FakeStream;

    type Listener = FakeListener;

    fn bind(&self, _addr: SocketAddr) -> io::Result<FakeListener> {
        Err(io::Error::from(ErrorKind::Unsupported))
    }

    fn connect(&self, addr: SocketAddr) -> io::Result<FakeStream> {
        let tried = self.log.tried.lock(self.rt).push(addr);
        tried.expect(self.rt, "memory");
        match self.met_at(addr) {
            Some(e) => Err(e),
            None => Ok(FakeStream {
                server: addr,
                log: Arc::try_clone(&self.log).expect(self.rt, "memory"),
            }),
        }
    }

    fn lookup_host(&self, host: &str, port: u16, found: &mut [SocketAddr]) -> io::Result<usize> {
        self.log.lookups.fetch_add(1, Ordering::SeqCst);
        for _ in 0..1000u32 {
            thread::yield_now();
        }
        if let Some(e) = self.met_by(host) {
            return Err(e);
        }
        let Some((_, numbers)) = HOSTS.iter().find(|known| known.0 == host) else {
            return Err(io::Error::from(ErrorKind::NotFound));
        };
        for (slot, number) in found.iter_mut().zip(*numbers) {
            *slot = SocketAddr::from(([10, 0, 0, *number], port));
        }
        Ok(numbers.len().min(found.len()))
    }

    // None is made here. That there is no descriptor it reports if it is so.
    fn unix_socket(&self) -> io::Result<OwnedFd> {
        if self.log.is_full.load(Ordering::SeqCst) && self.clock() < SOON {
            return Err(io::Error::from_raw_os_error(EMFILE));
        }
        Err(io::Error::from(ErrorKind::Unsupported))
    }
}

impl Read for FakeStream {
    fn read(&mut self, buf: &mut [u8]) -> io::Result<usize> {
        let reads = self.log.reads.fetch_add(1, Ordering::SeqCst);
        match self.server.port() {
            STAYS_AT_TIMES if reads % 2 == 0 => Err(io::Error::from(ErrorKind::WouldBlock)),
            STAYS => Err(io::Error::from(ErrorKind::WouldBlock)),
            TIMES_OUT => Err(io::Error::from(ErrorKind::TimedOut)),
            SENDS | LOSES_WRITES => Ok(buf.len()),
            LOSES_READS => Err(io::Error::from(ErrorKind::ConnectionReset)),
            _ => Ok(0),
        }
    }
}

impl io::Write for FakeStream {
    fn write(&mut self, buf: &[u8]) -> io::Result<usize> {
        match self.server.port() {
            LOSES_WRITES => Err(io::Error::from(ErrorKind::BrokenPipe)),
            _ => Ok(buf.len()),
        }
    }

    fn flush(&mut self) -> io::Result<()> {
        Ok(())
    }
}

impl FakeStream {
    // What is answered to an option that the connections of some servers refuse.
    fn answer(&self, refuses: u16) -> io::Result<()> {
        if self.server.port() == refuses {
            return Err(io::Error::from(ErrorKind::InvalidInput));
        }
        Ok(())
    }
}

// Notes a limit, unless one was noted there; whether it was noted.
fn note(limit: &AtomicU64, dur: Option<Duration>) -> bool {
    let millis = dur.map_or(0, millis);
    limit
        .compare_exchange(0, millis, Ordering::SeqCst, Ordering::SeqCst)
        .is_ok()
}

impl OpenStream for FakeStream {
    fn peer_addr(&self) -> io::Result<SocketAddr> {
        Ok(self.server)
    }

    fn set_nodelay(&self, nodelay: bool) -> io::Result<()> {
        self.log
            .undelayed
            .fetch_add(u64::from(nodelay), Ordering::SeqCst);
        self.answer(REFUSES_DELAY)
    }

    fn set_read_timeout(&self, dur: Option<Duration>) -> io::Result<()> {
        if !note(&self.log.limits[0], dur) {
            note(&self.log.limits[1], dur);
        }
        Ok(())
    }

    fn set_write_timeout(&self, dur: Option<Duration>) -> io::Result<()> {
        note(&self.log.limits[2], dur);
        self.answer(REFUSES_LIMIT)
    }
}

impl AsRawFd for FakeStream {
    fn as_raw_fd(&self) -> RawFd {
        -1
    }
}

impl OpenListener for FakeListener {
    type Stream = FakeStream;

    fn accept(&self) -> io::Result<(FakeStream, SocketAddr)> {
        Err(io::Error::from(ErrorKind::Unsupported))
    }
}

impl AsRawFd for FakeListener {
    fn as_raw_fd(&self) -> RawFd {
        -1
    }
}
