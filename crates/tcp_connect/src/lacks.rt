//! What the system may be short of for a connection, and how long it is waited for.
ghost use Rattle.std.specs.Prelude.{◌≡◌};
ghost use Rattle.std.specs.IoError.{error_kind};
ghost use Rattle.tcp_connect.specs.Losses.{answer_by, loss_by, loss_without, lost_by};

use connect::ConnectFault;
use run_failures::LossKind;
use std::alloc::{AllocError, Global};
use std::io::{Error, ErrorKind};
use std::net::Net;
use std::thread;
use std::time::{Clock, Duration, Instant};

/// The most seconds that are waited for a descriptor, a buffer or a port. Linux keeps a used port for so long.
const SYSTEM_TIMEOUT: u64 = 60;

/// The most seconds that are waited for a resolver that has no answer now (resolv.conf(5): two tries of five seconds).
const RESOLVER_TIMEOUT: u64 = 10;

/// The milliseconds after which it is tried again to have a descriptor or a buffer: one that ends gives its own back at once.
const SHORT_PAUSE: u64 = 50;

/// The milliseconds after which it is tried again to have a port, or the resolver's answer.
const LONG_PAUSE: u64 = 1000;

// The system's numbers of what has no kind of its own: no descriptor for anybody, none for this process, no buffer
// (errno(3), Linux).
const ENFILE: i32 = 23;

const EMFILE: i32 = 24;

const ENOBUFS: i32 = 105;

// What the library says if the resolver has no answer now (getaddrinfo(3), EAI_AGAIN). It gives no number.
const AGAIN: &str = "Temporary failure in name resolution";

// What the system is short of for a connection. None of it says anything of the host.
#[derive(Clone, Copy, PartialEq, Eq)]
pub(crate) enum Lack {
    // A descriptor, or a buffer: the run's own connections hold some, and give them back when they end.
    Descriptor,
    // A port of this machine: the run's own connections hold some too.
    Port,
    // A port for an address that took no connection yet: this machine may have no address to reach it from.
    Address,
    // The resolver's answer.
    Resolver,
}

impl Lack {
    // How long it is waited for.
    fn limit(self) -> Duration {
        match self {
            Lack::Descriptor | Lack::Port | Lack::Address => Duration::from_secs(SYSTEM_TIMEOUT),
            Lack::Resolver => Duration::from_secs(RESOLVER_TIMEOUT),
        }
    }

    // How long nothing is tried.
    fn pause(self) -> Duration {
        match self {
            Lack::Descriptor => Duration::from_millis(SHORT_PAUSE),
            Lack::Port | Lack::Address | Lack::Resolver => Duration::from_millis(LONG_PAUSE),
        }
    }

    // What a connection is lost for that isn't made without it.
    pub(crate) fn loss(self) -> LossKind
        ensures { result ≡ loss_without self }
    {
        match self {
            Lack::Descriptor => LossKind::Descriptor,
            Lack::Port | Lack::Address => LossKind::Port,
            Lack::Resolver => LossKind::Resolver,
        }
    }

    // Whether connections of the run that end give it back.
    fn is_own(self) -> bool {
        matches!(self, Lack::Descriptor | Lack::Port)
    }
}

// Why a connection wasn't made.
#[derive(Clone, Copy)]
pub(crate) enum OpenFault {
    // The host has no address, or nobody there took the connection.
    Failed(LossKind),
    // Memory ran out.
    Memory,
    // The system is short of something: the host wasn't asked.
    Lacking(Lack),
}

impl From<AllocError> for OpenFault {
    fn from(_e: AllocError) -> OpenFault {
        OpenFault::Memory
    }
}

impl OpenFault {
    // What is reported of it. A shortage is waited for first.
    pub(crate) fn told(self) -> ConnectFault
        ensures { result ≡ answer_by self }
    {
        match self {
            OpenFault::Failed(_) | OpenFault::Lacking(_) => ConnectFault::Failed,
            OpenFault::Memory => ConnectFault::Memory,
        }
    }

    // Why a connection is lost by it; running out of memory loses none.
    pub(crate) fn loss(self) -> Option<LossKind>
        ensures { result ≡ lost_by self }
    {
        match self {
            OpenFault::Failed(kind) => Some(kind),
            OpenFault::Lacking(lack) => Some(lack.loss()),
            OpenFault::Memory => None,
        }
    }
}

// Whether the system's error of this number says that there is no descriptor or no buffer.
fn is_want(number: i32) -> bool {
    number == ENFILE || number == EMFILE || number == ENOBUFS
}

// What the system was short of if a call failed so; none if the failure says something of the host.
pub(crate) fn lack_of(e: &Error) -> Option<Lack> {
    match e.kind() {
        ErrorKind::AddrNotAvailable => Some(Lack::Port),
        ErrorKind::WouldBlock | ErrorKind::OutOfMemory => Some(Lack::Descriptor),
        _ => match e.raw_os_error() {
            Some(number) if is_want(number) => Some(Lack::Descriptor),
            _ => None,
        },
    }
}

// Why a connection is lost if a call failed so.
pub(crate) fn loss_of(e: &Error) -> LossKind
    ensures { result ≡ loss_by (error_kind e.now) }
{
    match e.kind() {
        ErrorKind::ConnectionRefused => LossKind::Refused,
        ErrorKind::TimedOut => LossKind::TimedOut,
        ErrorKind::HostUnreachable | ErrorKind::NetworkUnreachable | ErrorKind::NetworkDown => {
            LossKind::Unreachable
        }
        ErrorKind::ConnectionReset | ErrorKind::ConnectionAborted => LossKind::Broken,
        _ => LossKind::Other,
    }
}

// Whether there is no descriptor now. One is taken to see it, and given back.
pub(crate) fn lacks_descriptor<R: Net>(rt: &R) -> bool {
    match rt.unix_socket() {
        Ok(_) => false,
        Err(e) => lack_of(&e).is_some(),
    }
}

// Whether the resolver has no answer now.
pub(crate) fn is_again(alloc: Global, e: &Error) -> Result<bool, AllocError> {
    let words = format!(in alloc; "{e}")?;
    Ok(words.contains(AGAIN))
}

// How long was waited for what the system was short of for one connection.
#[derive(Drop)]
pub(crate) struct Patience {
    // When the wait began; none before it did.
    start: Option<Instant>,
    // How many of the run's connections had ended by then.
    ended: u64,
}

impl Patience {
    pub(crate) fn new() -> Patience {
        Patience {
            start: None,
            ended: 0,
        }
    }

    // Waits a moment, and says whether it is to be tried again; `ended` of the run's connections have ended by now. The time
    // for what these give back begins anew with each that ended. If there is no clock nothing is waited for.
    pub(crate) fn pause<R: Clock>(&mut self, rt: &R, lack: Lack, ended: u64) -> bool {
        let Ok(now) = Instant::now(rt) else {
            return false;
        };
        let start = match self.start {
            Some(start) if !lack.is_own() || self.ended == ended => start,
            _ => now,
        };
        self.start = Some(start);
        self.ended = ended;
        if now.duration_since(start) >= lack.limit() {
            return false;
        }
        thread::sleep(rt, lack.pause());
        true
    }
}
