//! The connections of a run that are kept to be used again (RFC 9112, section 9.3), and how many are open.
ghost use Rattle.std.specs.Prelude.{◌≡◌, ◌⊎◌, [], Some, IfOk, IfSome, MatchOption, string_bytes};
ghost use Rattle.std.specs.List.{flat_map};
ghost use Rattle.run_failures.specs.Unasked.{unasked_line, with_origin};
ghost use Rattle.tcp_connect.specs.Standing.{waits, EndsFirst, Leaves, TakesKept, EntersKept, PutsKept};

pub(crate) use crate::standing::MOST;
use crate::standing::{Entered, OpenConnections};
use address::Origin;
use libc::net::{POLLIN, poll};
use libc::types::pollfd;
use run_failures::Unasked;
use std::alloc::{AllocError, Global};
use std::io::ErrorKind;
use std::marker::Model;
use std::net::OpenStream;
use std::os::fd::AsRawFd;
use std::sync::{Mutex, Wait};
use std::time::{Clock, Instant};

/// The most seconds that one waits.
const IDLE_SECONDS: u64 = 5;

// One that waits to be used again, the origin that it was made for, and since when.
#[derive(Drop)]
pub(crate) struct Waiting<S: Drop> {
    pub(crate) of: Origin,
    pub(crate) since: Instant,
    pub(crate) stream: S,
}

// What a run keeps of connections: the open ones, and the origins whose servers sent bytes that nobody had requested. Of these
// none is kept any more.
#[derive(Drop)]
pub(crate) struct Pooled<W> {
    standing: OpenConnections<W>,
    unasked: Unasked,
}

impl<W> Model for Pooled<W> {
    ghost use Rattle.tcp_connect.specs.Standing.{Pooling};

    ghost Value = { Pooling W };

    ghost view = { λ p. record { pool = p.standing; unasked = p.unasked } };
}

impl<W: Drop> Pooled<W> {
    // None is open, and no origin is known for such bytes. Takes no memory.
    fn new(alloc: Global) -> Pooled<W>
        ensures { result ≡ record { pool = record { stands = []; entered = 0 }; unasked = [] } }
    {
        Pooled {
            standing: OpenConnections::new(alloc),
            unasked: Unasked::new(alloc),
        }
    }

    // The one to this origin that was put down last, which is in use from now on.
    fn take(&mut self, of: &Origin) -> Option<(u64, W)>
        ensures { TakesKept of.now self.old result self.new }
    {
        if self.unasked.has(of) {
            return None;
        }
        self.standing.take(of.as_str())
    }

    // A place for a new one to an origin, of which so many may be open.
    fn enter(&mut self, alloc: Global, of: &Origin, most: usize) -> Result<Entered<W>, AllocError>
        ensures ok { IfOk result (λ entered. EntersKept of.now most self.old entered.place entered.ended self.new) }
        ensures unasked { self.new.unasked ≡ self.old.unasked }
    {
        if self.unasked.has(of) {
            return Ok(Entered {
                place: None,
                ended: None,
            });
        }
        let text = String::from_str(alloc, of.as_str())?;
        self.standing.enter(text, most)
    }

    // Puts one to an origin down to wait. It comes back if there is no place for it.
    fn put(&mut self, of: &Origin, number: u64, waiting: W) -> Option<W>
        ensures { PutsKept of.now number waiting self.old result self.new }
    {
        if self.unasked.has(of) {
            return Some(waiting);
        }
        self.standing.put(number, waiting)
    }

    // No connection to this origin is kept from now on. If there is no memory for that, one may be.
    fn refuse(&mut self, of: &Origin)
        ensures pool { self.new.pool ≡ self.old.pool }
        ensures unasked { (self.new.unasked ≡ self.old.unasked) ⊎ (self.new.unasked ≡ with_origin self.old.unasked of.now) }
    {
        let _ = self.unasked.add(of);
    }

    // The connection of this number isn't open any more.
    fn leave(&mut self, number: u64)
        ensures pool { Leaves number self.old.pool self.new.pool }
        ensures unasked { self.new.unasked ≡ self.old.unasked }
    {
        self.standing.leave(number);
    }

    // The lines on the origins of which none is kept any more.
    fn text(&self) -> Result<String, AllocError>
        ensures { IfOk result (λ text. string_bytes text ≡ flat_map unasked_line self.now.unasked) }
    {
        self.unasked.text()
    }
}

/// The connections of a run that are kept, shared by all its workers. Those in use are counted with those that wait. The lock is
/// held while one is looked for, counted or put down, and never while one is made, used, looked at or closed.
pub struct KeptConnections<S: Drop> {
    alloc: Global,
    pooled: Mutex<Pooled<Waiting<S>>>,
}

// By hand: who drops one proves a call, and nothing of what it holds.
impl<S: Drop> Drop for KeptConnections<S> {
    fn drop(self) {
        let KeptConnections {
            alloc: _alloc,
            pooled: _pooled,
        } = self;
    }
}

// The place of a connection that is in use. It can't be dropped: whoever ends the connection leaves it, or keeps the connection
// there, and there is no third way.
pub(crate) struct PlaceInUse<'k, S: Drop> {
    kept: &'k KeptConnections<S>,
    number: u64,
}

impl<'k, S: Drop> PlaceInUse<'k, S> {
    // Those that it is among.
    pub(crate) fn kept(&self) -> &'k KeptConnections<S> {
        self.kept
    }

    // The connection isn't open any more.
    pub(crate) fn leave<R: Wait>(self, rt: &R) {
        let PlaceInUse { kept, number } = self;
        kept.pooled.lock(rt).leave(number);
    }

    // Puts the connection down to wait. Both come back if it isn't kept.
    pub(crate) fn put<R: Wait>(
        self,
        rt: &R,
        waiting: Waiting<S>,
    ) -> Option<(PlaceInUse<'k, S>, Waiting<S>)> {
        let PlaceInUse { kept, number } = self;
        let Ok(of) = waiting.of.try_clone() else {
            return Some((PlaceInUse { kept, number }, waiting));
        };
        let back = put_among(&mut kept.pooled.lock(rt), &of, number, waiting);
        match back {
            Some(waiting) => Some((PlaceInUse { kept, number }, waiting)),
            None => None,
        }
    }
}

impl<S: Drop> KeptConnections<S> {
    /// None is open. Takes no memory.
    pub fn new(alloc: Global) -> KeptConnections<S> {
        KeptConnections {
            alloc,
            pooled: Mutex::new(Pooled::new(alloc)),
        }
    }

    /// A line for each origin to which no connection is kept any more, since its server sent bytes that nobody had requested.
    pub fn unasked_text<R: Wait>(&self, rt: &R) -> Result<String, AllocError> {
        text_among(&mut self.pooled.lock(rt))
    }

    // The one to this origin that was put down last, which is in use from now on. What is under the lock no clause can name, so the
    // origin is compared once more.
    pub(crate) fn take<'k, R: Wait>(
        &'k self,
        rt: &R,
        of: &Origin,
    ) -> Option<(PlaceInUse<'k, S>, Waiting<S>)>
        ensures { IfSome result (λ taken. taken.1.of ≡ of.now) }
    {
        let taken = self.pooled.lock(rt).take(of);
        let (number, waiting) = taken?;
        let place = PlaceInUse { kept: self, number };
        if waiting.of == *of {
            return Some((place, waiting));
        }
        place.leave(rt);
        None
    }

    // A place for a new connection to an origin, of which so many may be open, and one that has to go for it.
    pub(crate) fn enter<'k, R: Wait>(
        &'k self,
        rt: &R,
        of: &Origin,
        most: usize,
    ) -> Result<(Option<PlaceInUse<'k, S>>, Option<Waiting<S>>), AllocError> {
        let entered = self.pooled.lock(rt).enter(self.alloc, of, most);
        let Entered { place, ended } = entered?;
        match place {
            Some(number) => Ok((Some(PlaceInUse { kept: self, number }), ended)),
            None => Ok((None, ended)),
        }
    }

    // No connection to an origin is kept from now on: its server sent bytes that nobody had requested.
    pub(crate) fn refuse<R: Wait>(&self, rt: &R, of: &Origin) {
        self.pooled.lock(rt).refuse(of);
    }

    // The one that waits longest, if it waits too long.
    pub(crate) fn take_stale<R: Wait + Clock>(&self, rt: &R) -> Option<Waiting<S>> {
        stale_among(&mut self.pooled.lock(rt), rt)
    }

    // The one that waits longest.
    pub(crate) fn take_oldest<R: Wait>(&self, rt: &R) -> Option<Waiting<S>> {
        oldest_among(&mut self.pooled.lock(rt))
    }
}

impl<S: OpenStream + AsRawFd + Drop> KeptConnections<S> {
    /// Ends those that wait. Each holds a descriptor, which files need too once a run has requested all.
    pub fn end_waiting<R: Wait>(&self, rt: &R) {
        for _ in 0..MOST {
            match self.take_oldest(rt) {
                Some(waiting) => self.end(rt, waiting),
                None => return,
            }
        }
    }

    // Ends one that waited. What came over it is known of its server from now on.
    pub(crate) fn end<R: Wait>(&self, rt: &R, waiting: Waiting<S>) {
        let Waiting { of, stream, .. } = waiting;
        let _ = self.is_quiet(rt, &of, &stream);
        drop(stream);
    }

    // Whether nothing can be read from a connection to an origin over which nothing was requested since the last answer. If bytes
    // can, no connection to that origin is kept from now on.
    pub(crate) fn is_quiet<R: Wait>(&self, rt: &R, of: &Origin, stream: &S) -> bool {
        let idle = look_at(stream);
        if idle == Idle::Unasked {
            self.refuse(rt, of);
        }
        idle == Idle::Quiet
    }
}

// These functions take `&mut` to what is under the lock, so that no early return of theirs releases it.

// The one that waits longest, if it waits too long.
fn stale_among<S: Drop, R: Clock>(pooled: &mut Pooled<Waiting<S>>, rt: &R) -> Option<Waiting<S>>
    ensures stale { MatchOption result (pooled.new ≡ pooled.old) (λ waiting. EndsFirst waits pooled.old.pool (Some waiting) pooled.new.pool) }
    ensures unasked { pooled.new.unasked ≡ pooled.old.unasked }
{
    let oldest = pooled.standing.oldest()?;
    if is_fresh(rt, &oldest.since) {
        return None;
    }
    oldest_among(pooled)
}

// The one that waits longest.
fn oldest_among<W: Drop>(pooled: &mut Pooled<W>) -> Option<W>
    ensures oldest { EndsFirst waits pooled.old.pool result pooled.new.pool }
    ensures unasked { pooled.new.unasked ≡ pooled.old.unasked }
{
    pooled.standing.take_oldest()
}

// Puts one down to wait, under this origin, which is the one that it was made for. It comes back if there is no place for it.
fn put_among<S: Drop>(
    pooled: &mut Pooled<Waiting<S>>,
    of: &Origin,
    number: u64,
    waiting: Waiting<S>,
) -> Option<Waiting<S>>
    requires { of.now ≡ waiting.of }
    ensures { PutsKept waiting.of number waiting pooled.old result pooled.new }
{
    pooled.put(of, number, waiting)
}

// The lines on the origins of which none is kept any more.
fn text_among<W: Drop>(pooled: &mut Pooled<W>) -> Result<String, AllocError> {
    pooled.text()
}

// Whether a connection that waits since then may be used. It may not if the clock can't be read.
pub(crate) fn is_fresh<R: Clock>(rt: &R, since: &Instant) -> bool {
    match since.elapsed(rt) {
        Ok(waited) => waited.as_secs() < IDLE_SECONDS,
        Err(_) => false,
    }
}

// What can be read from a connection over which nothing was requested since the last answer.
#[derive(Clone, Copy, PartialEq, Eq)]
enum Idle {
    // Nothing yet.
    Quiet,
    // Bytes that nobody had requested.
    Unasked,
    // Its end, or a fault.
    Ended,
}

// Whether a connection is sure to have no bytes, no end and no fault to read. Nearly all have none, so it takes one call of the system.
fn is_still<S: AsRawFd>(stream: &S) -> bool {
    let fd = stream.as_raw_fd();
    let mut asked = [pollfd {
        fd,
        events: POLLIN,
        revents: 0,
    }];
    fd >= 0 && poll(&mut asked, 0) == 0
}

// Looks at a connection, and takes nothing from it.
fn look_at<S: OpenStream + AsRawFd>(stream: &S) -> Idle {
    if is_still(stream) {
        return Idle::Quiet;
    }
    if stream.set_nonblocking(true).is_err() {
        return Idle::Ended;
    }
    let mut room = [0u8; 1];
    let idle = match stream.peek(&mut room) {
        Ok(0) => Idle::Ended,
        Ok(_) => Idle::Unasked,
        Err(e) if e.kind() == ErrorKind::WouldBlock => Idle::Quiet,
        Err(_) => Idle::Ended,
    };
    match stream.set_nonblocking(false) {
        Ok(()) => idle,
        Err(_) => Idle::Ended,
    }
}
