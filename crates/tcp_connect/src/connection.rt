//! Connections that remember whether they failed, end when an answer takes too long, and are read no faster than a rate.
ghost use Rattle.std.specs.Prelude.{◌<◌, ◌≡◌};
ghost use Rattle.std.specs.Io.{ReadsAtMost};

use crate::flow::wait_flow;
use crate::hosts::Hosts;
use crate::kept::PlaceInUse;
use address::Origin;
use pacing::Manner;
use std::io;
use std::io::{Error, ErrorKind, Read, Write};
use std::marker::Model;
use std::net::{Net, OpenStream};
use std::sync::Wait;
use std::time::{Clock, Duration, Instant};

/// A connection of the system's to an origin, until when it may be read, whether a read or a write of it failed, and its place
/// among those that are kept, if it has one. Contracts see the origin that it was made for.
pub struct Connection<'a, R: Net + Wait + Clock> {
    rt: &'a R,
    hosts: &'a Hosts,
    stream: R::Stream,
    // When the answer has to have come, if there is a limit.
    until: Option<Instant>,
    // How long a read may wait, if there is a limit.
    read_limit: Option<Duration>,
    // How many bytes a second may be read by all workers, if there is a limit.
    rate: Option<u64>,
    failed: bool,
    of: Origin,
    place: Option<PlaceInUse<'a, R::Stream>>,
}

impl<'a, R: Net + Wait + Clock> Model for Connection<'a, R> {
    ghost use Rattle.address.specs.Address.{OriginText};

    ghost Value = { OriginText };

    ghost view = { λ c. c.of };
}

// By hand: a place can't be dropped.
impl<'a, R: Net + Wait + Clock> Drop for Connection<'a, R> {
    fn drop(self) {
        let Connection {
            rt,
            hosts: _hosts,
            stream: _stream,
            until: _until,
            read_limit: _read_limit,
            rate: _rate,
            failed: _failed,
            of: _of,
            place,
        } = self;
        match place {
            Some(place) => place.leave(rt),
            None => {}
        }
    }
}

// How long a read may wait at most: none if the limit is to be left as it is set, and a fault if no time is left.
fn read_time<R: Clock>(
    rt: &R,
    until: Option<Instant>,
    read_limit: Option<Duration>,
) -> io::Result<Option<Duration>> {
    let Some(until) = until else {
        return Ok(None);
    };
    let left = until.duration_since(Instant::now(rt)?);
    if left.is_zero() {
        return Err(Error::from(ErrorKind::TimedOut));
    }
    match read_limit {
        Some(limit) => Ok(Some(limit.min(left))),
        None => Ok(Some(left)),
    }
}

impl<'a, R: Net + Wait + Clock> Connection<'a, R> {
    // None of its calls has failed yet. If there is a limit for the whole answer it begins now; without a clock there is none.
    pub(crate) fn new(
        rt: &'a R,
        hosts: &'a Hosts,
        stream: R::Stream,
        of: Origin,
        place: Option<PlaceInUse<'a, R::Stream>>,
        manner: &Manner,
    ) -> Connection<'a, R>
        ensures { result ≡ of }
    {
        Connection {
            rt,
            hosts,
            stream,
            until: end_of(rt, manner.answer_limit),
            read_limit: manner.read_limit,
            rate: manner.rate,
            failed: false,
            of,
            place,
        }
    }

    // The origin that it was made for.
    pub(crate) fn of(&self) -> &Origin
        ensures { result.now ≡ self.now }
    {
        &self.of
    }

    // The origin that it was made for, the connection again, if none of its calls failed, and its place.
    pub(crate) fn into_parts(self) -> (Origin, Option<R::Stream>, Option<PlaceInUse<'a, R::Stream>>)
        ensures { result.0 ≡ self.entry }
    {
        let Connection {
            rt: _rt,
            hosts: _hosts,
            stream,
            until: _until,
            read_limit: _read_limit,
            rate: _rate,
            failed,
            of,
            place,
        } = self;
        let sound = if failed { None } else { Some(stream) };
        (of, sound, place)
    }

    // Reads, no longer than there is time for it.
    fn read_in_time(&mut self, buf: &mut [u8]) -> io::Result<usize>
        ensures { ReadsAtMost result buf.new }
    {
        let time = read_time(self.rt, self.until, self.read_limit)?;
        if time.is_some() {
            self.stream.set_read_timeout(time)?;
        }
        self.stream.read(buf)
    }

    // Reads what may be read in a second at most, and waits until the next read may begin. That doesn't count as time of the answer.
    fn read_paced(&mut self, rate: u64, buf: &mut [u8]) -> io::Result<usize>
        requires { 0 < rate }
        ensures { ReadsAtMost result buf.new }
    {
        let most = usize::try_from(rate).unwrap_or(usize::MAX).min(buf.len());
        let answer = self.read_in_time(&mut buf[..most]);
        if let Ok(read) = answer {
            let waited = wait_flow(self.rt, self.hosts, rate, read);
            self.until = later(self.until, waited);
        }
        answer
    }
}

// A time that is later by so much, if there is one.
fn later(until: Option<Instant>, waited: Duration) -> Option<Instant> {
    let until = until?;
    until.checked_add(waited).or(Some(until))
}

// When an answer has to have come that takes so long at most from now on.
fn end_of<R: Clock>(rt: &R, limit: Option<Duration>) -> Option<Instant> {
    Instant::now(rt).ok()?.checked_add(limit?)
}

// Whether a call failed. An interrupted one may be made again.
fn is_fault(answer: &io::Result<usize>) -> bool {
    match answer {
        Ok(_) => false,
        Err(e) => e.kind() != ErrorKind::Interrupted,
    }
}

impl<'a, R: Net + Wait + Clock> Read for Connection<'a, R> {
    fn read(&mut self, buf: &mut [u8]) -> io::Result<usize> {
        let answer = match self.rate {
            Some(rate) if 0 < rate => self.read_paced(rate, buf),
            _ => self.read_in_time(buf),
        };
        self.failed |= is_fault(&answer);
        answer
    }
}

impl<'a, R: Net + Wait + Clock> Write for Connection<'a, R> {
    fn write(&mut self, buf: &[u8]) -> io::Result<usize> {
        let answer = self.stream.write(buf);
        self.failed |= is_fault(&answer);
        answer
    }

    fn flush(&mut self) -> io::Result<()> {
        self.stream.flush()
    }
}
