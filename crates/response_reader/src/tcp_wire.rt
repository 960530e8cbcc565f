//! A wire over a stream of bytes, such as a TCP connection.
ghost use Rattle.std.specs.Prelude.{◌≡◌, false, None};
ghost use Rattle.std.specs.Io.{ReadsAtMost, WritesAtMost};
ghost use Rattle.std.specs.Io.KnownBytes.{ReadConsumes, WriteAppends};
ghost use Rattle.std.specs.Prelude.{ℕ, ◌<◌, IfOk, length};
ghost use Rattle.response_reader.specs.Wire.{CountsFault, NotesLoss};

use crate::wire::{Wire, WireFault};
use std::io::{ErrorKind, Read, Write};
use std::marker::Model;

/// A connection over a stream, such as a `TcpStream`. Of a stream of the system nothing is known, so contracts say
/// only how its failures are counted. A time limit of the stream's that runs out, on a read or a write, is a failure:
/// the connection is given up, and the wire reports that it timed out.
#[derive(Drop)]
pub struct TcpWire<S: Read + Write + Drop> {
    stream: S,
    failed: u64,
    lost: bool,
    timed_out: bool,
    unasked: bool,
}

// Contracts see how many calls answered an error, whether one lost the connection, and whether a time limit ran out.
impl<S: Read + Write + Drop> Model for TcpWire<S> {
    ghost use Rattle.std.specs.Prelude.{ℕ, Bool};

    ghost Value = { ℕ × Bool × Bool };

    ghost view = { λ w. (w.failed, w.lost, w.timed_out) };
}

// What a fault of a stream is to a wire. An interrupted call may be made again; every other fault,
// a time limit too (`WouldBlock` or `TimedOut`), ends the connection.
fn wire_fault(kind: ErrorKind) -> WireFault {
    match kind {
        ErrorKind::Interrupted => WireFault::Interrupted,
        _ => WireFault::Failed,
    }
}

// Whether a time limit of the stream's ran out.
fn is_late(kind: ErrorKind) -> bool {
    matches!(kind, ErrorKind::WouldBlock | ErrorKind::TimedOut)
}

// What a stream gives to a read: its next bytes, if they are known.
fn read_from<S: Read>(
    stream: &mut S,
    room: &mut [u8],
    timed_out: &mut bool,
) -> Result<usize, WireFault>
    ensures bound { ReadsAtMost result room.new }
    ensures bytes { ReadConsumes (S.remaining stream.old) (S.remaining stream.new) result room.new }
{
    match stream.read(room) {
        Ok(n) => Ok(n),
        Err(e) => {
            *timed_out |= is_late(e.kind());
            Err(wire_fault(e.kind()))
        }
    }
}

// What a stream takes of a write: a front of the bytes, and at least one of some.
fn write_to<S: Write>(
    stream: &mut S,
    bytes: &[u8],
    timed_out: &mut bool,
) -> Result<usize, WireFault>
    ensures bound { WritesAtMost result bytes.now }
    ensures some { IfOk result (λ n. 0 < length bytes.now → 0 < n) }
    ensures bytes { WriteAppends (S.contents stream.old) (S.contents stream.new) result bytes.now }
{
    match stream.write(bytes) {
        Ok(0) if !bytes.is_empty() => Err(WireFault::Failed),
        Ok(n) => Ok(n),
        Err(e) => {
            *timed_out |= is_late(e.kind());
            Err(wire_fault(e.kind()))
        }
    }
}

impl<S: Read + Write + Drop> TcpWire<S> {
    /// A wire over a stream that is connected. Takes no memory.
    pub fn new(stream: S) -> TcpWire<S>
        ensures { result ≡ (0, false, false) }
    {
        TcpWire {
            stream,
            failed: 0,
            lost: false,
            timed_out: false,
            unasked: false,
        }
    }

    /// Whether bytes that nobody had requested came with a response after which the connection would have served again.
    pub fn has_unasked(&self) -> bool {
        self.unasked
    }

    /// The stream again, as for its own calls at the end.
    pub fn into_stream(self) -> S {
        let TcpWire {
            stream,
            failed: _,
            lost: _,
            timed_out: _,
            unasked: _,
        } = self;
        stream
    }

    // Counts a fault, and keeps whether one lost the connection.
    fn note<T>(&mut self, answer: Result<T, WireFault>) -> Result<T, WireFault>
        ensures same { result ≡ answer }
        ensures counted { CountsFault self.old.0 self.new.0 answer }
        ensures lost { NotesLoss self.old.1 self.new.1 answer }
        ensures late { self.new.2 ≡ self.old.2 }
    {
        if let Err(fault) = &answer {
            self.failed = self.failed.saturating_add(1);
            match fault {
                WireFault::Interrupted => {}
                WireFault::Failed => self.lost = true,
            }
        }
        answer
    }
}

impl<S: Read + Write + Drop> Wire for TcpWire<S> {
    ghost incoming = { λ _. None };

    ghost outgoing = { λ _. None };

    ghost failed = { λ w. w.0 };

    ghost lost = { λ w. w.1 };

    ghost reads_never_fail = { λ _. false };

    ghost writes_never_fail = { λ _. false };

    ghost never_errs = { λ _. false };

    ghost timed_out = { λ w. w.2 };

    fn read(&mut self, room: &mut [u8]) -> Result<usize, WireFault> {
        let answer = read_from(&mut self.stream, room, &mut self.timed_out);
        self.note(answer)
    }

    fn write(&mut self, bytes: &[u8]) -> Result<usize, WireFault> {
        let answer = write_to(&mut self.stream, bytes, &mut self.timed_out);
        self.note(answer)
    }

    fn failures(&self) -> u64 {
        self.failed
    }

    fn has_timed_out(&self) -> bool {
        self.timed_out
    }

    fn note_unasked(&mut self) {
        self.unasked = true;
    }
}
