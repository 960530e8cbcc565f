//! Connections over TCP that report to an observer.
ghost use Rattle.std.specs.Prelude.{◌≡◌};
ghost use Rattle.response_reader.specs.Wire.{CountsFault, NotesLoss, counted};
ghost use Rattle.connect.specs.Connects.{CountsRefusal};

use address::Origin;
use connect::{Connect, ConnectFault};
use observer::Observer;
use progress::ProgressLine;
use response_reader::{TcpWire, Wire, WireFault};
use retries::CallingConnect;
use run_failures::LossKind;
use std::marker::Model;
use std::net::Net;
use std::sync::Wait;
use std::time::{Clock, Duration};
use tcp_connect::{Connection, TcpConnect};

/// Makes connections over TCP for one worker, and reports to an observer how each request over them ended.
#[derive(Drop)]
pub struct ObservedTcp<'a, R: Net + Wait + Clock + Eprint> {
    inner: TcpConnect<'a, R>,
    observer: &'a ProgressLine<'a, R>,
}

/// One of them, with what came over it for one request.
#[derive(Drop)]
pub struct ObservedWire<'a, R: Net + Wait + Clock> {
    wire: TcpWire<Connection<'a, R>>,
    bytes: u64,
    is_broken: bool,
    // Whether it was kept before.
    has_served: bool,
}

// Contracts see what is observed alone.
impl<'a, R: Net + Wait + Clock + Eprint> Model for ObservedTcp<'a, R> {
    ghost use Rattle.tcp_connect.specs.Connecting.{Connecting};

    ghost Value = { Connecting };

    ghost view = { λ c. c.inner };
}

// Contracts see how many calls returned an error, and whether one lost the connection.
impl<'a, R: Net + Wait + Clock> Model for ObservedWire<'a, R> {
    ghost use Rattle.std.specs.Prelude.{ℕ, Bool};

    ghost Value = { ℕ × Bool × Bool };

    ghost view = { λ w. w.wire };
}

impl<'a, R: Net + Wait + Clock + Eprint> ObservedTcp<'a, R> {
    /// Tells this observer of the connections that `inner` makes. Takes no memory.
    pub fn new(inner: TcpConnect<'a, R>, observer: &'a ProgressLine<'a, R>) -> ObservedTcp<'a, R>
        ensures { result ≡ inner.entry }
    {
        ObservedTcp { inner, observer }
    }

    // Has requests to an origin begin as far apart as this, whichever workers'.
    pub(crate) fn space_out(&self, of: &Origin, delay: Duration) {
        self.inner.space_out(of, delay);
    }
}

impl<'a, R: Net + Wait + Clock> ObservedWire<'a, R> {
    ghost use Rattle.std.specs.Prelude.{◌≡◌};

    // One over which nothing came for its request yet.
    fn new(wire: TcpWire<Connection<'a, R>>, has_served: bool) -> ObservedWire<'a, R>
        ensures { result ≡ wire.entry }
    {
        ObservedWire {
            wire,
            bytes: 0,
            is_broken: false,
            has_served,
        }
    }
}

impl<'a, R: Net + Wait + Clock + Eprint> Connect for ObservedTcp<'a, R> {
    ghost use Rattle.std.specs.Prelude.{⊤};

    type Wire = ObservedWire<'a, R>;

    ghost gives = { λ _ _ _. ⊤ };

    ghost stands = { λ _ _ _. ⊤ };

    ghost again = { λ _ _. ⊤ };

    ghost made = { λ c. c.made };

    ghost failed = { λ c. c.failed };

    ghost refused = { λ c. c.refused };

    ghost taken = { λ c. c.taken };

    fn connect(&mut self, of: &Origin) -> Result<ObservedWire<'a, R>, ConnectFault> {
        match self.inner.connect(of) {
            Ok(wire) => Ok(ObservedWire::new(wire, false)),
            Err(fault) => {
                self.observer.ended(true, 0);
                Err(fault)
            }
        }
    }

    // Each request that a kept connection serves is reported by itself.
    fn take(&mut self, of: &Origin) -> Option<ObservedWire<'a, R>> {
        match self.inner.take(of) {
            Some(wire) => Some(ObservedWire::new(wire, true)),
            None => None,
        }
    }

    fn give_back(&mut self, of: &Origin, wire: ObservedWire<'a, R>) {
        let ObservedWire {
            wire,
            bytes,
            is_broken,
            ..
        } = wire;
        self.inner.give_back(of, wire);
        self.observer.ended(is_broken, bytes);
    }

    // A connection that had died while it was kept is no answer: the request is made once more.
    fn close(&mut self, wire: ObservedWire<'a, R>) {
        let ObservedWire {
            wire,
            bytes,
            is_broken,
            has_served,
        } = wire;
        self.inner.close(wire);
        if !has_served || bytes > 0 {
            self.observer.ended(is_broken, bytes);
        }
    }

    fn failures(&self) -> u64 {
        self.inner.failures()
    }
}

impl<'a, R: Net + Wait + Clock + Eprint> CallingConnect for ObservedTcp<'a, R> {
    ghost lost = { λ c. c.lost };

    fn loss(&self) -> Option<LossKind> {
        self.inner.loss()
    }

    fn now(&self) -> Option<u64> {
        self.inner.now()
    }

    fn leave_alone(&self, of: &Origin, pause: Duration) {
        self.inner.leave_alone(of, pause);
    }
}

// How many bytes came with this answer.
fn bytes_of(answer: &Result<usize, WireFault>) -> u64 {
    match answer {
        Ok(n) => *n as u64,
        Err(_) => 0,
    }
}

// Whether the connection failed.
fn has_failed(answer: &Result<usize, WireFault>) -> bool {
    matches!(answer, Err(WireFault::Failed))
}

impl<'a, R: Net + Wait + Clock> Wire for ObservedWire<'a, R> {
    ghost use Rattle.std.specs.Prelude.{None, false};

    ghost incoming = { λ _. None };

    ghost outgoing = { λ _. None };

    ghost failed = { λ w. w.0 };

    ghost lost = { λ w. w.1 };

    ghost reads_never_fail = { λ _. false };

    ghost writes_never_fail = { λ _. false };

    ghost never_errs = { λ _. false };

    ghost timed_out = { λ w. w.2 };

    fn read(&mut self, room: &mut [u8]) -> Result<usize, WireFault> {
        let answer = self.wire.read(room);
        self.bytes = self.bytes.saturating_add(bytes_of(&answer));
        self.is_broken |= has_failed(&answer);
        answer
    }

    fn write(&mut self, bytes: &[u8]) -> Result<usize, WireFault> {
        let answer = self.wire.write(bytes);
        self.is_broken |= has_failed(&answer);
        answer
    }

    fn failures(&self) -> u64 {
        self.wire.failures()
    }

    fn has_timed_out(&self) -> bool {
        self.wire.has_timed_out()
    }

    fn note_unasked(&mut self) {
        self.wire.note_unasked();
    }
}
