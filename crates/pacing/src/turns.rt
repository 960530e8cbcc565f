//! When the next request to an origin may begin.
ghost use Rattle.std.specs.Prelude.{◌≡◌, false, bytes_eq, [], IfOk, OnErr, OnOk};
ghost use Rattle.address.specs.Address.{OriginText};
ghost use Rattle.pacing.specs.Turns.{Books, Holds, Spaces, known_of};

use address::Origin;
use indexmap::IndexMap;
use std::alloc::{AllocError, Global};
use std::marker::Model;

// What is known of the requests to an origin: when the last one began, the time before which no further one may begin, and the least
// pause between the beginnings of two.
#[derive(Clone, Copy)]
struct OriginTurn {
    begun: u64,
    next: u64,
    least: u64,
}

// No request has begun, and one may.
const FIRST_TURN: OriginTurn = OriginTurn {
    begun: 0,
    next: 0,
    least: 0,
};

/// For each origin that was requested from, when the last request began, the time before which no further one may begin, and the least
/// pause between two. Times are nanoseconds since some beginning, which is the same for all.
#[derive(Drop)]
pub struct Turns {
    by_origin: IndexMap<Origin, OriginTurn>,
}

// Contracts see these times, by origin.
impl Model for Turns {
    ghost use Rattle.pacing.specs.Turns.{TurnsValue};

    ghost Value = { TurnsValue };

    ghost view = { λ t. t.by_origin.entries };
}

impl Turns {
    /// Nobody waits. Takes no memory.
    pub fn new(alloc: Global) -> Turns
        ensures { result ≡ [] }
    {
        Turns {
            by_origin: IndexMap::new(alloc),
        }
    }

    // What is known of the requests to an origin.
    fn turn_of(&self, of: &Origin) -> OriginTurn
        ensures { result ≡ known_of self.now of.now }
    {
        match self.by_origin.get(of) {
            Some(turn) => *turn,
            None => FIRST_TURN,
        }
    }

    // From now on this is known of the requests to an origin.
    fn set(&mut self, of: &Origin, turn: OriginTurn) -> Result<(), AllocError>
        ensures turn { OnOk result (known_of self.new of.now ≡ turn) }
        ensures others { (other : OriginText) → bytes_eq of.now other ≡ false → known_of self.new other ≡ known_of self.old other }
        ensures err { OnErr result (self.new ≡ self.old) }
    {
        let origin = of.try_clone()?;
        match self.by_origin.insert(origin, turn) {
            Ok(_) => Ok(()),
            Err(_) => Err(AllocError),
        }
    }

    /// When a request to an origin is to begin that could begin now: at once, or else as soon as it may. The next one may begin when
    /// this pause is over, and the least pause of the origin. The error is that memory ran out, and nothing is booked.
    pub fn book(&mut self, of: &Origin, now: u64, pause: u64) -> Result<u64, AllocError>
        ensures books { IfOk result (λ begins. Books of.now now pause begins self.old self.new) }
        ensures err { OnErr result (self.new ≡ self.old) }
    {
        let turn = self.turn_of(of);
        let begins = now.max(turn.next);
        self.set(
            of,
            OriginTurn {
                begun: begins,
                next: begins.saturating_add(pause.max(turn.least)),
                least: turn.least,
            },
        )?;
        Ok(begins)
    }

    /// No request to an origin may begin before this time, or later if it couldn't before. The error is that memory ran out.
    pub fn hold(&mut self, of: &Origin, until: u64) -> Result<(), AllocError>
        ensures holds { OnOk result (Holds of.now until self.old self.new) }
        ensures err { OnErr result (self.new ≡ self.old) }
    {
        let turn = self.turn_of(of);
        let next = until.max(turn.next);
        self.set(of, OriginTurn { next, ..turn })
    }

    /// From the last request to an origin on, this time at least passes between the beginnings of two requests to it. The error is that
    /// memory ran out.
    pub fn space(&mut self, of: &Origin, delay: u64) -> Result<(), AllocError>
        ensures spaces { OnOk result (Spaces of.now delay self.old self.new) }
        ensures err { OnErr result (self.new ≡ self.old) }
    {
        let turn = self.turn_of(of);
        let next = turn.begun.saturating_add(delay).max(turn.next);
        self.set(
            of,
            OriginTurn {
                begun: turn.begun,
                next,
                least: delay,
            },
        )
    }
}
