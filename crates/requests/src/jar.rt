//! Cookies of a file, and the time by which they are too old.
ghost use Rattle.std.specs.Prelude.{◌≡◌, IfOk, option_map};
ghost use Rattle.cookie_files.specs.Matches.{field_value};

use address::Address;
use cookie_files::Cookies;
use std::alloc::{AllocError, Global};
use std::marker::Model;
use std::sync::Arc;

/// The cookies of a file, which the workers of a run share, and when the run began.
#[derive(Drop)]
pub struct Jar {
    cookies: Arc<Cookies>,
    time: u64,
}

impl Model for Jar {
    ghost use Rattle.std.specs.Arc.{arc_value};
    ghost use Rattle.requests.specs.Requests.{Jar};

    ghost Value = { Jar };

    ghost view = { λ j. record { cookies = arc_value j.cookies; time = j.time } };
}

impl Jar {
    /// These cookies, so many seconds after 1970 began: one whose expiry is before isn't sent.
    pub fn new(alloc: Global, cookies: Cookies, time: u64) -> Result<Jar, AllocError>
        ensures { IfOk result (λ jar. jar ≡ record { cookies = cookies; time = time }) }
    {
        Ok(Jar {
            cookies: Arc::new(alloc, cookies)?,
            time,
        })
    }

    /// The same once more. Takes no memory; the error is that 2^63 copies are there.
    pub fn try_clone(&self) -> Result<Jar, AllocError>
        ensures { IfOk result (λ copy. copy ≡ self.now) }
    {
        Ok(Jar {
            cookies: Arc::try_clone(&self.cookies)?,
            time: self.time,
        })
    }

    /// What the field of a request for this address says, if it has cookies.
    pub(crate) fn value(&self, alloc: Global, at: &Address) -> Result<Option<Vec<u8>>, AllocError>
        ensures { IfOk result (λ value. option_map (λ text. text.items) value ≡ field_value at.now self.now.time self.now.cookies) }
    {
        self.cookies.value(alloc, at, self.time)
    }
}
