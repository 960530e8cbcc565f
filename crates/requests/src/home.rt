//! The origin of a start.
ghost use Rattle.std.specs.Prelude.{◌≡◌, IfOk, bytes_eq, option_map};
ghost use Rattle.address.specs.Address.{origin_of};
ghost use Rattle.requests.specs.Requests.{has_login, home_of};

use crate::login::{Login, copy_of};
use address::{Address, Origin};
use std::alloc::AllocError;
use std::marker::Model;

/// The origin of a start, and the credentials that the start has.
#[derive(Drop)]
pub struct Home {
    origin: Origin,
    login: Option<Login>,
}

impl Model for Home {
    ghost use Rattle.requests.specs.Requests.{Home};

    ghost Value = { Home };

    ghost view = { λ h. record { origin = h.origin; login = h.login } };
}

impl Home {
    /// Of a start with these credentials.
    pub fn of(start: &Address, login: &Option<Login>) -> Result<Home, AllocError>
        ensures { IfOk result (λ home. home ≡ home_of start.now login.now) }
    {
        Ok(Home {
            origin: Origin::of(start)?,
            login: copy_of(login)?,
        })
    }

    /// Whether an address is at this origin.
    pub(crate) fn has(&self, at: &Address) -> bool
        ensures { result ≡ bytes_eq self.now.origin (origin_of at.now) }
    {
        self.origin.as_str() == at.origin()
    }

    /// Whether the start has credentials.
    pub(crate) fn has_login(&self) -> bool
        ensures { result ≡ has_login self.now }
    {
        self.login.is_some()
    }

    /// The credentials of the start, if it has any. Takes no memory.
    pub(crate) fn login(&self) -> Option<&Login>
        ensures { option_map (λ l. l.now) result ≡ self.now.login }
    {
        match &self.login {
            Some(login) => Some(login),
            None => None,
        }
    }
}
