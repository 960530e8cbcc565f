//! The origins of starts, with the credentials that the starts have.
ghost use Rattle.std.specs.Prelude.{◌≡◌, ◌∷◌, IfOk, drop};
ghost use Rattle.options.specs.Order.{first_login, homes_of};
ghost use Rattle.requests.specs.Requests.{home_of};

use address::Address;
use requests::{Home, Login};
use std::alloc::{AllocError, Global};

// The origin of a start, with the first of these credentials.
fn home_of(start: &Address, logins: &[Option<Login>]) -> Result<Home, AllocError>
    ensures { IfOk result (λ home. home ≡ home_of start.now (first_login logins.now)) }
{
    match logins {
        [login, ..] => Home::of(start, login),
        [] => Home::of(start, &None),
    }
}

// These credentials after the first.
fn later(logins: &[Option<Login>]) -> &[Option<Login>]
    ensures { result.now ≡ drop 1 logins.now }
{
    match logins {
        [_, later @ ..] => later,
        [] => logins,
    }
}

/// The origins of these starts, each with its credentials.
pub(crate) fn homes_of(
    alloc: Global,
    start: &Address,
    others: &[Address],
    logins: &[Option<Login>],
) -> Result<Vec<Home>, AllocError>
    ensures { IfOk result (λ homes. homes.items ≡ homes_of (start.now ∷ others.now) logins.now) }
{
    let mut homes = Vec::new(alloc);
    homes.push(home_of(start, logins)?)?;
    let mut left = others;
    let mut rest = later(logins);
    'starts: while let Some((first, more)) = left.split_first() {
        homes.push(home_of(first, rest)?)?;
        left = more;
        rest = later(rest);
    }
    Ok(homes)
}
