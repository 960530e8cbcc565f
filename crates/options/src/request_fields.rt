//! What requests say, by words: their fields, and a user name with its password.
ghost use Rattle.std.specs.Prelude.{◌≡◌, ◌⊎◌, option_map, Ok, Err, IfErr, MatchResult};
ghost use Rattle.clap.specs.Words.{found_of, rows_of};
ghost use Rattle.options.specs.declared.fault.LineFault.TheVariants as fault;
ghost use Rattle.options.specs.Order.{fields_fault, fields_of, fields_with, login_by, login_of, login_with, password_of, said_or, user_of};
ghost use Rattle.options.specs.Asked.{without_kind};
ghost use Rattle.options.specs.inner.Order.{unasked};

use crate::fault::LineFault;
use crate::given::{given, is_set};
use crate::login::has_colon;
use clap::ArgMatches;
use requests::{Fields, FieldsFault, Login};
use std::alloc::Global;

// Why requests can't say what they are to say.
fn fields_fault(why: FieldsFault) -> LineFault
    ensures value { result ≡ fields_fault why }
    ensures kept { without_kind result ≡ result }
{
    match why {
        FieldsFault::Agent => LineFault::Agent,
        FieldsFault::Referer => LineFault::Referer,
        FieldsFault::Line => LineFault::Header,
        FieldsFault::Size => LineFault::Fields,
        FieldsFault::Memory => LineFault::Memory,
    }
}

// What one option says, or else the other.
fn said_or<'a>(value: Option<&'a str>, other: Option<&'a str>) -> Option<&'a str>
    ensures { option_map (λ s. s.now) result ≡ said_or (option_map (λ s. s.now) value.entry) (option_map (λ s. s.now) other.entry) }
{
    match value {
        Some(text) => Some(text),
        None => other,
    }
}

// A user and a password that are sent unasked.
fn login_with(
    alloc: Global,
    unasked: bool,
    user: &str,
    password: &str,
) -> Result<Option<Login>, LineFault>
    ensures answers { MatchResult result
        (λ login. login_with unasked user.now password.now ≡ Ok login)
        (λ f. (login_with unasked user.now password.now ≡ Err f) ⊎ (f ≡ fault.Memory)) }
    ensures kept { IfErr result (λ f. without_kind f ≡ f) }
{
    if !unasked || has_colon(user.as_bytes()) {
        return Err(LineFault::Login);
    }
    match Login::of(alloc, user.as_bytes(), password.as_bytes()) {
        Ok(Some(login)) => Ok(Some(login)),
        Ok(None) => Err(LineFault::Fields),
        Err(_) => Err(LineFault::Memory),
    }
}

// What is sent of a user and a password, of which none or both are given.
fn login_by(
    alloc: Global,
    unasked: bool,
    user: Option<&str>,
    password: Option<&str>,
) -> Result<Option<Login>, LineFault>
    ensures answers { MatchResult result
        (λ login. login_by unasked (option_map (λ s. s.now) user.entry) (option_map (λ s. s.now) password.entry) ≡ Ok login)
        (λ f. (login_by unasked (option_map (λ s. s.now) user.entry) (option_map (λ s. s.now) password.entry) ≡ Err f) ⊎ (f ≡ fault.Memory)) }
    ensures kept { IfErr result (λ f. without_kind f ≡ f) }
{
    match (user, password) {
        (None, None) => Ok(None),
        (Some(user), Some(password)) => login_with(alloc, unasked, user, password),
        (None, Some(_)) | (Some(_), None) => Err(LineFault::Login),
    }
}

// The user: one for http counts before one for all protocols.
fn user<'a>(matches: &ArgMatches<'a>) -> Option<&'a str>
    ensures { option_map (λ s. s.now) result ≡ user_of (rows_of (found_of matches.now)) }
{
    said_or(given(matches, "http-user"), given(matches, "user"))
}

// The password, likewise.
fn password<'a>(matches: &ArgMatches<'a>) -> Option<&'a str>
    ensures { option_map (λ s. s.now) result ≡ password_of (rows_of (found_of matches.now)) }
{
    said_or(given(matches, "http-password"), given(matches, "password"))
}

// The user and the password that are sent, or why they aren't.
fn login(alloc: Global, matches: &ArgMatches) -> Result<Option<Login>, LineFault>
    ensures answers { MatchResult result
        (λ login. login_of (rows_of (found_of matches.now)) ≡ Ok login)
        (λ f. (login_of (rows_of (found_of matches.now)) ≡ Err f) ⊎ (f ≡ fault.Memory)) }
    ensures kept { IfErr result (λ f. without_kind f ≡ f) }
{
    login_by(
        alloc,
        is_set(matches, "auth-no-challenge"),
        user(matches),
        password(matches),
    )
}

// The fields that go with these credentials, or why they can't be sent.
fn fields_with(
    alloc: Global,
    matches: &ArgMatches,
    login: Option<Login>,
) -> Result<Fields, LineFault>
    ensures answers { MatchResult result
        (λ fields. fields_with (rows_of (found_of matches.now)) (Ok login) ≡ Ok fields)
        (λ f. (fields_with (rows_of (found_of matches.now)) (Ok login) ≡ Err f) ⊎ (f ≡ fault.Memory)) }
    ensures kept { IfErr result (λ f. without_kind f ≡ f) }
{
    let read = Fields::read(
        alloc,
        given(matches, "user-agent"),
        given(matches, "referer"),
        is_set(matches, "no-cache"),
        login,
        given(matches, "header").unwrap_or(""),
    );
    match read {
        Ok(fields) => Ok(fields),
        Err(why) => Err(fields_fault(why)),
    }
}

/// What requests say, or why they can't.
pub(crate) fn fields(alloc: Global, matches: &ArgMatches) -> Result<Fields, LineFault>
    ensures answers { MatchResult result
        (λ fields. fields_of (rows_of (found_of matches.now)) ≡ Ok fields)
        (λ f. (fields_of (rows_of (found_of matches.now)) ≡ Err f) ⊎ (f ≡ fault.Memory)) }
    ensures kept { IfErr result (λ f. without_kind f ≡ f) }
{
    match login(alloc, matches) {
        Ok(login) => fields_with(alloc, matches, login),
        Err(fault) => Err(fault),
    }
}
