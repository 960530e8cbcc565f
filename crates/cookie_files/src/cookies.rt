//! The cookies of a file.
ghost use Rattle.std.specs.Prelude.{◌≡◌, ◌⊎◌, ◌<◌, ◌≤◌, ◌∷◌, [], Err, IfOk, IfSome, MatchOption, MatchResult, None, Ok, OnOk, filter, length, nat_lt, not, option_map, position};
ghost use Rattle.std.specs.List.{position_or_len, slice_split};
ghost use Rattle.cookie_files.specs.Lines.{cookie_of, fault_of};
ghost use Rattle.cookie_files.specs.Jars.{added, is_feed, placed, read_lines, replaces, said_by};
ghost use Rattle.cookie_files.specs.Matches.{IsClean, marked, sent, value_of, with_sent};
ghost use Rattle.cookie_files.specs.inner.AskedView.{asked_value};
ghost use Rattle.cookie_files.specs.inner.FieldsView.{fields_value};

use crate::cookie::Cookie;
use crate::fault::CookieFault;
use crate::fields::{CookieFields, cut};
use crate::line::read_line;
use crate::matching::{Asked, asked_of};
use address::Address;
use std::alloc::{AllocError, Global};
use std::marker::Model;

/// The most bytes of a cookie file.
pub const MAX_FILE: usize = 4_194_304;

/// The most lines of a cookie file.
pub const MAX_LINES: usize = 10_000;

/// The cookies of a file.
#[derive(Drop)]
pub struct Cookies {
    items: Vec<Cookie>,
}

// Contracts see them as a list, in the order in which a request holds them.
impl Model for Cookies {
    ghost use Rattle.std.specs.Prelude.{List};
    ghost use Rattle.cookie_files.specs.Lines.{Cookie};

    ghost Value = { List Cookie };

    ghost view = { λ c. c.items.items };
}

// Whether a cookie has a shorter path.
fn is_shorter(cookie: &Cookie, path_len: usize) -> bool
    ensures { result ≡ nat_lt (length cookie.now.path) path_len }
{
    cookie.path_len() < path_len
}

// Where the first is whose path is shorter.
fn first_shorter(cookies: &[Cookie], path_len: usize) -> Option<usize>
    ensures { result ≡ position (λ other. nat_lt (length other.path) path_len) cookies.now }
{
    cookies.iter().position(|other| is_shorter(other, path_len))
}

// How many are before the first whose path is shorter.
fn place_of(cookies: &[Cookie], path_len: usize) -> usize
    ensures within { result ≤ length cookies.now }
    ensures place { result ≡ position_or_len (λ other. nat_lt (length other.path) path_len) cookies.now }
{
    match first_shorter(cookies, path_len) {
        Some(at) => at,
        None => cookies.len(),
    }
}

// Leaves out the cookies whose place a later one takes.
fn leave_others(cookies: &mut Vec<Cookie>, later: &Cookie)
    ensures { cookies.new.items ≡ filter (λ other. not (replaces later.now other)) cookies.old.items }
{
    cookies.retain(|other| !later.replaces(other));
}

// Puts a cookie before the first whose path is shorter.
fn place(cookies: &mut Vec<Cookie>, cookie: Cookie) -> Result<(), AllocError>
    ensures { OnOk result (cookies.new.items ≡ placed cookie cookies.old.items) }
{
    let at = place_of(cookies.as_slice(), cookie.path_len());
    cookies.insert(at, cookie)?;
    Ok(())
}

// Adds a cookie, which takes the place of those that it replaces.
fn add(cookies: &mut Vec<Cookie>, cookie: Cookie) -> Result<(), AllocError>
    ensures { OnOk result (cookies.new.items ≡ added cookie cookies.old.items) }
{
    leave_others(cookies, &cookie);
    place(cookies, cookie)
}

// Adds the cookie that the fields say, if there are any.
fn add_said(
    alloc: Global,
    cookies: &mut Vec<Cookie>,
    said: Option<CookieFields<'_>>,
) -> Result<(), AllocError>
    requires { IfSome said (λ found. fault_of (fields_value found) ≡ None) }
    ensures { OnOk result (cookies.new.items ≡ said_by cookies.old.items (option_map fields_value said.entry)) }
{
    match said {
        Some(fields) => {
            let cookie = Cookie::of(alloc, &fields)?;
            add(cookies, cookie)
        }
        None => Ok(()),
    }
}

// The first line, and what is after it.
fn split_line(bytes: &[u8]) -> (&[u8], Option<&[u8]>)
    ensures { MatchOption result.1 (slice_split is_feed bytes.now ≡ result.0.now ∷ [])
        (λ rest. (slice_split is_feed bytes.now ≡ result.0.now ∷ slice_split is_feed rest.now) × (length rest.now < length bytes.now)) }
{
    match cut(b'\n', bytes) {
        Some((line, rest)) => (line, Some(rest)),
        None => (bytes, None),
    }
}

// The cookies of the lines.
fn read_lines(alloc: Global, bytes: &[u8]) -> Result<Vec<Cookie>, CookieFault>
    ensures { MatchResult result
        (λ cookies. read_lines 1 [] (slice_split is_feed bytes.now) ≡ Ok cookies.items)
        (λ why. (read_lines 1 [] (slice_split is_feed bytes.now) ≡ Err why) ⊎ (why ≡ CookieFault.Memory)) }
{
    let mut cookies = Vec::new(alloc);
    let mut rest = bytes;
    let mut number: usize = 1;
    loop {
        let (line, after) = split_line(rest);
        if number > MAX_LINES {
            return Err(CookieFault::TooManyLines);
        }
        match read_line(line) {
            Ok(said) => add_said(alloc, &mut cookies, said)?,
            Err(fault) => return Err(CookieFault::Line(number, fault)),
        }
        match after {
            Some(after) => rest = after,
            None => return Ok(cookies),
        }
        number += 1;
    }
}

// Adds a semicolon and a space, unless the text is empty.
fn push_mark(text: &mut Vec<u8>) -> Result<(), AllocError>
    ensures marked { OnOk result (text.new.items ≡ marked text.old.items) }
    ensures clean { IsClean text.old.items → OnOk result (IsClean text.new.items) }
{
    if text.is_empty() {
        return Ok(());
    }
    text.extend_from_slice(b"; ")
}

// Adds name and value of a cookie, if it goes there.
fn push_sent(
    text: &mut Vec<u8>,
    cookie: &Cookie,
    asked: &Asked<'_>,
    now: u64,
) -> Result<(), AllocError>
    ensures sent { OnOk result (text.new.items ≡ with_sent (asked_value asked.now) now text.old.items cookie.now) }
    ensures clean { IsClean text.old.items → OnOk result (IsClean text.new.items) }
{
    if cookie.goes(asked, now) {
        push_mark(text)?;
        cookie.push_pair(text)?;
    }
    Ok(())
}

// The pairs of those that go there.
fn pairs(
    alloc: Global,
    cookies: &[Cookie],
    asked: &Asked<'_>,
    now: u64,
) -> Result<Vec<u8>, AllocError>
    ensures value { IfOk result (λ text. text.items ≡ value_of (sent (asked_value asked.now) now cookies.now)) }
    ensures clean { IfOk result (λ text. IsClean text.items) }
{
    let mut text = Vec::new(alloc);
    for cookie in cookies {
        push_sent(&mut text, cookie, asked, now)?;
    }
    Ok(text)
}

impl Cookies {
    ghost use Rattle.std.specs.Prelude.{◌≡◌, ◌↔◌, IfOk, IfSome, IsTrue, option_map};
    ghost use Rattle.cookie_files.specs.Lines.{Cookie};
    ghost use Rattle.cookie_files.specs.Jars.{AreOf, Gives, cookies_in, read_file};
    ghost use Rattle.cookie_files.specs.Matches.{Goes, IsClean, asked_of, field_value, goes};

    /// Reads a cookie file: at most 4 MiB and 10,000 lines, empty lines and comments counted. A line is a cookie as browsers, curl and
    /// Wget write it: domain, `TRUE` if it is for subdomains too, path, `TRUE` if it is for https alone, expiry in seconds since 1970 or
    /// 0, name and value, with a TAB between two. `#HttpOnly_` may be in front. Of cookies of the same name, domain and path the last
    /// counts. The fault is the first line that says no cookie, that the file is too long, or that memory ran out.
    #[tactic(auto, unfolding(crate::specs::Jars::read_file))]
    pub fn read(alloc: Global, bytes: &[u8]) -> Result<Cookies, CookieFault>
        ensures reads { Gives result (read_file bytes.now) }
        // What is read are the cookies of the file that count, in the order in which a request holds them.
        ensures order { IfOk result (λ cookies. AreOf (cookies_in bytes.now) cookies) }
    {
        if bytes.len() > MAX_FILE {
            return Err(CookieFault::TooLong);
        }
        match read_lines(alloc, bytes) {
            Ok(items) => Ok(Cookies { items }),
            Err(fault) => Err(fault),
        }
    }

    /// The value of the `Cookie` field of a request for this address, so many seconds after 1970 began: name and value of each cookie
    /// that goes there, of longer paths first; none if none goes. The error is that memory ran out.
    pub fn value(
        &self,
        alloc: Global,
        at: &Address,
        now: u64,
    ) -> Result<Option<Vec<u8>>, AllocError>
        ensures value { IfOk result (λ value. option_map (λ text. text.items) value ≡ field_value at.now now self.now) }
        // A cookie is in it only if it may go there.
        ensures means { (cookie : Cookie) → IsTrue (goes (asked_of at.now) now cookie) ↔ Goes (asked_of at.now) now cookie }
        // No byte in it ends the field.
        ensures clean { IfOk result (λ value. IfSome value (λ text. IsClean text.items)) }
    {
        let text = pairs(alloc, self.items.as_slice(), &asked_of(at), now)?;
        if text.is_empty() {
            return Ok(None);
        }
        Ok(Some(text))
    }
}
