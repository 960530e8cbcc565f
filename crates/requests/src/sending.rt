//! What a run sends, and which origins are those of its starts.
ghost use Rattle.std.specs.Prelude.{◌≡◌, IfOk, MatchOption, None, bytes_eq, option_map};
ghost use Rattle.cookie_files.specs.Matches.{some_value};
ghost use Rattle.std.specs.List.{list_any};
ghost use Rattle.requests.specs.Conditions.{condition_at};
ghost use Rattle.requests.specs.Requests.{IsOf, condition_for, cookies_for, cookies_in, has_login, is_home, login_at, login_for, login_here, or_login, proxy_at};

use crate::condition::Condition;
use crate::fields::Fields;
use crate::home::Home;
use crate::jar::Jar;
use crate::login::Login;
use crate::proxies::{Proxies, Proxy};
use address::Address;
use std::alloc::{AllocError, Global};
use std::marker::Model;

/// What is sent with each request of a run: its fields, of which the secret ones go to the origins of its starts alone, cookies of
/// a file, which go where that says, to a proxy its credentials, and a condition with the request for its page.
#[derive(Drop)]
pub struct Sending {
    fields: Fields,
    homes: Vec<Home>,
    // Whether a start has credentials. There may be 100,000 starts, and most lists have none.
    has_logins: bool,
    jar: Option<Jar>,
    proxies: Proxies,
    condition: Option<Condition>,
}

impl Model for Sending {
    ghost use Rattle.std.specs.Prelude.{◌≡◌};
    ghost use Rattle.std.specs.List.{list_any};
    ghost use Rattle.requests.specs.Requests.{Sending, has_login};

    ghost Value = { Sending };

    ghost view = { λ s. record { sent = s.fields; homes = s.homes.items; jar = s.jar; proxies = s.proxies; condition = s.condition } };

    ghost invariant = { λ s. s.has_logins ≡ list_any has_login s.homes.items };
}

// The credentials of a start, if the address is at its origin.
fn login_here<'a>(home: &'a Home, at: &Address) -> Option<&'a Login>
    ensures { option_map (λ l. l.now) result ≡ login_here home.entry.now at.now }
{
    if home.has(at) { home.login() } else { None }
}

// The credentials of the first start at the address's origin that has any.
fn login_at<'a>(homes: &'a [Home], at: &Address) -> Option<&'a Login>
    ensures { option_map (λ l. l.now) result ≡ login_at homes.entry.now at.now }
{
    let mut rest = homes;
    'homes: while let Some((first, later)) = rest.split_first() {
        let login = login_here(first, at);
        if login.is_some() {
            return login;
        }
        rest = later;
    }
    None
}

// Whether any of these starts has credentials.
fn has_logins(homes: &[Home]) -> bool
    ensures { result ≡ list_any has_login homes.now }
{
    homes.iter().any(|home| home.has_login())
}

// A condition, if it is of the page at this address.
fn condition_at<'a>(condition: &'a Option<Condition>, at: &Address) -> Option<&'a Condition>
    ensures value { option_map (λ c. c.now) result ≡ condition_at condition.entry.now at.now }
    ensures of { MatchOption result (Unit {0}) (λ c. IsOf at.now c.now) }
{
    match condition {
        Some(condition) if condition.is_of(at) => Some(condition),
        _ => None,
    }
}

impl Sending {
    /// These fields, by a run whose starts are at these origins, and which has these proxies. Takes no memory.
    pub fn new(fields: Fields, homes: Vec<Home>, proxies: Proxies) -> Sending
        ensures sent { result.sent ≡ fields }
        ensures homes { result.homes ≡ homes.items }
        ensures jar { result.jar ≡ None }
        ensures proxies { result.proxies ≡ proxies }
        ensures condition { result.condition ≡ None }
    {
        let has_logins = has_logins(homes.as_slice());
        Sending {
            fields,
            homes,
            has_logins,
            jar: None,
            proxies,
            condition: None,
        }
    }

    /// The same with these cookies, or without any.
    pub fn with_jar(self, jar: Option<Jar>) -> Sending
        ensures { result ≡ record self { jar = jar } }
    {
        let Sending {
            fields,
            homes,
            has_logins,
            jar: _jar,
            proxies,
            condition,
        } = self;
        Sending {
            fields,
            homes,
            has_logins,
            jar,
            proxies,
            condition,
        }
    }

    /// From here on the request for the page of this condition has it, and no other request has one.
    pub fn set_condition(&mut self, condition: Option<Condition>)
        ensures { self.new ≡ record self.old { condition = condition } }
    {
        self.condition = condition;
    }

    /// The fields.
    pub(crate) fn fields(&self) -> &Fields
        ensures { result.now ≡ self.now.sent }
    {
        &self.fields
    }

    /// The proxy that is asked for an address, if one is. Takes no memory.
    pub(crate) fn proxy_at(&self, at: &Address) -> Option<&Proxy>
        ensures { option_map (λ p. p.now) result ≡ proxy_at self.entry.now at.now }
    {
        self.proxies.proxy_for(at.scheme(), at.host())
    }

    /// Whether an address is at an origin of a start.
    pub(crate) fn is_home(&self, at: &Address) -> bool
        ensures { result ≡ is_home self.now.homes at.now }
    {
        self.homes.iter().any(|home| home.has(at))
    }

    // The credentials of the first start at the address's origin that has any.
    fn login_of_start(&self, at: &Address) -> Option<&Login>
        ensures { option_map (λ l. l.now) result ≡ login_at self.entry.now.homes at.now }
    {
        if self.has_logins {
            login_at(self.homes.as_slice(), at)
        } else {
            None
        }
    }

    // The credentials for an address at an origin of a start.
    fn login_at_home(&self, at: &Address) -> Option<&Login>
        ensures { option_map (λ l. l.now) result ≡ or_login (login_at self.entry.now.homes at.now) self.entry.now.sent.login }
    {
        match self.login_of_start(at) {
            Some(login) => Some(login),
            None => self.fields.login(),
        }
    }

    /// The credentials for an address, unless a line of a person's has others.
    pub(crate) fn login_for(&self, at: &Address) -> Option<&Login>
        ensures { option_map (λ l. l.now) result ≡ login_for self.entry.now at.now }
    {
        if self.fields.signs() {
            return None;
        }
        // Starts are gone through only if there is something to send.
        match self.login_at_home(at) {
            Some(login) => { if self.is_home(at) { Some(login) } else { None } }
            None => None,
        }
    }

    /// The condition of a request for an address, unless a line of a person's has another. Takes no memory.
    pub(crate) fn condition_for(&self, at: &Address) -> Option<&Condition>
        ensures value { option_map (λ c. c.now) result ≡ condition_for self.entry.now at.now }
        ensures of { MatchOption result (Unit {0}) (λ c. IsOf at.now c.now) }
    {
        if self.fields.has_condition() {
            return None;
        }
        condition_at(&self.condition, at)
    }

    /// What the `Cookie` field for an address says, unless a line of a person's has others. Takes memory only if there are any.
    pub(crate) fn cookie_for(
        &self,
        alloc: Global,
        at: &Address,
    ) -> Result<Option<Vec<u8>>, AllocError>
        ensures { IfOk result (λ value. option_map (λ text. text.items) value ≡ some_value (cookies_for self.now at.now)) }
    {
        match &self.jar {
            Some(jar) if !self.fields.has_cookie() => jar.value(alloc, at),
            _ => Ok(None),
        }
    }
}
