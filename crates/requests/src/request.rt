//! The request for one address, with what a run says besides (RFC 9112, sections 3 and 9.6).
ghost use Rattle.std.specs.Prelude.{◌≡◌, ◌<◌, ◌++◌, ℕ, [], Err, IfErr, IfOk, OnErr, OnOk, Some, codes, option_map};
ghost use Rattle.std.specs.Io.KnownBytes.{Appends, Keeps};
ghost use Rattle.cookie_files.specs.Matches.{some_value};
ghost use Rattle.response_reader.specs.Request.{SendsFront};
ghost use Rattle.response_reader.specs.Wire.{HasRisen};
ghost use Rattle.response_reader.specs.inner.Request.{WritesGiveUp};
ghost use Rattle.response_reader.specs.inner.Wire.{GoesOn, tally};
ghost use Rattle.requests.specs.Conditions.{condition_lines, since_line, tag_line};
ghost use Rattle.requests.specs.Requests.{GoWhereNamed, HasNoOther, closing, cookie_line, cookies_for, front_of, host_by, login_line, proxy_at, proxy_line, proxy_login_line, request_of, secret_for, target_at};

use crate::condition::Condition;
use crate::login::Login;
use crate::proxies::Proxy;
use crate::sending::Sending;
use address::{Address, Scheme};
use response_reader::{MAX_INTERRUPTED, RequestFault, Wire, WireFault};
use std::alloc::{AllocError, Global};

/// The bytes that most requests have at the most, so that their text grows once. A longer one grows as it needs.
const COMMON_REQUEST: usize = 1_024;

/// Why a request wasn't written.
#[derive(Clone, Copy, Debug, PartialEq, Eq)]
pub enum SendFault {
    /// A write failed, or 1,000 were interrupted.
    Device,
    /// Memory ran out for the text. Nothing was written.
    Memory,
}

/// Writes the request for an address: a GET of its path and query, or to a proxy of the whole address, with what the run says. Its
/// secret lines are there if the address is at an origin of a start, cookies of a file if they go there, a condition if it is of
/// this address, and a proxy's credentials if that is asked. It asks to close the connection unless that is kept. The text is put together in memory, and goes out in one write if that is taken whole. After a fault a front of
/// it was written, and the wire isn't to be used again.
pub fn write_request<W: Wire>(
    wire: &mut W,
    alloc: Global,
    sending: &Sending,
    keeps: bool,
    at: &Address,
) -> Result<(), SendFault>
    ensures written { OnOk result (Appends (W.outgoing wire.old) (W.outgoing wire.new) (request_of sending.now keeps at.now)) }
    ensures part { OnErr result (SendsFront (W.outgoing wire.old) (W.outgoing wire.new) (request_of sending.now keeps at.now)) }
    ensures device { result ≡ Err SendFault.Device → HasRisen (W.failed wire.old) (W.failed wire.new) }
    ensures memory { result ≡ Err SendFault.Memory → Keeps (W.outgoing wire.old) (W.outgoing wire.new) }
    ensures read { Keeps (W.incoming wire.old) (W.incoming wire.new) }
    ensures cookies { GoWhereNamed sending.now at.now }
    ensures condition { HasNoOther sending.now at.now }
{
    let condition = sending.condition_for(at);
    match request_text(alloc, sending, keeps, at, condition) {
        Ok(text) => write_text(wire, text.as_slice()),
        Err(_) => Err(SendFault::Memory),
    }
}

// The whole text of a request with this condition, if there is one.
fn request_text(
    alloc: Global,
    sending: &Sending,
    keeps: bool,
    at: &Address,
    condition: Option<&Condition>,
) -> Result<Vec<u8>, AllocError>
    ensures { IfOk result (λ text. text.items ≡ front_of sending.now keeps at.now ++ (cookie_line (some_value (cookies_for sending.now at.now)) ++ (condition_lines (option_map (λ c. c.now) condition.entry) ++ codes "\r\n"))) }
{
    match sending.cookie_for(alloc, at)? {
        Some(value) => text_with(alloc, sending, keeps, at, Some(value.as_slice()), condition),
        None => text_with(alloc, sending, keeps, at, None, condition),
    }
}

// The text of a request with these cookies and this condition, if there are any.
fn text_with(
    alloc: Global,
    sending: &Sending,
    keeps: bool,
    at: &Address,
    cookie: Option<&[u8]>,
    condition: Option<&Condition>,
) -> Result<Vec<u8>, AllocError>
    ensures { IfOk result (λ text. text.items ≡ front_of sending.now keeps at.now ++ (cookie_line (option_map (λ c. c.now) cookie.entry) ++ (condition_lines (option_map (λ c. c.now) condition.entry) ++ codes "\r\n"))) }
{
    let mut text = Vec::with_capacity(alloc, COMMON_REQUEST)?;
    put_request(&mut text, sending, keeps, at)?;
    put_cookie(&mut text, cookie)?;
    put_condition(&mut text, condition)?;
    put(&mut text, b"\r\n")?;
    Ok(text)
}

// Adds the line of these cookies, if there are any.
fn put_cookie(text: &mut Vec<u8>, cookie: Option<&[u8]>) -> Result<(), AllocError>
    ensures { OnOk result (text.new.items ≡ text.old.items ++ cookie_line (option_map (λ c. c.now) cookie.entry)) }
{
    if let Some(value) = cookie {
        put(text, b"Cookie: ")?;
        put(text, value)?;
        put(text, b"\r\n")?;
    }
    Ok(())
}

// Adds the line of a field that begins so and has this value.
fn put_line(text: &mut Vec<u8>, front: &[u8], value: &[u8]) -> Result<(), AllocError>
    ensures { OnOk result (text.new.items ≡ text.old.items ++ (front.now ++ (value.now ++ codes "\r\n"))) }
{
    put(text, front)?;
    put(text, value)?;
    put(text, b"\r\n")
}

// Adds the line of this tag, if there is one.
fn put_tag(text: &mut Vec<u8>, tag: Option<&[u8]>) -> Result<(), AllocError>
    ensures { OnOk result (text.new.items ≡ text.old.items ++ tag_line (option_map (λ t. t.now) tag.entry)) }
{
    match tag {
        Some(value) => put_line(text, b"If-None-Match: ", value),
        None => Ok(()),
    }
}

// Adds the line of this date, if there is one.
fn put_since(text: &mut Vec<u8>, date: Option<&[u8]>) -> Result<(), AllocError>
    ensures { OnOk result (text.new.items ≡ text.old.items ++ since_line (option_map (λ d. d.now) date.entry)) }
{
    match date {
        Some(value) => put_line(text, b"If-Modified-Since: ", value),
        None => Ok(()),
    }
}

// Adds the lines of this condition, if there is one.
fn put_condition(text: &mut Vec<u8>, condition: Option<&Condition>) -> Result<(), AllocError>
    ensures { OnOk result (text.new.items ≡ text.old.items ++ condition_lines (option_map (λ c. c.now) condition.entry)) }
{
    if let Some(condition) = condition {
        put_tag(text, condition.tag())?;
        put_since(text, condition.since())?;
    }
    Ok(())
}

// Writes a text.
fn write_text<W: Wire>(wire: &mut W, text: &[u8]) -> Result<(), SendFault>
    ensures written { OnOk result (Appends (W.outgoing wire.old) (W.outgoing wire.new) text.now) }
    ensures part { OnErr result (SendsFront (W.outgoing wire.old) (W.outgoing wire.new) text.now) }
    ensures device { IfErr result (λ fault. (fault ≡ SendFault.Device) × HasRisen (W.failed wire.old) (W.failed wire.new)) }
    ensures read { Keeps (W.incoming wire.old) (W.incoming wire.new) }
{
    match write_all(wire, text, 0) {
        Ok(_) => Ok(()),
        Err(_) => Err(SendFault::Device),
    }
}

// Adds bytes.
fn put(text: &mut Vec<u8>, bytes: &[u8]) -> Result<(), AllocError>
    ensures { OnOk result (text.new.items ≡ text.old.items ++ bytes.now) }
{
    text.extend_from_slice(bytes)
}

/// The target: of a proxy the whole address (RFC 9112, section 3.2.2). Nothing is requested of a server of https.
fn target<'a>(proxy: Option<&Proxy>, at: &'a Address) -> &'a str
    ensures { result.now ≡ target_at (option_map (λ p. p.now) proxy.entry) at.entry.now }
{
    match (proxy, at.scheme()) {
        (None, Scheme::Http) => at.path_query(),
        (Some(_), _) | (None, Scheme::Https) => at.as_str(),
    }
}

// The host and port of the address, or what is sent in their place.
fn host<'a>(sending: &'a Sending, at: &'a Address) -> &'a str
    ensures { result.now ≡ host_by sending.entry.now.sent.host at.entry.now }
{
    match sending.fields().host() {
        Some(host) => host,
        None => at.authority(),
    }
}

// The secret lines, if the address is at an origin of a start.
fn secret<'a>(sending: &'a Sending, at: &Address) -> &'a str
    ensures { result.now ≡ secret_for sending.entry.now at.now }
{
    let secret = sending.fields().secret();
    // Starts are gone through only if there is something to send.
    if secret.is_empty() || sending.is_home(at) {
        secret
    } else {
        ""
    }
}

// The field about the connection, if any.
fn closing(keeps: bool) -> &'static str
    ensures { result.now ≡ closing keeps }
{
    if keeps { "" } else { "Connection: close\r\n" }
}

// Adds a text.
fn put_text(text: &mut Vec<u8>, more: &str) -> Result<(), AllocError>
    ensures { OnOk result (text.new.items ≡ text.old.items ++ more.now) }
{
    put(text, more.as_bytes())
}

// Puts method and target into an empty text.
fn put_front(text: &mut Vec<u8>, proxy: Option<&Proxy>, at: &Address) -> Result<(), AllocError>
    requires { text.old.items ≡ [] }
    ensures { OnOk result (text.new.items ≡ codes "GET " ++ (target_at (option_map (λ p. p.now) proxy.entry) at.now ++ codes " HTTP/1.1\r\nHost: ")) }
{
    put(text, b"GET ")?;
    put(text, target(proxy, at).as_bytes())?;
    put(text, b" HTTP/1.1\r\nHost: ")
}

// Adds the line of these credentials, if there are any.
fn put_login(text: &mut Vec<u8>, login: Option<&Login>) -> Result<(), AllocError>
    ensures { OnOk result (text.new.items ≡ text.old.items ++ login_line (option_map (λ l. l.now) login.entry)) }
{
    if let Some(login) = login {
        put_text(text, "Authorization: ")?;
        put_text(text, login.value())?;
        put_text(text, "\r\n")?;
    }
    Ok(())
}

// Adds the line of these credentials for a proxy, if there are any.
fn put_proxy_login(text: &mut Vec<u8>, login: Option<&Login>) -> Result<(), AllocError>
    ensures { OnOk result (text.new.items ≡ text.old.items ++ proxy_login_line (option_map (λ l. l.now) login.entry)) }
{
    if let Some(login) = login {
        put_text(text, "Proxy-Authorization: ")?;
        put_text(text, login.value())?;
        put_text(text, "\r\n")?;
    }
    Ok(())
}

// Adds the line of a proxy's credentials, if one is asked and has some.
fn put_proxy(text: &mut Vec<u8>, proxy: Option<&Proxy>) -> Result<(), AllocError>
    ensures { OnOk result (text.new.items ≡ text.old.items ++ proxy_line (option_map (λ p. p.now) proxy.entry)) }
{
    match proxy {
        Some(proxy) => put_proxy_login(text, proxy.login()),
        None => Ok(()),
    }
}

// Adds these pieces, and the end of the host's line.
fn put_pieces(
    text: &mut Vec<u8>,
    host: &str,
    common: &str,
    login: Option<&Login>,
    secret: &str,
    proxy: Option<&Proxy>,
    closing: &str,
) -> Result<(), AllocError>
    ensures { OnOk result (text.new.items ≡ text.old.items ++ (host.now ++ (codes "\r\n" ++ (common.now ++ (login_line (option_map (λ l. l.now) login.entry) ++ (secret.now ++ (proxy_line (option_map (λ p. p.now) proxy.entry) ++ closing.now))))))) }
{
    put_text(text, host)?;
    put_text(text, "\r\n")?;
    put_text(text, common)?;
    put_login(text, login)?;
    put_text(text, secret)?;
    put_proxy(text, proxy)?;
    put_text(text, closing)
}

// Puts the front of the request for an address into an empty text.
fn put_request(
    text: &mut Vec<u8>,
    sending: &Sending,
    keeps: bool,
    at: &Address,
) -> Result<(), AllocError>
    requires { text.old.items ≡ [] }
    ensures { OnOk result (text.new.items ≡ front_of sending.now keeps at.now) }
{
    let proxy = sending.proxy_at(at);
    put_front(text, proxy, at)?;
    let fields = sending.fields();
    put_pieces(
        text,
        host(sending, at),
        fields.common(),
        sending.login_for(at),
        secret(sending, at),
        proxy,
        closing(keeps),
    )
}

/// Writes all the bytes, after so many writes of the request were interrupted, and says how many were then.
fn write_all<W: Wire>(wire: &mut W, bytes: &[u8], interrupted: u32) -> Result<u32, RequestFault>
    requires { interrupted < MAX_INTERRUPTED }
    ensures written { OnOk result (Appends (W.outgoing wire.old) (W.outgoing wire.new) bytes.now) }
    ensures part { OnErr result (SendsFront (W.outgoing wire.old) (W.outgoing wire.new) bytes.now) }
    ensures few { IfOk result (λ n. n < MAX_INTERRUPTED) }
    ensures counts { IfOk result (λ n. GoesOn
        (tally (W.failed wire.old) (W.writes_never_fail wire.old) (W.never_errs wire.old) (W.incoming wire.old) (W.lost wire.old) interrupted)
        (tally (W.failed wire.new) (W.writes_never_fail wire.new) (W.never_errs wire.new) (W.incoming wire.new) (W.lost wire.new) n)) }
    ensures gives_up { OnErr result ((after : ℕ) → WritesGiveUp
        (tally (W.failed wire.old) (W.writes_never_fail wire.old) (W.never_errs wire.old) (W.incoming wire.old) (W.lost wire.old) interrupted)
        (tally (W.failed wire.new) (W.writes_never_fail wire.new) (W.never_errs wire.new) (W.incoming wire.new) (W.lost wire.new) after)) }
{
    let mut rest = bytes;
    let mut count = interrupted;
    'writes: while !rest.is_empty() {
        match wire.write(rest) {
            Ok(taken) => rest = &rest[taken..],
            Err(WireFault::Failed) => return Err(RequestFault::Device),
            Err(WireFault::Interrupted) => {
                count += 1;
                if count == MAX_INTERRUPTED {
                    return Err(RequestFault::Device);
                }
            }
        }
    }
    Ok(count)
}
