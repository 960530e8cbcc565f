//! The request for one address (RFC 9112, sections 3 and 9.6).
ghost use Rattle.std.specs.Prelude.{◌≡◌, ℕ, List, [], codes, ◌++◌, ◌+◌, ◌<◌, ◌≤◌, length, drop, IsTrue, IfOk, OnOk, OnErr};
ghost use Rattle.std.specs.Io.KnownBytes.{Appends, Keeps};
ghost use Rattle.address.specs.Address.{scheme_of};
ghost use Rattle.response_reader.specs.Request.{target_by, request_with, request_text, kept_request_text, SendsFront};
ghost use Rattle.response_reader.specs.inner.Request.{WritesGiveUp};
ghost use Rattle.response_reader.specs.Wire.{HasRisen, counted};
ghost use Rattle.response_reader.specs.inner.Wire.{tally, GoesOn};

use crate::wire::{Wire, WireFault};
use address::{Address, MAX_ADDRESS, MAX_HOST, Scheme};
use arrayvec::ArrayVec;
use streams::MAX_INTERRUPTED;
use thiserror::Error;

/// Most bytes of a field about the connection.
const MAX_CLOSING: usize = 32;

/// Most bytes of a request: those of any address, of its host and port, and room for the lines around them.
const MAX_REQUEST: usize = MAX_ADDRESS + MAX_HOST + 144;

/// Why a request wasn't written.
#[derive(Clone, Copy, Debug, PartialEq, Eq, Error)]
pub enum RequestFault {
    /// A write failed, or 1,000 were interrupted.
    #[error("a write failed, or 1,000 were interrupted")]
    Device,
}

/// Writes the request for an address: a GET of its path and query, of https of the whole address, with its host, and its port if that
/// isn't the scheme's. The text is put together on the stack and goes out in one write if that is taken whole, so that it isn't cut into
/// small packets. After a fault a front of it was written, and the wire isn't to be used again.
pub fn write_request<W: Wire>(wire: &mut W, address: &Address) -> Result<(), RequestFault>
    ensures written { OnOk result (Appends (W.outgoing wire.old) (W.outgoing wire.new) (request_text address.now)) }
    ensures part { OnErr result (SendsFront (W.outgoing wire.old) (W.outgoing wire.new) (request_text address.now)) }
    ensures device { OnErr result (HasRisen (W.failed wire.old) (W.failed wire.new)) }
    ensures interrupted { OnErr result (IsTrue (W.writes_never_fail wire.old) → W.failed wire.new ≡ counted (W.failed wire.old) MAX_INTERRUPTED) }
    ensures few { OnOk result (W.failed wire.new < W.failed wire.old + MAX_INTERRUPTED) }
    ensures lost { OnOk result (W.lost wire.new ≡ W.lost wire.old) }
    ensures read { Keeps (W.incoming wire.old) (W.incoming wire.new) }
    ensures steady { IsTrue (W.writes_never_fail wire.old) → IsTrue (W.writes_never_fail wire.new) }
    ensures reads { IsTrue (W.reads_never_fail wire.old) → IsTrue (W.reads_never_fail wire.new) }
    ensures quiet { IsTrue (W.never_errs wire.old) → IsTrue (W.never_errs wire.new) }
{
    write_with(wire, address, b"Connection: close\r\n")
}

/// Writes the request for an address over a connection that is to stay open after the response: the same text, except
/// that it doesn't request closing it (RFC 9112, section 9.3).
pub fn write_kept_request<W: Wire>(wire: &mut W, address: &Address) -> Result<(), RequestFault>
    ensures written { OnOk result (Appends (W.outgoing wire.old) (W.outgoing wire.new) (kept_request_text address.now)) }
    ensures part { OnErr result (SendsFront (W.outgoing wire.old) (W.outgoing wire.new) (kept_request_text address.now)) }
    ensures device { OnErr result (HasRisen (W.failed wire.old) (W.failed wire.new)) }
    ensures interrupted { OnErr result (IsTrue (W.writes_never_fail wire.old) → W.failed wire.new ≡ counted (W.failed wire.old) MAX_INTERRUPTED) }
    ensures few { OnOk result (W.failed wire.new < W.failed wire.old + MAX_INTERRUPTED) }
    ensures lost { OnOk result (W.lost wire.new ≡ W.lost wire.old) }
    ensures read { Keeps (W.incoming wire.old) (W.incoming wire.new) }
    ensures steady { IsTrue (W.writes_never_fail wire.old) → IsTrue (W.writes_never_fail wire.new) }
    ensures reads { IsTrue (W.reads_never_fail wire.old) → IsTrue (W.reads_never_fail wire.new) }
    ensures quiet { IsTrue (W.never_errs wire.old) → IsTrue (W.never_errs wire.new) }
{
    write_with(wire, address, b"")
}

/// Writes the request for an address with this field about the connection, or none.
fn write_with<W: Wire>(wire: &mut W, address: &Address, closing: &[u8]) -> Result<(), RequestFault>
    requires { length closing.now ≤ MAX_CLOSING }
    ensures written { OnOk result (Appends (W.outgoing wire.old) (W.outgoing wire.new) (request_with address.now closing.now)) }
    ensures part { OnErr result (SendsFront (W.outgoing wire.old) (W.outgoing wire.new) (request_with address.now closing.now)) }
    ensures device { OnErr result (HasRisen (W.failed wire.old) (W.failed wire.new)) }
    ensures interrupted { OnErr result (IsTrue (W.writes_never_fail wire.old) → W.failed wire.new ≡ counted (W.failed wire.old) MAX_INTERRUPTED) }
    ensures few { OnOk result (W.failed wire.new < W.failed wire.old + MAX_INTERRUPTED) }
    ensures lost { OnOk result (W.lost wire.new ≡ W.lost wire.old) }
    ensures read { Keeps (W.incoming wire.old) (W.incoming wire.new) }
    ensures steady { IsTrue (W.writes_never_fail wire.old) → IsTrue (W.writes_never_fail wire.new) }
    ensures reads { IsTrue (W.reads_never_fail wire.old) → IsTrue (W.reads_never_fail wire.new) }
    ensures quiet { IsTrue (W.never_errs wire.old) → IsTrue (W.never_errs wire.new) }
{
    let mut text = ArrayVec::new();
    put_request(&mut text, address, closing);
    write_all(wire, text.as_slice(), 0)?;
    Ok(())
}

/// The text of a request, in room for that of any address.
type RequestText = ArrayVec<u8, MAX_REQUEST>;

/// Adds bytes to a text that has room for them.
fn put(text: &mut RequestText, bytes: &[u8])
    requires { length text.old.items + length bytes.now ≤ MAX_REQUEST }
    ensures { text.new.items ≡ text.old.items ++ bytes.now }
{
    match text.try_extend_from_slice(bytes) {
        Ok(()) => {}
        Err(_) => unreachable!(),
    }
}

/// What is requested: of https the whole address, since it goes to a proxy (RFC 9112, section 3.2.2).
fn target(address: &Address) -> &str
    ensures { result.now ≡ target_by (scheme_of address.now) address.now }
{
    match address.scheme() {
        Scheme::Http => address.path_query(),
        Scheme::Https => address.as_str(),
    }
}

/// Puts the request for an address, with this field about the connection or none, into an empty text.
fn put_request(text: &mut RequestText, address: &Address, closing: &[u8])
    requires empty { text.old.items ≡ [] }
    requires short { length closing.now ≤ MAX_CLOSING }
    ensures { text.new.items ≡ request_with address.now closing.now }
{
    // Every address is short enough.
    let _address = address.as_str();
    put(text, b"GET ");
    put(text, target(address).as_bytes());
    put(text, b" HTTP/1.1\r\nHost: ");
    put(text, address.authority().as_bytes());
    put(
        text,
        b"\r\nUser-Agent: wgetr/1.0\r\nAccept: */*\r\nAccept-Encoding: identity\r\n",
    );
    put(text, closing);
    put(text, b"\r\n");
}

/// Writes all the bytes, given how many writes of the request were interrupted before, and says how many were after.
fn write_all<W: Wire>(wire: &mut W, bytes: &[u8], interrupted: u32) -> Result<u32, RequestFault>
    requires { interrupted < MAX_INTERRUPTED }
    ensures written { OnOk result (Appends (W.outgoing wire.old) (W.outgoing wire.new) bytes.now) }
    ensures part { OnErr result (SendsFront (W.outgoing wire.old) (W.outgoing wire.new) bytes.now) }
    ensures few { IfOk result (λ n. n < MAX_INTERRUPTED) }
    ensures counts { IfOk result (λ n. GoesOn
        (tally (W.failed wire.old) (W.writes_never_fail wire.old) (W.never_errs wire.old) (W.incoming wire.old) (W.lost wire.old) interrupted)
        (tally (W.failed wire.new) (W.writes_never_fail wire.new) (W.never_errs wire.new) (W.incoming wire.new) (W.lost wire.new) n)) }
    ensures reads { IsTrue (W.reads_never_fail wire.old) → IsTrue (W.reads_never_fail wire.new) }
    ensures gives_up { OnErr result ((after : ℕ) → WritesGiveUp
        (tally (W.failed wire.old) (W.writes_never_fail wire.old) (W.never_errs wire.old) (W.incoming wire.old) (W.lost wire.old) interrupted)
        (tally (W.failed wire.new) (W.writes_never_fail wire.new) (W.never_errs wire.new) (W.incoming wire.new) (W.lost wire.new) after)) }
{
    let mut rest = bytes;
    let mut count = interrupted;
    'writes: while !rest.is_empty() {
        match wire.write(rest) {
            Ok(taken) => rest = &rest[taken..],
            Err(WireFault::Failed) => return Err(RequestFault::Device),
            Err(WireFault::Interrupted) => {
                count += 1;
                if count == MAX_INTERRUPTED {
                    return Err(RequestFault::Device);
                }
            }
        }
    }
    Ok(count)
}
