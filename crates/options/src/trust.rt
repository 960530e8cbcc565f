//! Whom https is entrusted to: the way to a proxy has no TLS.
ghost use Rattle.std.specs.Prelude.{◌≡◌, ◌++◌, Ok, codes, map, option_map};
ghost use Rattle.std.specs.List.{list_all, list_any};
ghost use Rattle.address.specs.Address.{host_of};
ghost use Rattle.options.specs.Order.{AnswersOrder, guarded, has_https, is_https, is_loopback, is_numeric, is_trusted, ordered_by};

use crate::fault::LineFault;
use crate::order::Order;
use address::{Address, Scheme};
use requests::Proxy;

// Whether these are digits and dots.
fn is_numeric(text: &[u8]) -> bool
    ensures { result ≡ list_all is_numeric text.now }
{
    text.iter()
        .all(|byte| byte.is_ascii_digit() || *byte == b'.')
}

// Whether a host is this machine. One of digits and dots is an IPv4 address (URL Standard, section 3.5).
fn is_loopback(host: &str) -> bool
    ensures { result ≡ is_loopback host.now }
{
    let bytes = host.as_bytes();
    host == "localhost" || host == "[::1]" || (bytes.starts_with(b"127.") && is_numeric(bytes))
}

// Whether there is no proxy, or it is on this machine, or trusted.
fn is_trusted(trusts: bool, proxy: Option<&Proxy>) -> bool
    ensures { result ≡ is_trusted trusts (option_map (λ p. p.now) proxy.entry) }
{
    match proxy {
        Some(proxy) => trusts || is_loopback(proxy.origin().host()),
        None => true,
    }
}

fn is_https(address: &Address) -> bool
    ensures { result ≡ is_https address.now }
{
    match address.scheme() {
        Scheme::Http => false,
        Scheme::Https => true,
    }
}

// Whether one of these is https.
fn any_https(addresses: &[Address]) -> bool
    ensures { result ≡ list_any is_https addresses.now }
{
    addresses.iter().any(|address| is_https(address))
}

// Whether some start is https.
fn has_https(order: &Order) -> bool
    ensures { result ≡ has_https (ordered_by order.now) }
{
    is_https(&order.plan.start) || any_https(order.plan.others.as_slice())
}

/// The order, unless https would go to a proxy on another machine that isn't trusted.
pub(crate) fn guarded(order: Order) -> Result<Order, LineFault>
    ensures { AnswersOrder result (guarded (Ok (ordered_by order))) }
{
    if is_trusted(order.trusts_proxy, order.proxies.https()) || !has_https(&order) {
        return Ok(order);
    }
    drop(order);
    Err(LineFault::FarProxy)
}
