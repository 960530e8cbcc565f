//! The proxies of words and of the environment.
ghost use Rattle.std.specs.Prelude.{◌≡◌, ◌⊎◌, option_map, Ok, Err, IfErr, MatchResult};
ghost use Rattle.clap.specs.Words.{found_of, rows_of};
ghost use Rattle.address.specs.Address as address;
ghost use Rattle.address.specs.Address.{read_address};
ghost use Rattle.options.specs.declared.fault.LineFault.TheVariants as fault;
ghost use Rattle.options.specs.Order.{both_proxies, proxies_of, proxy_at, proxy_by, proxy_value, root_origin, unless_empty};
ghost use Rattle.options.specs.Asked.{without_kind};
ghost use Rattle.options.specs.Start.{typed};

use crate::fault::LineFault;
use crate::given::{given, is_set};
use crate::login::typed_login;
use crate::start_page::read_typed;
use address::{Address, AddressFault, Origin};
use clap::ArgMatches;
use requests::{Proxies, Proxy};
use std::alloc::Global;

// A value that isn't empty.
pub(crate) fn unless_empty(value: Option<&str>) -> Option<&str>
    ensures { option_map (λ s. s.now) result ≡ unless_empty (option_map (λ s. s.now) value.entry) }
{
    match value {
        Some(text) if !text.is_empty() => Some(text),
        _ => None,
    }
}

/// The value that names a proxy by this option, unless none is to be asked. An empty one names none.
pub(crate) fn proxy_value<'a>(matches: &ArgMatches<'a>, option: &str) -> Option<&'a str>
    ensures { option_map (λ s. s.now) result ≡ proxy_value option.now (rows_of (found_of matches.now)) }
{
    if is_set(matches, "no-proxy") {
        None
    } else {
        unless_empty(given(matches, option))
    }
}

// The origin of an address that is no more than that.
fn root_origin(address: &Address) -> Result<Origin, LineFault>
    ensures answers { MatchResult result
        (λ origin. root_origin (Ok address.now) ≡ Ok origin)
        (λ f. (root_origin (Ok address.now) ≡ Err f) ⊎ (f ≡ fault.Memory)) }
    ensures kept { IfErr result (λ f. without_kind f ≡ f) }
{
    if address.path_query() != "/" {
        return Err(LineFault::NoProxy);
    }
    match Origin::of(address) {
        Ok(origin) => Ok(origin),
        Err(_) => Err(LineFault::Memory),
    }
}

// The origin of a proxy as it is typed, without its user and password.
fn proxy_origin(alloc: Global, text: &str) -> Result<Origin, LineFault>
    ensures answers { MatchResult result
        (λ origin. root_origin (read_address (typed text.now)) ≡ Ok origin)
        (λ f. (root_origin (read_address (typed text.now)) ≡ Err f) ⊎ (f ≡ fault.Memory)) }
    ensures kept { IfErr result (λ f. without_kind f ≡ f) }
{
    match read_typed(alloc, false, text) {
        Ok(address) => root_origin(&address),
        Err(AddressFault::Memory) => Err(LineFault::Memory),
        Err(AddressFault::UserInfo) => Err(LineFault::ProxyUser),
        Err(AddressFault::TooLong | AddressFault::NotUrl | AddressFault::NotHttp) => {
            Err(LineFault::NoProxy)
        }
    }
}

// The proxy that is typed so, with its user and password, or why it is none.
fn proxy_at(alloc: Global, text: &str) -> Result<Proxy, LineFault>
    ensures answers { MatchResult result
        (λ proxy. proxy_at text.now ≡ Ok proxy)
        (λ f. (proxy_at text.now ≡ Err f) ⊎ (f ≡ fault.Memory)) }
    ensures kept { IfErr result (λ f. without_kind f ≡ f) }
{
    let Ok(login) = typed_login(alloc, text) else {
        return Err(LineFault::Memory);
    };
    match proxy_origin(alloc, text) {
        Ok(origin) => Ok(Proxy::new(origin, login)),
        Err(fault) => {
            drop(login);
            Err(fault)
        }
    }
}

// The proxy that a value names, or why it names none.
#[tactic(auto, unfolding(crate::specs::Order::proxy_by))]
fn proxy_by(alloc: Global, value: Option<&str>) -> Result<Option<Proxy>, LineFault>
    ensures answers { MatchResult result
        (λ proxy. proxy_by (option_map (λ s. s.now) value.entry) ≡ Ok proxy)
        (λ f. (proxy_by (option_map (λ s. s.now) value.entry) ≡ Err f) ⊎ (f ≡ fault.Memory)) }
    ensures kept { IfErr result (λ f. without_kind f ≡ f) }
{
    match value {
        Some(text) => match proxy_at(alloc, text) {
            Ok(proxy) => Ok(Some(proxy)),
            Err(fault) => Err(fault),
        },
        None => Ok(None),
    }
}

// The proxies that these values name, or why one names none, and the list of hosts that are requested without one.
fn both_proxies(
    alloc: Global,
    https: Option<&str>,
    http: Option<&str>,
    without: &str,
) -> Result<Proxies, LineFault>
    ensures answers { MatchResult result
        (λ proxies. both_proxies without.now (proxy_by (option_map (λ s. s.now) https.entry)) (proxy_by (option_map (λ s. s.now) http.entry)) ≡ Ok proxies)
        (λ f. (both_proxies without.now (proxy_by (option_map (λ s. s.now) https.entry)) (proxy_by (option_map (λ s. s.now) http.entry)) ≡ Err f) ⊎ (f ≡ fault.Memory)) }
    ensures kept { IfErr result (λ f. without_kind f ≡ f) }
{
    let https = match proxy_by(alloc, https) {
        Ok(https) => https,
        Err(fault) => return Err(fault),
    };
    let http = match proxy_by(alloc, http) {
        Ok(http) => http,
        Err(fault) => {
            drop(https);
            return Err(fault);
        }
    };
    match Proxies::new(alloc, https, http, without) {
        Ok(proxies) => Ok(proxies),
        Err(_) => Err(LineFault::Memory),
    }
}

/// The proxies, or why what is given for one is none.
pub(crate) fn proxies(alloc: Global, matches: &ArgMatches) -> Result<Proxies, LineFault>
    ensures answers { MatchResult result
        (λ proxies. proxies_of (rows_of (found_of matches.now)) ≡ Ok proxies)
        (λ f. (proxies_of (rows_of (found_of matches.now)) ≡ Err f) ⊎ (f ≡ fault.Memory)) }
    ensures kept { IfErr result (λ f. without_kind f ≡ f) }
{
    both_proxies(
        alloc,
        proxy_value(matches, "https-proxy"),
        proxy_value(matches, "http-proxy"),
        given(matches, "without-proxy").unwrap_or(""),
    )
}
