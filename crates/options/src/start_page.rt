//! The address of a START.
ghost use Rattle.std.specs.Prelude.{◌≡◌, ◌≢◌, ◌⊎◌, ℕ, List, true, false, Ok, Err, MatchResult};
ghost use Rattle.clap.specs.Words.{found_of, rows_of};
ghost use Rattle.address.specs.Address as address;
ghost use Rattle.address.specs.Address.{is_robots_file};
ghost use Rattle.address.specs.declared.fault.AddressFault.{AddressFault};
ghost use Rattle.address.specs.declared.fault.AddressFault.TheVariants as address_fault;
ghost use Rattle.options.specs.declared.fault.LineFault.TheVariants as fault;
ghost use Rattle.options.specs.Order.{start_of, read_start};
ghost use Rattle.options.specs.inner.Order.{StartsAt, FailsToStart, IsNoStart};
ghost use Rattle.options.specs.Start.{typed};

use crate::fault::LineFault;
use crate::given::given;
use crate::login::typed;
use crate::proxying::proxy_value;
use address::{Address, AddressFault};
use clap::ArgMatches;
use std::alloc::Global;

/// The start, which is an address and no robots file.
pub(crate) fn start(alloc: Global, matches: &ArgMatches) -> Result<Address, LineFault>
    ensures { MatchResult result
        (λ a. StartsAt (rows_of (found_of matches.now)) a × (is_robots_file a ≡ false))
        (λ f. FailsToStart (rows_of (found_of matches.now)) f ⊎ (f ≡ fault.Memory)) }
{
    page_of(read_start(alloc, matches))
}

#[tactic(auto, unfolding(crate::specs::Order::start_of))]
fn read_start(alloc: Global, matches: &ArgMatches) -> Result<Address, AddressFault>
    ensures { address.Gives result (start_of (rows_of (found_of matches.now))) }
{
    read_typed(
        alloc,
        proxy_value(matches, "https-proxy").is_some(),
        given(matches, "start").unwrap_or(""),
    )
}

/// A start as it is typed. Https is one if a proxy is given.
pub(crate) fn read_typed(alloc: Global, by_proxy: bool, text: &str) -> Result<Address, AddressFault>
    ensures { address.Gives result (read_start by_proxy (typed text.now)) }
{
    let Ok(text) = typed(alloc, text) else {
        return Err(AddressFault::Memory);
    };
    let start = read_by(alloc, by_proxy, text.as_str());
    drop(text);
    start
}

/// A start as it is typed, which is an address and no robots file. Https is one if a proxy is given.
pub(crate) fn read_page(alloc: Global, by_proxy: bool, text: &str) -> Result<Address, LineFault>
    ensures { MatchResult result
        (λ a. (read_start by_proxy (typed text.now) ≡ Ok a) × (is_robots_file a ≡ false))
        (λ f. IsNoStart (read_start by_proxy (typed text.now)) f ⊎ (f ≡ fault.Memory)) }
{
    page_of(read_typed(alloc, by_proxy, text))
}

// A start. Https is accepted if a proxy is given.
fn read_by(alloc: Global, by_proxy: bool, text: &str) -> Result<Address, AddressFault>
    ensures { address.Gives result (read_start by_proxy text.now) }
{
    if by_proxy {
        Address::read_either(alloc, text)
    } else {
        Address::read(alloc, text)
    }
}

// The address, unless it is a robots file or why there is none.
fn page_of(read: Result<Address, AddressFault>) -> Result<Address, LineFault>
    ensures { MatchResult result
        (λ a. (read ≡ Ok a) × (is_robots_file a ≡ false))
        (λ f. ((a : List ℕ) × (read ≡ Ok a) × (is_robots_file a ≡ true) × (f ≡ fault.StartIsRobots))
        ⊎ ((why : AddressFault) × (read ≡ Err why) × (why ≢ address_fault.Memory) × (f ≡ fault.Start why)) ⊎ (f ≡ fault.Memory)) }
{
    match read {
        Ok(start) => {
            if start.is_robots_file() {
                return Err(LineFault::StartIsRobots);
            }
            Ok(start)
        }
        Err(AddressFault::Memory) => Err(LineFault::Memory),
        Err(why) => Err(LineFault::Start(why)),
    }
}
