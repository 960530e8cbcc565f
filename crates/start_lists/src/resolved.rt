//! What a text names: an absolute URL itself, and another the address that it gives below a base.
ghost use Rattle.std.specs.Prelude.{◌≡◌, IfOk, option_map};
ghost use Rattle.address.specs.Address.{Gives, join_address};
ghost use Rattle.options.specs.Order.{read_start};
ghost use Rattle.start_lists.specs.Lists.{address_or_none, resolved, unless_robots};

use address::{Address, AddressFault};
use std::alloc::{AllocError, Global};

// Reads an absolute URL. Https is an address if a proxy is given.
fn read_absolute(alloc: Global, by_proxy: bool, text: &str) -> Result<Address, AddressFault>
    ensures { Gives result (read_start by_proxy text.now) }
{
    if by_proxy {
        Address::read_either(alloc, text)
    } else {
        Address::read(alloc, text)
    }
}

// What an absolute URL names. Fails only if memory runs out.
fn absolute(alloc: Global, by_proxy: bool, text: &str) -> Result<Option<Address>, AllocError>
    ensures { IfOk result (λ found. found ≡ address_or_none (read_start by_proxy text.now)) }
{
    match read_absolute(alloc, by_proxy, text) {
        Ok(address) => Ok(Some(address)),
        Err(AddressFault::Memory) => Err(AllocError),
        Err(_) => Ok(None),
    }
}

// What a text names below a base. Fails only if memory runs out.
fn below(base: &Address, text: &str) -> Result<Option<Address>, AllocError>
    ensures { IfOk result (λ found. found ≡ address_or_none (join_address base.now text.now)) }
{
    match base.join(text) {
        Ok(address) => Ok(Some(address)),
        Err(AddressFault::Memory) => Err(AllocError),
        Err(_) => Ok(None),
    }
}

/// What a text names. Fails only if memory runs out.
#[tactic(auto, unfolding(crate::specs::Lists::resolved))]
pub(crate) fn resolved(
    alloc: Global,
    by_proxy: bool,
    base: Option<&Address>,
    text: &str,
) -> Result<Option<Address>, AllocError>
    ensures { IfOk result (λ found. found ≡ resolved by_proxy (option_map (λ b. b.now) base.entry) text.now) }
{
    let found = absolute(alloc, by_proxy, text)?;
    match base {
        Some(base) if found.is_none() => below(base, text),
        _ => Ok(found),
    }
}

/// The address, unless it is a robots file's.
pub(crate) fn unless_robots(found: Option<Address>) -> Option<Address>
    ensures { result ≡ unless_robots found }
{
    match found {
        Some(address) if !address.is_robots_file() => Some(address),
        _ => None,
    }
}
