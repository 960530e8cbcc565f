//! Addresses and origins that a line names (URL Standard, section 4.4; RFC 9309, section 2.3).
ghost use Rattle.site_inputs.specs.Names.{Names};
ghost use Rattle.site_inputs.specs.Names.{NamesOrigin};
ghost use Rattle.site_inputs.specs.Names.{Records, RecordsOrigin};
ghost use Rattle.site_inputs.specs.inner.Names.{IsRoot};

use crate::input_fault::InputLineFault;
use address::{Address, Origin};
use std::alloc::Global;

/// The address that a text names. The error says that it is refused, or that memory ran out.
pub fn read_address(alloc: Global, text: &str) -> Result<Address, InputLineFault>
    ensures { Names text.now result }
{
    Ok(Address::read(alloc, text)?)
}

/// The origin whose `/` a text names. The error says that the address is refused, that it is another
/// than its origin's `/`, or that memory ran out.
pub fn read_origin(alloc: Global, text: &str) -> Result<Origin, InputLineFault>
    ensures { NamesOrigin text.now result }
{
    let address = read_address(alloc, text)?;
    at_root(&address)?;
    Ok(Origin::of(&address)?)
}

/// The address that a text of a record names, http or https. The error says that it is refused, or that memory ran out.
pub fn read_recorded(alloc: Global, text: &str) -> Result<Address, InputLineFault>
    ensures { Records text.now result }
{
    Ok(Address::read_either(alloc, text)?)
}

/// The origin whose `/` a text of a record names. The error says that the address is refused, that it is another
/// than its origin's `/`, or that memory ran out.
pub fn read_recorded_origin(alloc: Global, text: &str) -> Result<Origin, InputLineFault>
    ensures { RecordsOrigin text.now result }
{
    let address = read_recorded(alloc, text)?;
    at_root(&address)?;
    Ok(Origin::of(&address)?)
}

// Refuses an address that isn't its origin's `/`. Takes no memory.
fn at_root(address: &Address) -> Result<(), InputLineFault>
    ensures { IsRoot address.now result }
{
    if address.path_query() != "/" {
        return Err(InputLineFault::Line);
    }
    Ok(())
}
