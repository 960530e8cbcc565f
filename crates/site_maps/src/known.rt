//! The addresses that a map's lines have named.
use address::Address;
use indexmap::IndexMap;
use site_inputs::InputLineFault;
use std::alloc::Global;
use std::marker::Model;

/// The addresses that lines named so far, each by the text that names it. A text that comes again is not read again, and
/// shares its address: most lines of a map are links to pages that other lines name too.
#[derive(Drop)]
pub(crate) struct KnownAddresses<'a> {
    alloc: Global,
    by_text: IndexMap<&'a str, Address>,
}

impl<'a> Model for KnownAddresses<'a> {
    ghost use Rattle.site_maps.specs.inner.Known.{Known, AreRead};

    ghost Value = { Known };

    ghost view = { λ k. k.by_text.entries };

    ghost invariant = { λ k. AreRead k.by_text.entries };
}

impl<'a> KnownAddresses<'a> {
    ghost use Rattle.site_inputs.specs.Names.{Names};

    /// None yet. Takes no memory.
    pub(crate) fn new(alloc: Global) -> Self {
        KnownAddresses {
            alloc,
            by_text: IndexMap::new(alloc),
        }
    }

    /// The address that a text names. The error says that it is refused, or that memory ran out.
    pub(crate) fn read(&mut self, text: &'a str) -> Result<Address, InputLineFault>
        ensures { Names text.now result }
    {
        if let Some(known) = self.by_text.get(text) {
            return Ok(known.try_clone()?);
        }
        let address = Address::read(self.alloc, text)?;
        self.by_text.insert(text, address.try_clone()?)?;
        Ok(address)
    }
}
