//! What a run kept.
ghost use Rattle.std.specs.Prelude.{◌≡◌, List, ℕ, Option, option_map};
ghost use Rattle.address.specs.Address.{AddressText};

use address::Address;

/// What a run kept of the addresses that it requested, and where it was redirected.
pub trait Mirror {
    // The local name of what was kept of an address.
    ghost name_of: { Self → AddressText → Option (List ℕ) };

    // The address to which the answer of another redirected.
    ghost target_of: { Self → AddressText → Option AddressText };

    /// The local name of what was kept of this address.
    fn name(&self, address: &Address) -> Option<&str>
        ensures { option_map (λ name. name.now) result ≡ name_of self.now address.now };

    /// The address to which the answer of this one redirected.
    fn target(&self, address: &Address) -> Option<&Address>
        ensures { option_map (λ target. target.now) result ≡ target_of self.now address.now };
}
