//! Why a text is no address.
use thiserror::Error;
use url::ParseError;

/// Why a text is no address. Of several faults the first that holds is named, in the order of the variants, except
/// that the result or its host is too long comes after `UserInfo`. If memory runs out, `Memory` may be in the place
/// of a fault that would be found later.
#[derive(Clone, Copy, Debug, PartialEq, Eq, Error)]
pub enum AddressFault {
    /// The text that was handed in, or the address that it gives, is longer than
    /// [`MAX_ADDRESS`](crate::MAX_ADDRESS) bytes, or the host is longer than
    /// [`MAX_HOST`](crate::MAX_HOST) bytes.
    #[error("the text, its address or its host is too long")]
    TooLong,
    /// The URL Standard's parser refuses the text (URL Standard, section 4.4).
    #[error("the text is no URL")]
    NotUrl,
    /// The scheme isn't the one that is read.
    #[error("the scheme isn't http")]
    NotHttp,
    /// The URL has a user name or a password that isn't empty.
    #[error("the URL has a user name or a password")]
    UserInfo,
    /// Memory ran out.
    #[error("out of memory")]
    Memory,
}

impl From<ParseError> for AddressFault {
    ghost use Rattle.std.specs.Prelude.{◌≡◌};
    ghost use Rattle.address.specs.Fault.{fault_of};

    ghost from_gives = { λ e fault. fault ≡ fault_of e };

    fn from(error: ParseError) -> AddressFault {
        match error {
            ParseError::OutOfMemory | ParseError::Overflow => AddressFault::Memory,
            _ => AddressFault::NotUrl,
        }
    }
}
