//! The limits of a response, of which RFC 9112 names none.
ghost use Rattle.std.specs.Prelude.{◌≡◌, ◌+◌, ◌≤◌};
ghost use Rattle.response_reader.specs.declared.limits.TheConstants.{MAX_HEADS};

/// Most fields of a head, and of trailers.
pub const MAX_FIELDS: usize = 100;

/// Most bytes of all heads of a response together, with the empty lines before each, and of its trailers.
pub const MAX_HEADS: usize = 65_536;

/// Most bytes of a chunk line with its CR LF.
pub const MAX_LINE: usize = 1024;

/// Most bytes of a body, unless other limits are said.
pub const MAX_BODY: usize = 16_777_216;

/// Most bytes of a response, unless other limits are said.
pub const MAX_RESPONSE: usize = 67_108_864;

/// The most bytes to which a body can be limited.
pub const LONGEST_BODY: u64 = 1_152_921_504_606_846_976;

/// How many bytes a body may have, and a response with its heads and with what is between its chunks. The longest heads fit
/// beside the longest body.
#[derive(Clone, Copy)]
pub struct Limits {
    pub(crate) body: usize,
    pub(crate) response: usize,
    ghost fits: { MAX_HEADS + body ≤ response },
}

impl Limits {
    ghost use Rattle.std.specs.Prelude.{◌≡◌};
    ghost use Rattle.response_reader.specs.Limits.{limited, limits_of, standard};

    /// The usual limits: 16,777,216 bytes, and 67,108,864.
    pub fn standard() -> Limits
        ensures { limited result ≡ standard }
    {
        Limits {
            body: MAX_BODY,
            response: MAX_RESPONSE,
        }
    }

    /// Limits by which a body has so many bytes at most. A response has four times as many, since short chunks have long lines, or as
    /// many as usual.
    pub fn of_body(most: u64) -> Limits
        ensures { limited result ≡ limits_of most }
    {
        let body = most.min(LONGEST_BODY) as usize;
        let response = (4 * body).max(MAX_RESPONSE);
        Limits { body, response }
    }
}
