//! Responses that some bytes give.
ghost use Rattle.std.specs.Prelude.{◌≡◌};
ghost use Rattle.response_reader.specs.Response.{CanBeGiven};
ghost use Rattle.response_reader.specs.Whole.{response_parts};

use response_reader::Response;
use std::marker::Model;

/// A whole response that some bytes begin with (RFC 9112, section 2), so that it can be written down and read again. Contracts
/// see its parts.
#[derive(Drop)]
pub struct Given {
    response: Response,
}

impl Model for Given {
    ghost use Rattle.response_reader.specs.Response.{ResponseParts, CanBeGiven};
    ghost use Rattle.response_reader.specs.Whole.{response_parts};

    ghost Value = { ResponseParts };

    ghost view = { λ g. response_parts g.response };

    ghost invariant = { λ g. CanBeGiven (response_parts g.response) };
}

impl Given {
    /// Keeps a response that some bytes give, such as one that `read_response` returns. Takes no memory.
    pub fn new(response: Response) -> Given
        requires { CanBeGiven (response_parts response) }
        ensures { result ≡ response_parts response }
    {
        Given { response }
    }

    /// The response.
    pub fn response(&self) -> &Response
        ensures value { response_parts result.now ≡ self.now }
        ensures given { CanBeGiven self.now }
    {
        &self.response
    }

    /// The response, given back. Takes no memory.
    pub fn into_response(self) -> Response
        ensures { response_parts result ≡ self }
    {
        let Given { response } = self;
        response
    }
}
