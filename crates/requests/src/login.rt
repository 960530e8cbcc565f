//! Credentials: a user and a password (RFC 7617).
ghost use Rattle.std.specs.Prelude.{◌≡◌, ◌++◌, ◌≤◌, IfOk, codes, length, string_bytes};
ghost use Rattle.requests.specs.Fields.{login_of, login_value};
ghost use Rattle.requests.specs.declared.login.TheConstants.{MAX_LOGIN};

use base64::engine::general_purpose::STANDARD;
use std::alloc::{AllocError, Global};
use std::marker::Model;

/// The most bytes of credentials, as they are sent.
pub const MAX_LOGIN: usize = 16_384;

/// A user and a password, as they are sent.
#[derive(Drop)]
pub struct Login {
    value: String,
}

// Contracts see the value of the field.
impl Model for Login {
    ghost use Rattle.std.specs.Prelude.{List, ℕ, ◌≤◌, length};
    ghost use Rattle.std.specs.String.{string_bytes};
    ghost use Rattle.requests.specs.declared.login.TheConstants.{MAX_LOGIN};

    ghost Value = { List ℕ };

    ghost view = { λ l. string_bytes l.value };

    ghost invariant = { λ l. length (string_bytes l.value) ≤ MAX_LOGIN };
}

// The value of the field for a user and a password, which a colon joins.
fn login_value(alloc: Global, login: &[u8]) -> Result<String, AllocError>
    ensures { IfOk result (λ text. string_bytes text ≡ login_value login.now) }
{
    let mut text = String::from_str(alloc, "Basic ")?;
    STANDARD.encode_string(login, &mut text)?;
    Ok(text)
}

impl Login {
    ghost use Rattle.std.specs.Prelude.{option_map};

    /// This user and this password, unless they are too long.
    pub fn of(alloc: Global, user: &[u8], password: &[u8]) -> Result<Option<Login>, AllocError>
        ensures { IfOk result (λ login. login ≡ login_of user.now password.now) }
    {
        let mut bytes = Vec::new(alloc);
        bytes.extend_from_slice(user)?;
        bytes.extend_from_slice(b":")?;
        bytes.extend_from_slice(password)?;
        let value = login_value(alloc, bytes.as_slice())?;
        if value.len() > MAX_LOGIN {
            return Ok(None);
        }
        Ok(Some(Login { value }))
    }

    /// The value of the field that has them. Takes no memory.
    pub(crate) fn value(&self) -> &str
        ensures value { result.now ≡ self.now }
        ensures short { length self.now ≤ MAX_LOGIN }
    {
        self.value.as_str()
    }

    /// The same once more.
    pub fn try_clone(&self) -> Result<Login, AllocError>
        ensures { IfOk result (λ copy. copy ≡ self.now) }
    {
        Ok(Login {
            value: self.value.clone()?,
        })
    }
}

/// The same credentials once more, if there are any.
pub(crate) fn copy_of(login: &Option<Login>) -> Result<Option<Login>, AllocError>
    ensures { IfOk result (λ copy. copy ≡ login.now) }
{
    match login {
        Some(login) => Ok(Some(login.try_clone()?)),
        None => Ok(None),
    }
}
