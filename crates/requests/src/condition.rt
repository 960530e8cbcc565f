//! Conditions of requests (RFC 9110, section 13.1).
ghost use Rattle.std.specs.Prelude.{◌≡◌, ◌++◌, IfOk, OnOk, bytes_eq, not, option_map};
ghost use Rattle.std.specs.List.{list_any};
ghost use Rattle.requests.specs.Conditions.{IsSendable, condition_of, if_sendable, is_sendable, since_line, some_condition, tag_line};

use crate::line::{MAX_FIELD_LINE, has_control};
use address::Address;
use std::alloc::{AllocError, Global};
use std::marker::Model;

/// What a server said of the page of an address that is kept: a request for it that has this gets the page only if it changed.
#[derive(Drop)]
pub struct Condition {
    at: Address,
    tag: Option<Vec<u8>>,
    since: Option<Vec<u8>>,
}

impl Model for Condition {
    ghost use Rattle.std.specs.Prelude.{option_map};
    ghost use Rattle.requests.specs.Conditions.{Condition, IsSendable};

    ghost Value = { Condition };

    ghost view = { λ c. record { at = c.at; tag = option_map (λ v. v.items) c.tag; since = option_map (λ v. v.items) c.since } };

    ghost invariant = { λ c. IsSendable (record { at = c.at; tag = option_map (λ v. v.items) c.tag; since = option_map (λ v. v.items) c.since }) };
}

// Whether a value may be sent as it came.
fn is_sendable(value: &[u8]) -> bool
    ensures { result ≡ is_sendable value.now }
{
    !value.is_empty() && !has_control(value) && value.len() <= MAX_FIELD_LINE
}

// A value, if there is one that may be sent.
fn if_sendable(alloc: Global, value: Option<&[u8]>) -> Result<Option<Vec<u8>>, AllocError>
    ensures { IfOk result (λ kept. option_map (λ v. v.items) kept ≡ if_sendable (option_map (λ v. v.now) value.entry)) }
{
    match value {
        Some(value) if is_sendable(value) => Ok(Some(value.to_vec(alloc)?)),
        _ => Ok(None),
    }
}

impl Condition {
    /// That of the page at an address which came with these values of `ETag` and `Last-Modified`, if there is one that may be
    /// sent as it came: it isn't empty, and has no control byte and at most 8,192 bytes.
    pub fn of(
        alloc: Global,
        at: &Address,
        etag: Option<&[u8]>,
        modified: Option<&[u8]>,
    ) -> Result<Option<Condition>, AllocError>
        ensures { IfOk result (λ condition. condition ≡ condition_of at.now (option_map (λ v. v.now) etag.entry) (option_map (λ v. v.now) modified.entry)) }
    {
        let tag = if_sendable(alloc, etag)?;
        let since = if_sendable(alloc, modified)?;
        if tag.is_none() && since.is_none() {
            return Ok(None);
        }
        let at = at.try_clone()?;
        Ok(Some(Condition { at, tag, since }))
    }

    /// Whether it is of the page at this address.
    pub(crate) fn is_of(&self, at: &Address) -> bool
        ensures same { result ≡ bytes_eq self.now.at at.now }
        // What all conditions are, for callers to use.
        ensures sendable { IsSendable self.now }
    {
        self.at.as_str() == at.as_str()
    }

    /// The tag of the page, if it had one. Takes no memory.
    pub(crate) fn tag(&self) -> Option<&[u8]>
        ensures { option_map (λ v. v.now) result ≡ self.now.tag }
    {
        match &self.tag {
            Some(tag) => Some(tag.as_slice()),
            None => None,
        }
    }

    /// When the page was last changed, if that was said. Takes no memory.
    pub(crate) fn since(&self) -> Option<&[u8]>
        ensures { option_map (λ v. v.now) result ≡ self.now.since }
    {
        match &self.since {
            Some(since) => Some(since.as_slice()),
            None => None,
        }
    }
}
