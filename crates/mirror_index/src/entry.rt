//! What is kept of a page.
ghost use Rattle.std.specs.Prelude.{◌≡◌, ◌<◌, ◌≤◌, ◌+◌, ◌^◌, ◌↔◌, IsTrue, IfOk, length, option_map, string_bytes};
ghost use Rattle.std.specs.List.{list_any};
ghost use Rattle.local_names.specs.PlainNames.{is_control};
ghost use Rattle.sha2.specs.Sha256.{sha256};
ghost use Rattle.mirror_index.specs.Entries.{Entry, HasParts, IsEntry, IsMark, IsName, entry_line, value_field};

use crate::line::entry_line;
use address::Address;
use local_names::is_local_name;
use sha2::{Digest, Sha256};
use std::alloc::{AllocError, Global};
use std::marker::Model;

/// The most bytes of a line, without its end.
pub const MAX_LINE: usize = 65_536;

/// What was said with a page: its status, and the values of `Content-Type`, `ETag` and `Last-Modified` as they came.
pub struct KeptHead {
    status: u16,
    content_type: Option<Vec<u8>>,
    etag: Option<Vec<u8>>,
    last_modified: Option<Vec<u8>>,
}

// Written by hand: a user that drops one proves a call, and nothing about its fields.
impl Drop for KeptHead {
    fn drop(self) {
        let KeptHead {
            status: _status,
            content_type: _content_type,
            etag: _etag,
            last_modified: _last_modified,
        } = self;
    }
}

impl Model for KeptHead {
    ghost use Rattle.std.specs.Prelude.{option_map};
    ghost use Rattle.mirror_index.specs.Entries.{KeptHead};

    ghost Value = { KeptHead };

    ghost view = { λ t. record { status = t.status; content_type = option_map (λ v. v.items) t.content_type; etag = option_map (λ v. v.items) t.etag; last_modified = option_map (λ v. v.items) t.last_modified } };
}

// The bytes of a value, if there is one.
fn bytes_of(value: &Option<Vec<u8>>) -> Option<&[u8]>
    ensures { option_map (λ v. v.now) result ≡ option_map (λ v. v.items) value.entry.now }
{
    match value {
        Some(value) => Some(value.as_slice()),
        None => None,
    }
}

impl KeptHead {
    /// A status, and values as they came.
    pub fn new(
        status: u16,
        content_type: Option<Vec<u8>>,
        etag: Option<Vec<u8>>,
        last_modified: Option<Vec<u8>>,
    ) -> KeptHead
        ensures { result ≡ record { status = status; content_type = option_map (λ v. v.items) content_type; etag = option_map (λ v. v.items) etag; last_modified = option_map (λ v. v.items) last_modified } }
    {
        KeptHead {
            status,
            content_type,
            etag,
            last_modified,
        }
    }

    /// The status.
    pub fn status(&self) -> u16
        ensures status { result ≡ self.now.status }
        ensures fits { self.now.status < 2 ^ 16 }
    {
        self.status
    }

    /// The value of `Content-Type`.
    pub fn content_type(&self) -> Option<&[u8]>
        ensures { option_map (λ v. v.now) result ≡ self.now.content_type }
    {
        bytes_of(&self.content_type)
    }

    /// The value of `ETag`.
    pub fn etag(&self) -> Option<&[u8]>
        ensures { option_map (λ v. v.now) result ≡ self.now.etag }
    {
        bytes_of(&self.etag)
    }

    /// The value of `Last-Modified`.
    pub fn last_modified(&self) -> Option<&[u8]>
        ensures { option_map (λ v. v.now) result ≡ self.now.last_modified }
    {
        bytes_of(&self.last_modified)
    }
}

/// By what one sees that a file still has the bytes that it had.
#[derive(Clone, Copy)]
pub enum Mark {
    /// Their SHA-256.
    Digest([u8; 32]),
    /// When the file was changed last, by the system's clock, in nanoseconds since 1970. It costs nothing while a page arrives, and
    /// shows each change of the file except for one that the system loses if the power fails.
    Changed(u64),
}

/// A page that is kept: its address, the name of its file below the folder, how many bytes that has and by what one sees that they
/// are the same, and what was said with it.
pub struct Entry {
    address: Address,
    name: String,
    size: u64,
    mark: Mark,
    head: KeptHead,
}

// Written by hand: a user that drops one proves a call, and nothing about its fields.
impl Drop for Entry {
    fn drop(self) {
        let Entry {
            address: _address,
            name: _name,
            size: _size,
            mark: _mark,
            head: _head,
        } = self;
    }
}

impl Model for Entry {
    ghost use Rattle.std.specs.String.{string_bytes};
    ghost use Rattle.mirror_index.specs.Entries.{Entry, IsMark};

    ghost Value = { Entry };

    ghost view = { λ e. record { address = e.address; name = string_bytes e.name; size = e.size; mark = e.mark; head = e.head } };

    ghost invariant = { λ e. IsMark e.mark };
}

impl Entry {
    /// Of these parts. Takes no memory.
    pub fn new(address: Address, name: String, size: u64, mark: Mark, head: KeptHead) -> Entry
        ensures { result ≡ record { address = address; name = string_bytes name; size = size; mark = mark; head = head } }
    {
        Entry {
            address,
            name,
            size,
            mark,
            head,
        }
    }

    /// The address.
    pub fn address(&self) -> &Address
        ensures { result.now ≡ self.now.address }
    {
        &self.address
    }

    /// The name of the file.
    pub fn name(&self) -> &str
        ensures { result.now ≡ self.now.name }
    {
        self.name.as_str()
    }

    /// How many bytes the file has.
    pub fn size(&self) -> u64
        ensures size { result ≡ self.now.size }
        ensures fits { self.now.size < 2 ^ 64 }
    {
        self.size
    }

    /// By what one sees that it still has these.
    pub fn mark(&self) -> Mark
        ensures mark { result ≡ self.now.mark }
        ensures is { IsMark self.now.mark }
    {
        self.mark
    }

    /// What was said with the page.
    pub fn head(&self) -> &KeptHead
        ensures { result.now ≡ self.now.head }
    {
        &self.head
    }
}

/// The SHA-256 of bytes.
pub fn digest_of(bytes: &[u8]) -> [u8; 32]
    ensures { result ≡ sha256 bytes.now }
{
    Sha256::digest(bytes)
}

/// How the names of the program's own files begin.
const OWN: &[u8] = b".wgetr%";

// Whether this is a control byte.
fn is_control(byte: u8) -> bool
    ensures { result ≡ is_control byte }
{
    byte < 32 || byte == 127
}

// Whether bytes have a control byte.
fn has_control(text: &[u8]) -> bool
    ensures { result ≡ list_any is_control text.now }
{
    text.iter().any(|byte| is_control(*byte))
}

// Whether a file of a page may have this name.
fn is_name(name: &str) -> bool
    ensures { IsTrue result ↔ IsName name.now }
{
    if !is_local_name(name) {
        return false;
    }
    if has_control(name.as_bytes()) {
        return false;
    }
    !name.as_bytes().starts_with(OWN)
}

/// The most bytes of each text of an entry whose line is short enough whatever these are: a byte is written as two at most.
const FEW: usize = 6_000;

// Whether a value that may be missing has so few bytes.
fn has_few(value: Option<&[u8]>) -> bool
    ensures { IsTrue result → length (value_field (option_map (λ v. v.now) value.entry)) ≤ FEW + 1 }
{
    match value {
        Some(value) => value.len() <= FEW,
        None => true,
    }
}

// Whether the line of an entry is short enough, as far as that is seen without it: it may be if this isn't so.
fn is_surely_short(entry: &Entry) -> bool
    ensures short { IsTrue result → length (entry_line entry.now) ≤ MAX_LINE }
    ensures parts { HasParts entry.now }
{
    let head = entry.head();
    let _numbers = (entry.size(), entry.mark(), head.status());
    if entry.address().as_str().len() > FEW {
        return false;
    }
    if entry.name().len() > FEW {
        return false;
    }
    if !has_few(head.content_type()) {
        return false;
    }
    if !has_few(head.etag()) {
        return false;
    }
    has_few(head.last_modified())
}

// Whether the line of an entry is short enough.
fn is_short(alloc: Global, entry: &Entry) -> Result<bool, AllocError>
    ensures short { IfOk result (λ is. IsTrue is ↔ length (entry_line entry.now) ≤ MAX_LINE) }
    ensures parts { IfOk result (λ is. HasParts entry.now) }
{
    if is_surely_short(entry) {
        return Ok(true);
    }
    let line = entry_line(alloc, entry)?;
    Ok(line.len() <= MAX_LINE)
}

/// Whether an entry may be in an index.
pub(crate) fn is_entry(alloc: Global, entry: &Entry) -> Result<bool, AllocError>
    ensures { IfOk result (λ may. IsTrue may ↔ IsEntry entry.now) }
{
    if !is_name(entry.name()) {
        return Ok(false);
    }
    is_short(alloc, entry)
}
