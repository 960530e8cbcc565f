//! One page of an earlier run.
ghost use Rattle.std.specs.Prelude.{◌≡◌, ◌++◌, IfOk, IfSome, OnOk, Some, option_map};
ghost use Rattle.std.specs.Fmt.{decimal};
ghost use Rattle.std.specs.Io.KnownBytes.{prepend_known};
ghost use Rattle.earlier_pages.specs.Pages.{condition_by, field_line, front_lines, recorded_head, telling_tag};

use crate::recorded_stream::RecordedStream;
use mirror_index::Entry;
use requests::Condition;
use std::alloc::{AllocError, Global};
use std::io::Read;
use std::marker::Model;

// A file that may be a page's.
#[derive(Drop)]
pub(crate) struct FoundFile<F> {
    pub(crate) path: String,
    // Whether it has the page's own name.
    pub(crate) is_own: bool,
    pub(crate) opened: F,
}

/// A page of an earlier run whose file has as many bytes as it had.
pub struct EarlierPage<'a, F: Read + Drop> {
    alloc: Global,
    entry: &'a Entry,
    file: FoundFile<F>,
    // Other files that may be the page's, with as many bytes.
    other: Option<FoundFile<F>>,
    last: Option<FoundFile<F>>,
}

// Written by hand: a user that drops one proves a call, and nothing about its fields.
impl<'a, F: Read + Drop> Drop for EarlierPage<'a, F> {
    fn drop(self) {
        let EarlierPage {
            alloc: _alloc,
            entry: _entry,
            file: _file,
            other: _other,
            last: _last,
        } = self;
    }
}

impl<'a, F: Read + Drop> Model for EarlierPage<'a, F> {
    ghost use Rattle.earlier_pages.specs.Pages.{PageValue};

    ghost Value = { PageValue F };

    ghost view = { λ p. record { entry = p.entry.now; file = p.file.opened } };
}

// Adds a line that ends in a number.
fn push_line(
    alloc: Global,
    head: &mut Vec<u8>,
    front: &[u8],
    number: u64,
    end: &[u8],
) -> Result<(), AllocError>
    ensures { OnOk result (head.new.items ≡ head.old.items ++ (front.now ++ (decimal number ++ end.now))) }
{
    let digits = format!(in alloc; "{number}")?;
    head.extend_from_slice(front)?;
    head.extend_from_slice(digits.as_bytes())?;
    head.extend_from_slice(end)
}

// Adds the status, and how long the body is.
fn push_front(alloc: Global, head: &mut Vec<u8>, entry: &Entry) -> Result<(), AllocError>
    ensures { OnOk result (head.new.items ≡ head.old.items ++ front_lines entry.now) }
{
    let status = u64::from(entry.head().status());
    push_line(alloc, head, b"HTTP/1.1 ", status, b" \r\n")?;
    push_line(alloc, head, b"Content-Length: ", entry.size(), b"\r\n")
}

// Adds a field, if it has a value.
fn push_field(head: &mut Vec<u8>, name: &[u8], value: Option<&[u8]>) -> Result<(), AllocError>
    ensures { OnOk result (head.new.items ≡ head.old.items ++ field_line name.now (option_map (λ v. v.now) value.entry)) }
{
    let Some(value) = value else {
        return Ok(());
    };
    head.extend_from_slice(name)?;
    head.extend_from_slice(b": ")?;
    head.extend_from_slice(value)?;
    head.extend_from_slice(b"\r\n")
}

// A tag that says whether a page changed; the word that means any says nothing of it.
fn telling_tag(tag: Option<&[u8]>) -> Option<&[u8]>
    ensures { option_map (λ v. v.now) result ≡ telling_tag (option_map (λ v. v.now) tag.entry) }
{
    match tag {
        Some(tag) if tag != b"*".as_slice() => Some(tag),
        _ => None,
    }
}

// The head of the response that was received, as far as it counts for its answer.
fn head_of(alloc: Global, entry: &Entry) -> Result<Vec<u8>, AllocError>
    ensures { IfOk result (λ head. head.items ≡ recorded_head entry.now) }
{
    let recorded = entry.head();
    let mut head = Vec::new(alloc);
    push_front(alloc, &mut head, entry)?;
    push_field(&mut head, b"Content-Type", recorded.content_type())?;
    push_field(&mut head, b"ETag", recorded.etag())?;
    push_field(&mut head, b"Last-Modified", recorded.last_modified())?;
    head.extend_from_slice(b"\r\n")?;
    Ok(head)
}

impl<'a, F: Read + Drop> EarlierPage<'a, F> {
    // Of this entry, with its file, and perhaps others that may be its file. Nothing was read of them.
    pub(crate) fn new(
        alloc: Global,
        entry: &'a Entry,
        file: FoundFile<F>,
        other: Option<FoundFile<F>>,
        last: Option<FoundFile<F>>,
    ) -> EarlierPage<'a, F>
        ensures entry { result.entry ≡ entry.now }
        ensures file { result.file ≡ file.opened }
    {
        EarlierPage {
            alloc,
            entry,
            file,
            other,
            last,
        }
    }

    /// The same page with the next file that may be its, if there is one: what is read if this one hasn't the bytes that it had. It has the
    /// one after that, if there is another. Gives it once. Takes no memory.
    pub fn take_other(&mut self) -> Option<EarlierPage<'a, F>>
        ensures other { IfSome result (λ other. other.entry ≡ self.old.entry) }
        ensures page { self.new ≡ self.old }
    {
        let file = self.other.take()?;
        let last = self.last.take();
        Some(EarlierPage::new(self.alloc, self.entry, file, last, None))
    }

    /// What the index says of it.
    pub fn entry(&self) -> &Entry
        ensures { result.now ≡ self.now.entry }
    {
        self.entry
    }

    /// The path of its file, if that has the page's own name, and isn't what was kept of it elsewhere.
    pub fn own_path(&self) -> Option<&str> {
        if self.file.is_own {
            Some(self.file.path.as_str())
        } else {
            None
        }
    }

    /// Its file, of which nothing was read.
    pub fn file(&self) -> &F
        ensures { result.now ≡ self.now.file }
    {
        &self.file.opened
    }

    /// The condition with which it is requested, if its server said by what one sees whether it changed. The tag `*` says nothing of the
    /// kind: in a condition it means any page (RFC 9110, section 13.1.2).
    pub fn condition(&self) -> Result<Option<Condition>, AllocError>
        ensures { IfOk result (λ condition. condition ≡ condition_by self.now.entry) }
    {
        let recorded = self.entry.head();
        Condition::of(
            self.alloc,
            self.entry.address(),
            telling_tag(recorded.etag()),
            recorded.last_modified(),
        )
    }

    /// The response that was received, as far as it counts for its answer: its head as the index says it, and its body.
    pub fn into_stream(self) -> Result<RecordedStream<F>, AllocError>
        ensures head { IfOk result (λ stream. stream.rest ≡ recorded_head self.entry.entry) }
        ensures body { IfOk result (λ stream. stream.body ≡ self.entry.file) }
    {
        let EarlierPage {
            alloc,
            entry,
            file,
            other: _other,
            last: _last,
        } = self;
        let FoundFile {
            path: _path,
            is_own: _is_own,
            opened,
        } = file;
        let head = head_of(alloc, entry)?;
        Ok(RecordedStream::new(head, opened))
    }
}
