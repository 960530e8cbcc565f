//! A sink that digests responses while their bodies arrive and go to a keeper (RFC 9110, section 15).
ghost use Rattle.std.specs.Prelude.{◌≡◌, ◌⊎◌, ℕ, List, [], ◌++◌, Option, Some, None, true, false, IfOk, OnOk, option_map, vec_items, ⊤};
ghost use Rattle.response_reader.specs.Fields.{HeadParts};
ghost use Rattle.response_reader.specs.Passes.{head_parts, AddsPiece};
ghost use Rattle.response_reader.specs.Refusals.{NotesRefusal};
ghost use Rattle.response_answer.specs.Digests.{body_of, digest_of, kind_of};
ghost use Rattle.kept_bodies.specs.Bodies.{no_body};
ghost use Rattle.response_answer.specs.Digesting.{IsStageOf, has_head};
ghost use Rattle.fetcher.specs.declared.outcome.Outcome.TheVariants as outcome;
ghost use Rattle.response_answer.specs.Sinking.{HasSunk};
ghost use Rattle.response_answer.specs.inner.HeadKinds.{kind_parts};

use crate::head_kind::{HeadKind, kind_of};
use crate::stage::Stage;
use address::Address;
use fetcher::{Answer, FaultKind, Outcome};
use html_links::LinkRules;
use kept_bodies::{BodyKind, Keeper};
use response_reader::{Head, Sink};
use std::alloc::{AllocError, Global};
use std::marker::Model;
use std::mem;

/// Takes responses, one after another, and keeps of each what its answer is made of: the links of a page, the target of a
/// redirect, and, if the status is one of success, the body, which goes to a keeper as it comes. After a refused growth each
/// later call answers that memory ran out, until the next response is begun.
#[derive(Drop)]
pub struct PageSink<K: Keeper> {
    alloc: Global,
    stage: Stage,
    kind: BodyKind,
    // Its media type, in the words of its head.
    content_type: Option<Vec<u8>>,
    // How long the server wants to be left alone, in the words of its head.
    retry_after: Option<Vec<u8>>,
    // When the page changed, and the tag of its version, in the words of its head.
    last_modified: Option<Vec<u8>>,
    etag: Option<Vec<u8>>,
    keeper: K,
    failed: bool,
}

impl<K: Keeper> Model for PageSink<K> {
    ghost use Rattle.std.specs.Prelude.{option_map, vec_items};
    ghost use Rattle.response_answer.specs.Sinking.{Sinking};

    ghost Value = { Sinking K };

    ghost view = { λ s. record { stage = s.stage; kind = s.kind; content_type = option_map vec_items s.content_type; retry_after = option_map vec_items s.retry_after; last_modified = option_map vec_items s.last_modified; etag = option_map vec_items s.etag; keeper = s.keeper; failed = s.failed } };
}

// The bytes of a field's value, if there is one.
fn bytes_of(value: &Option<Vec<u8>>) -> Option<&[u8]>
    ensures { option_map (λ bytes. bytes.now) result ≡ option_map vec_items value.now }
{
    match value {
        Some(value) => Some(value.as_slice()),
        None => None,
    }
}

// A copy of a field's value, if there is one. The error is out of memory.
fn copy_of(alloc: Global, value: &Option<Vec<u8>>) -> Result<Option<Vec<u8>>, AllocError>
    ensures { IfOk result (λ copy. option_map vec_items copy ≡ option_map vec_items value.now) }
{
    match value {
        Some(value) => Ok(Some(Vec::from_slice(alloc, value)?)),
        None => Ok(None),
    }
}

impl<K: Keeper> PageSink<K> {
    /// Has this keeper keep bodies. Takes no memory; later growth comes from `alloc`.
    pub fn new(alloc: Global, keeper: K) -> PageSink<K> {
        PageSink {
            alloc,
            stage: Stage::Fresh,
            kind: BodyKind::Other,
            content_type: None,
            retry_after: None,
            last_modified: None,
            etag: None,
            keeper,
            failed: false,
        }
    }

    /// What keeps the bodies.
    pub fn keeper(&self) -> &K
        ensures { result.now ≡ self.now.keeper }
    {
        &self.keeper
    }

    /// The value of the `Retry-After` of the response that was taken last (RFC 9110, section 10.2.3), if it has one. Before a head
    /// was taken, and if no response was read, there is none.
    pub fn retry_after(&self) -> Option<&[u8]>
        ensures { option_map (λ value. value.now) result ≡ self.now.retry_after }
    {
        bytes_of(&self.retry_after)
    }

    /// The value of the `Content-Type` of the response that was taken last (RFC 9110, section 8.3), if it has one, under the same
    /// conditions.
    pub fn content_type(&self) -> Option<&[u8]>
        ensures { option_map (λ value. value.now) result ≡ self.now.content_type }
    {
        bytes_of(&self.content_type)
    }

    /// The value of the `Last-Modified` of the response that was taken last (RFC 9110, section 8.8.2), if it has one, under the same
    /// conditions.
    pub fn last_modified(&self) -> Option<&[u8]>
        ensures { option_map (λ value. value.now) result ≡ self.now.last_modified }
    {
        bytes_of(&self.last_modified)
    }

    /// The value of its `ETag` (RFC 9110, section 8.8.3), likewise.
    pub fn etag(&self) -> Option<&[u8]>
        ensures { option_map (λ value. value.now) result ≡ self.now.etag }
    {
        bytes_of(&self.etag)
    }

    /// Begins a response.
    pub fn begin(&mut self)
        ensures { HasSunk K.begun self.new None [] }
    {
        self.stage = Stage::Fresh;
        self.content_type = None;
        self.retry_after = None;
        self.last_modified = None;
        self.etag = None;
        self.failed = false;
        self.keeper.begin();
    }

    // Takes the head.
    fn take_head(&mut self, head: &Head) -> Result<(), AllocError>
        ensures stage { OnOk result (IsStageOf (head_parts head.now) [] self.new.stage) }
        ensures kind { OnOk result (self.new.kind ≡ kind_of (head_parts head.now)) }
        ensures content_type { OnOk result (self.new.content_type ≡ (head_parts head.now).content_type) }
        ensures retry_after { OnOk result (self.new.retry_after ≡ (head_parts head.now).retry_after) }
        ensures last_modified { OnOk result (self.new.last_modified ≡ (head_parts head.now).last_modified) }
        ensures etag { OnOk result (self.new.etag ≡ (head_parts head.now).etag) }
        ensures keeper { (bytes : List ℕ) → K.begun self.old.keeper bytes → K.begun self.new.keeper bytes }
        ensures failed { self.new.failed ≡ self.old.failed }
    {
        let fields = HeadKind {
            status: head.status,
            content_type: &head.content_type,
            coded: head.coded,
            location: &head.location,
            retry_after: &head.retry_after,
            last_modified: &head.last_modified,
            etag: &head.etag,
        };
        self.stage = Stage::of(self.alloc, &fields)?;
        self.kind = kind_of(&fields);
        self.content_type = copy_of(self.alloc, &head.content_type)?;
        self.retry_after = copy_of(self.alloc, &head.retry_after)?;
        self.last_modified = copy_of(self.alloc, &head.last_modified)?;
        self.etag = copy_of(self.alloc, &head.etag)?;
        self.keeper.note_changed(bytes_of(&self.last_modified));
        Ok(())
    }

    // Takes a piece of the body.
    fn take_piece(&mut self, bytes: &[u8]) -> Result<(), AllocError>
        ensures took { OnOk result ((h : HeadParts) (body : List ℕ) → HasSunk K.begun self.old (Some h) body → HasSunk K.begun self.new (Some h) (body ++ bytes.now)) }
        ensures failed { self.new.failed ≡ self.old.failed }
    {
        self.stage.take(bytes)?;
        if self.stage.keeps_body() {
            self.keeper.add(bytes)?;
        }
        Ok(())
    }

    // The body that is kept of the response.
    fn finish_body(&mut self) -> Result<K::Kept, AllocError>
        ensures body { IfOk result (λ kept. (h : HeadParts) (body : List ℕ) → HasSunk K.begun self.old (Some h) body → K.holds kept (body_of h body)) }
        ensures stage { self.new.stage ≡ self.old.stage }
        ensures content_type { self.new.content_type ≡ self.old.content_type }
        ensures retry_after { self.new.retry_after ≡ self.old.retry_after }
        ensures last_modified { self.new.last_modified ≡ self.old.last_modified }
        ensures etag { self.new.etag ≡ self.old.etag }
    {
        if self.stage.keeps_body() {
            self.keeper.finish(self.kind)
        } else {
            self.keeper.empty()
        }
    }

    /// The answer if no response was read, for this reason. The error is out of memory.
    pub fn fault(&mut self, kind: FaultKind) -> Result<Answer<K::Kept>, AllocError>
        ensures outcome { IfOk result (λ a. a.outcome ≡ outcome.Fault kind) }
        ensures body { IfOk result (λ a. K.holds a.body no_body) }
        ensures content_type { self.new.content_type ≡ None }
        ensures retry_after { self.new.retry_after ≡ None }
        ensures last_modified { self.new.last_modified ≡ None }
        ensures etag { self.new.etag ≡ None }
    {
        self.content_type = None;
        self.retry_after = None;
        self.last_modified = None;
        self.etag = None;
        let body = self.keeper.empty()?;
        Ok(Answer {
            outcome: Outcome::Fault(kind),
            body,
        })
    }

    /// The answer of the response that was taken, for the address that was asked. Of the links of a page those are
    /// edges that `rules` takes. The error is out of memory, now or at an earlier call.
    pub fn finish(&mut self, at: &Address, rules: LinkRules) -> Result<Answer<K::Kept>, AllocError>
        requires { (has_head self.old.stage ≡ true) ⊎ (self.old.failed ≡ true) }
        ensures outcome { IfOk result (λ a. (h : HeadParts) (body : List ℕ) → HasSunk K.begun self.old (Some h) body
            → a.outcome ≡ digest_of rules at.now (record { head = h; body = body })) }
        ensures body { IfOk result (λ a. (h : HeadParts) (body : List ℕ) → HasSunk K.begun self.old (Some h) body
            → K.holds a.body (body_of h body)) }
        ensures content_type { self.new.content_type ≡ self.old.content_type }
        ensures retry_after { self.new.retry_after ≡ self.old.retry_after }
        ensures last_modified { self.new.last_modified ≡ self.old.last_modified }
        ensures etag { self.new.etag ≡ self.old.etag }
        ensures failed { self.old.failed ≡ true → IfOk result (λ _. ⊥) }
    {
        if self.failed {
            return Err(AllocError);
        }
        let body = self.finish_body()?;
        let stage = mem::replace(&mut self.stage, Stage::Fresh);
        let outcome = stage.outcome(self.alloc, at, rules)?;
        Ok(Answer { outcome, body })
    }
}

impl<K: Keeper> Sink for PageSink<K> {
    ghost took = { HasSunk K.begun };

    ghost Purpose = { ⊤ };

    ghost purpose = { λ _. tt };

    ghost refused = { λ s. s.failed };

    fn head(&mut self, head: &Head) -> Result<(), AllocError>
        ensures took { OnOk result (HasSunk K.begun self.old None [] → HasSunk K.begun self.new (Some (head_parts head.now)) []) }
        ensures refused { NotesRefusal self.old.failed self.new.failed result }
        ensures failed { self.old.failed ≡ true → IfOk result (λ _. ⊥) }
    {
        if self.failed {
            return Err(AllocError);
        }
        match self.take_head(head) {
            Ok(()) => Ok(()),
            Err(e) => {
                self.failed = true;
                Err(e)
            }
        }
    }

    fn piece(&mut self, bytes: &[u8]) -> Result<(), AllocError>
        ensures took { OnOk result (AddsPiece (HasSunk K.begun self.old) (HasSunk K.begun self.new) bytes.now) }
        ensures refused { NotesRefusal self.old.failed self.new.failed result }
        ensures failed { self.old.failed ≡ true → IfOk result (λ _. ⊥) }
    {
        if self.failed {
            return Err(AllocError);
        }
        match self.take_piece(bytes) {
            Ok(()) => Ok(()),
            Err(e) => {
                self.failed = true;
                Err(e)
            }
        }
    }
}
