//! A sink that digests a response while its body arrives (RFC 9110, section 15).
ghost use Rattle.std.specs.Prelude.{◌≡◌, ◌⊎◌, ℕ, List, [], ◌++◌, Option, Some, None, true, false, IfOk, OnOk};
ghost use Rattle.response_reader.specs.Fields.{HeadParts};
ghost use Rattle.response_reader.specs.Passes.{head_parts, AddsPiece};
ghost use Rattle.response_reader.specs.Refusals.{NotesRefusal};
ghost use Rattle.response_answer.specs.Digests.{body_of, digest_of, kind_of};
ghost use Rattle.response_answer.specs.Digesting.{HasTaken, IsStageOf, Purpose, has_head, purpose_of};
ghost use Rattle.response_answer.specs.inner.HeadKinds.{kind_parts};

use crate::head_kind::{HeadKind, kind_of};
use crate::stage::Stage;
use address::Address;
use fetcher::{Answer, Body, BodyKind};
use html_links::LinkRules;
use response_reader::{Head, Sink};
use std::alloc::{AllocError, Global};
use std::marker::Model;

/// Takes a response for an address, and keeps of it what its answer is made of: the links of a
/// page, the target of a redirect, and the body if the status is one of success. After a refused
/// growth each later call fails because memory ran out.
#[derive(Drop)]
pub struct Digester {
    alloc: Global,
    at: Address,
    rules: LinkRules,
    stage: Stage,
    kind: BodyKind,
    kept: Vec<u8>,
    failed: bool,
}

impl Model for Digester {
    ghost use Rattle.response_answer.specs.Digesting.{Digesting};

    ghost Value = { Digesting };

    ghost view = { λ d. record { at = d.at; rules = d.rules; stage = d.stage; kind = d.kind; kept = d.kept.items; failed = d.failed } };
}

impl Digester {
    /// Takes a response for this address. Of the links of a page those are edges that
    /// `rules` takes. Fails only if memory runs out; later growth comes from `alloc`.
    pub fn new(alloc: Global, at: &Address, rules: LinkRules) -> Result<Digester, AllocError>
        ensures fresh { IfOk result (λ d. HasTaken d None []) }
        ensures purpose { IfOk result (λ d. purpose_of d ≡ record { at = at.now; rules = rules }) }
    {
        Ok(Digester {
            alloc,
            at: at.try_clone()?,
            rules,
            stage: Stage::Fresh,
            kind: BodyKind::Other,
            kept: Vec::new(alloc),
            failed: false,
        })
    }

    // Takes the head.
    fn take_head(&mut self, head: &Head) -> Result<(), AllocError>
        ensures stage { OnOk result (IsStageOf (head_parts head.now) [] self.new.stage) }
        ensures kind { OnOk result (self.new.kind ≡ kind_of (head_parts head.now)) }
        ensures kept { self.new.kept ≡ self.old.kept }
        ensures failed { self.new.failed ≡ self.old.failed }
        ensures purpose { purpose_of self.new ≡ purpose_of self.old }
    {
        let fields = HeadKind {
            status: head.status,
            content_type: &head.content_type,
            coded: head.coded,
            location: &head.location,
            retry_after: &head.retry_after,
            last_modified: &head.last_modified,
            etag: &head.etag,
        };
        self.stage = Stage::of(self.alloc, &fields)?;
        self.kind = kind_of(&fields);
        Ok(())
    }

    // Takes a piece of the body.
    fn take_piece(&mut self, bytes: &[u8]) -> Result<(), AllocError>
        ensures took { OnOk result ((h : HeadParts) (body : List ℕ) → HasTaken self.old (Some h) body → HasTaken self.new (Some h) (body ++ bytes.now)) }
        ensures failed { self.new.failed ≡ self.old.failed }
        ensures purpose { purpose_of self.new ≡ purpose_of self.old }
    {
        self.stage.take(bytes)?;
        if self.stage.keeps_body() {
            self.kept.extend_from_slice(bytes)?;
        }
        Ok(())
    }

    /// The answer of the response that was taken. Fails only if memory runs out, now or at an earlier
    /// call.
    pub fn finish(self) -> Result<Answer<Body>, AllocError>
        requires { (has_head self.stage ≡ true) ⊎ (self.failed ≡ true) }
        ensures outcome { IfOk result (λ a. (h : HeadParts) (body : List ℕ) → HasTaken self (Some h) body
            → a.outcome ≡ digest_of self.rules self.at (record { head = h; body = body })) }
        ensures body { IfOk result (λ a. (h : HeadParts) (body : List ℕ) → HasTaken self (Some h) body
            → a.body ≡ body_of h body) }
        ensures failed { self.failed ≡ true → IfOk result (λ _. ⊥) }
    {
        if self.failed {
            return Err(AllocError);
        }
        let Digester {
            alloc,
            at,
            rules,
            stage,
            kind,
            kept,
            ..
        } = self;
        let outcome = stage.outcome(alloc, &at, rules)?;
        Ok(Answer {
            outcome,
            body: Body::new(kind, kept),
        })
    }
}

impl Sink for Digester {
    ghost took = { HasTaken };

    ghost Purpose = { Purpose };

    ghost purpose = { purpose_of };

    ghost refused = { λ d. d.failed };

    fn head(&mut self, head: &Head) -> Result<(), AllocError>
        ensures took { OnOk result (HasTaken self.old None [] → HasTaken self.new (Some (head_parts head.now)) []) }
        ensures purpose { purpose_of self.new ≡ purpose_of self.old }
        ensures refused { NotesRefusal self.old.failed self.new.failed result }
        ensures failed { self.old.failed ≡ true → IfOk result (λ _. ⊥) }
    {
        if self.failed {
            return Err(AllocError);
        }
        match self.take_head(head) {
            Ok(()) => Ok(()),
            Err(e) => {
                self.failed = true;
                Err(e)
            }
        }
    }

    fn piece(&mut self, bytes: &[u8]) -> Result<(), AllocError>
        ensures took { OnOk result (AddsPiece (HasTaken self.old) (HasTaken self.new) bytes.now) }
        ensures purpose { purpose_of self.new ≡ purpose_of self.old }
        ensures refused { NotesRefusal self.old.failed self.new.failed result }
        ensures failed { self.old.failed ≡ true → IfOk result (λ _. ⊥) }
    {
        if self.failed {
            return Err(AllocError);
        }
        match self.take_piece(bytes) {
            Ok(()) => Ok(()),
            Err(e) => {
                self.failed = true;
                Err(e)
            }
        }
    }
}
