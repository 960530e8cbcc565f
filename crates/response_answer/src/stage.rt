//! How far a response is digested: what its head says, and what was found in its body so far.
ghost use Rattle.std.specs.Prelude.{◌≡◌, ℕ, List, [], ◌++◌, ◌||◌, true, take, IfOk, OnOk};
ghost use Rattle.response_reader.specs.Fields.{HeadParts};
ghost use Rattle.response_answer.specs.Digests.{digest_of};
ghost use Rattle.fetcher.specs.Statuses.{is_successful};
ghost use Rattle.response_answer.specs.Digesting.{IsStageOf, has_head};
ghost use Rattle.response_answer.specs.inner.HeadKinds.{kind_parts};

use crate::head_kind::{HeadKind, is_document, is_sheet, page_syntax};
use crate::links::{named, page_edges, sheet_edges};
use address::Address;
use css_links::Scanner as SheetScanner;
use fetcher::{Outcome, is_redirect, is_successful};
use html_links::{HtmlScanner, LinkRules};
use std::alloc::{AllocError, Global};

/// How many bytes of a page of HTML, or of a style sheet, are looked through for links: a page without end has no end of links either.
pub const MAX_SCANNED: usize = 16_777_216;

/// What the head of a response says of its body.
#[derive(Drop)]
pub(crate) enum Stage {
    /// There was no head yet.
    Fresh,
    /// A redirect, with its status and its Location.
    Redirect(u16, Vec<u8>),
    /// A page of HTML, with its status, what was found in it so far, and how many bytes more are looked through.
    Page(u16, HtmlScanner, usize),
    /// A style sheet, with its status, what was found in it so far, and how many bytes more are looked through.
    Sheet(u16, SheetScanner, usize),
    /// Neither, with its status.
    Leaf(u16),
}

// The first bytes of a piece, at most so many.
fn front_of(bytes: &[u8], most: usize) -> &[u8]
    ensures { result.now ≡ take most bytes.now }
{
    if most < bytes.len() {
        &bytes[..most]
    } else {
        bytes
    }
}

impl Stage {
    // What a head says of its body, of which nothing came yet.
    pub(crate) fn of(alloc: Global, head: &HeadKind<'_>) -> Result<Stage, AllocError>
        ensures { IfOk result (λ stage. IsStageOf (kind_parts head.now) [] stage) }
    {
        if is_redirect(head.status) {
            return match head.location {
                Some(location) => Ok(Stage::Redirect(
                    head.status,
                    Vec::from_slice(alloc, location)?,
                )),
                None => Ok(Stage::Leaf(head.status)),
            };
        }
        if is_document(head) {
            let scanner = HtmlScanner::with_syntax(alloc, page_syntax(head));
            return Ok(Stage::Page(head.status, scanner, MAX_SCANNED));
        }
        if is_sheet(head) {
            let scanner = SheetScanner::new(alloc);
            return Ok(Stage::Sheet(head.status, scanner, MAX_SCANNED));
        }
        Ok(Stage::Leaf(head.status))
    }

    // Takes the next bytes of the body.
    pub(crate) fn take(&mut self, bytes: &[u8]) -> Result<(), AllocError>
        ensures { OnOk result ((h : HeadParts) (front : List ℕ) → IsStageOf h front self.old → IsStageOf h (front ++ bytes.now) self.new) }
    {
        match self {
            Stage::Page(_, scanner, left) => match scanner.feed(front_of(bytes, *left)) {
                Ok(()) => {
                    *left = left.saturating_sub(bytes.len());
                    Ok(())
                }
                Err(_) => Err(AllocError),
            },
            Stage::Sheet(_, scanner, left) => match scanner.feed(front_of(bytes, *left)) {
                Ok(()) => {
                    *left = left.saturating_sub(bytes.len());
                    Ok(())
                }
                Err(_) => Err(AllocError),
            },
            Stage::Fresh | Stage::Redirect(_, _) | Stage::Leaf(_) => Ok(()),
        }
    }

    // Whether the body is kept: if the status is one of success.
    pub(crate) fn keeps_body(&self) -> bool
        ensures { (h : HeadParts) (front : List ℕ) → IsStageOf h front self.now → result ≡ is_successful h.status }
    {
        match self {
            Stage::Fresh | Stage::Redirect(_, _) => false,
            Stage::Page(_, _, _) | Stage::Sheet(_, _, _) => true,
            Stage::Leaf(status) => is_successful(*status),
        }
    }

    // What became of the address for which the response is, once its body is whole.
    pub(crate) fn outcome(
        self,
        alloc: Global,
        at: &Address,
        rules: LinkRules,
    ) -> Result<Outcome, AllocError>
        requires { has_head self ≡ true }
        ensures { IfOk result (λ x. (h : HeadParts) (body : List ℕ) → IsStageOf h body self
            → x ≡ digest_of rules at.now (record { head = h; body = body })) }
    {
        match self {
            Stage::Fresh => unreachable!(),
            Stage::Redirect(status, location) => match named(at, &location)? {
                Some(target) => Ok(Outcome::Moved(status, target)),
                None => Ok(Outcome::Leaf(status)),
            },
            Stage::Page(status, scanner, _) => {
                let Ok(scan) = scanner.finish() else {
                    return Err(AllocError);
                };
                Ok(Outcome::Page(status, page_edges(alloc, at, rules, &scan)?))
            }
            Stage::Sheet(status, scanner, _) => {
                let Ok(found) = scanner.finish() else {
                    return Err(AllocError);
                };
                Ok(Outcome::Page(status, sheet_edges(alloc, at, rules, &found)?))
            }
            Stage::Leaf(status) => Ok(Outcome::Leaf(status)),
        }
    }
}
