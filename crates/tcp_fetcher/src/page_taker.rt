//! What takes the pages of one worker: it has their bodies kept in parts, and reads again those that an earlier run kept.
ghost use Rattle.std.specs.Prelude.{◌≡◌, IfOk, IfSome, IsTrue, Some, option_map, true};
ghost use Rattle.part_keeper.specs.Parts.{holds_received};
ghost use Rattle.part_keeper.specs.declared.part.Standing.TheVariants.{Named};
ghost use Rattle.response_reader.specs.Limits.{limited};
ghost use Rattle.tcp_fetcher.specs.Answering.{HasMark, IsReadAgain, IsRecordedIn, IsRepeatedIn, has_status, not_received, without_digest};

use address::Address;
use answer_notes::{Hops, Received};
use body_digests::{Digested, Digesting};
use earlier_answers::{answer_text, chain_text};
use earlier_pages::EarlierPage;
use earlier_runs::IndexNote;
use early_names::EarlyRules;
use fetcher::{Answer, Outcome};
use html_links::LinkRules;
use http_fetcher::answer_over;
use kept_bodies::{BodyKind, Keeper};
use mirror_index::{KeptHead, Mark};
use part_keeper::{KeptPart, PartCounter, PartKeeper, PartLinker, PartsDir, Standing};
use response_answer::PageSink;
use response_reader::{Limits, SliceWire, TcpWire};
use std::alloc::{AllocError, Global};
use std::fs::Files;
use std::io::Read;
use std::net::Net;
use std::sync::{Arc, Wait};
use streams::{Close, Lock};
use tcp_connect::KeptConnections;

/// Takes the pages of one worker.
pub(crate) struct PageTaker<'a, R: Net + Wait + Files>
where
    R::File: Close + Lock,
{
    /// Takes pages that are kept.
    pub(crate) sink: PageSink<Digesting<PartKeeper<'a, R>>>,
    /// Takes pages that aren't kept.
    pub(crate) passing: PageSink<PartCounter>,
    linker: PartLinker<'a, R>,
    /// Whether a page may stay in the file that an earlier run gave its name.
    pub(crate) may_stay: bool,
    // Whether a page that is read again gets a digest, whatever it is known by.
    digests: bool,
    // What took the last page, if its part is the file that it was read from, or a link to it.
    linked: Option<PageSink<Digesting<PartCounter>>>,
    rules: Option<Arc<EarlyRules>>,
    // By what the file of the page that was kept last is known: the SHA-256 of its body, if that was computed, or the time at which the file
    // of an earlier run was changed last, if it stays.
    last: Option<Mark>,
    /// Whether what was answered last was requested over the network.
    pub(crate) is_requested: bool,
    // The text of the robots file that was received last, unless it was taken.
    chain: Option<Vec<u8>>,
    /// Where what it answers takes memory from.
    pub(crate) alloc: Global,
    rt: &'a R,
    kept: &'a KeptConnections<R::Stream>,
    parts: &'a PartsDir<R::File>,
}

// Written by hand: a user that drops one proves a call, and nothing about its fields.
impl<'a, R: Net + Wait + Files> Drop for PageTaker<'a, R>
where
    R::File: Close + Lock,
{
    fn drop(self) {
        let PageTaker {
            sink,
            passing,
            linker: _linker,
            may_stay: _may_stay,
            digests: _digests,
            linked,
            rules: _rules,
            last: _last,
            is_requested: _is_requested,
            chain: _chain,
            alloc: _alloc,
            rt: _rt,
            kept: _kept,
            parts: _parts,
        } = self;
        drop(sink);
        drop(passing);
        drop(linked);
    }
}

impl<'a, R: Net + Wait + Files> PageTaker<'a, R>
where
    R::File: Close + Lock,
{
    /// Keeps the bodies of pages by this keeper, unless these rules don't keep them. A page that is read again gets a digest if it is known
    /// by that, or if all are to get one. Takes no memory.
    pub(crate) fn new(
        rt: &'a R,
        alloc: Global,
        kept: &'a KeptConnections<R::Stream>,
        parts: &'a PartsDir<R::File>,
        keeper: Digesting<PartKeeper<'a, R>>,
        rules: Option<Arc<EarlyRules>>,
        digests: bool,
    ) -> PageTaker<'a, R> {
        PageTaker {
            sink: PageSink::new(alloc, keeper),
            passing: PageSink::new(alloc, PartCounter::new()),
            linker: PartLinker::new(rt, alloc, parts),
            may_stay: false,
            digests,
            linked: None,
            rules,
            last: None,
            is_requested: true,
            chain: None,
            alloc,
            rt,
            kept,
            parts,
        }
    }

    /// A page is requested that none of what is known of the last one is of.
    pub(crate) fn begin(&mut self) {
        self.last = None;
        set(&mut self.linked, None);
        self.is_requested = true;
    }

    /// A robots file was received, of which a journal may get the text. Without memory for that it gets none.
    pub(crate) fn note_chain(&mut self, hops: &Hops) {
        self.chain = if is_lasting(hops) {
            chain_text(self.alloc, hops).unwrap_or(None)
        } else {
            None
        };
    }

    /// The text of the robots file that was received last, unless it was taken.
    pub(crate) fn take_chain(&mut self) -> Option<Vec<u8>> {
        self.chain.take()
    }

    /// The text of a page's answer, the last one, as [`crate::PartsOverTcp::answer_text`] has it.
    pub(crate) fn answer_text(
        &self,
        at: &Address,
        outcome: &Outcome,
    ) -> Result<Option<Vec<u8>>, AllocError> {
        if !self.is_requested || is_passing(outcome) {
            return Ok(None);
        }
        answer_text(self.alloc, at, outcome)
    }

    /// The answer of this outcome again, which has no file. None if it can't be said again.
    pub(crate) fn repeated(
        &mut self,
        at: &Address,
        outcome: &Outcome,
        links: LinkRules,
        limits: Limits,
    ) -> Result<Option<Answer<KeptPart>>, AllocError>
        ensures { IfOk result (λ found. IfSome found (IsRepeatedIn (links, limited limits) at.now outcome.now)) }
    {
        let Some(head) = earlier_answers::head_of(self.alloc, outcome)? else {
            return Ok(None);
        };
        let mut wire = SliceWire::new(head.as_slice());
        let answer = answer_over(self.alloc, &mut wire, at, &mut self.passing, links, limits)?;
        if answer.outcome.same(outcome) {
            Ok(Some(not_received(answer)))
        } else {
            Ok(None)
        }
    }

    /// Whether a page of this address is kept.
    pub(crate) fn keeps(&self, page: &Address) -> bool {
        match &self.rules {
            Some(rules) => rules.keeps(page),
            None => true,
        }
    }

    /// Writes the bodies for whose files there was no descriptor. No connection of this worker is in use now, and those that wait are
    /// ended.
    pub(crate) fn write_late(&self) {
        if self.parts.has_late(self.rt) {
            self.kept.end_waiting(self.rt);
            self.parts.write_late(self.rt);
        }
    }

    /// The answer. The file of its body is known by its digest from then on, if it has one.
    pub(crate) fn taken(&mut self, answer: Answer<Digested<KeptPart>>) -> Answer<KeptPart>
        ensures { result ≡ without_digest answer }
    {
        let Answer { outcome, body } = answer;
        let Digested { kept, digest } = body;
        self.last = mark_of(digest);
        Answer {
            outcome,
            body: kept,
        }
    }

    // What counts the bytes of the file of a page's own name, if its part is that file, which may stay, or a link to it. There is a link only
    // if the page has a digest and the disk has such links: a file whose time counts has to keep it.
    fn part_of(&mut self, page: &EarlierPage<'_, R::File>) -> Option<PartCounter>
        ensures { IfSome result (λ part. part.standing ≡ Named → self.old.may_stay ≡ true) }
    {
        let path = page.own_path()?;
        if self.may_stay {
            return self.linker.stay(path, page.file());
        }
        match page.entry().mark() {
            Mark::Digest(_) => self.linker.link(path, page.file()),
            Mark::Changed(_) => None,
        }
    }

    // A page that was read again is the answer, if it was. Its file is known as it was before, unless its digest is known now.
    fn again(
        &mut self,
        read: Option<Answer<Digested<KeptPart>>>,
        mark: Mark,
    ) -> Option<Answer<KeptPart>>
        ensures { result ≡ option_map (λ answer. not_received (without_digest answer)) read }
    {
        let answer = not_received(self.taken(read?));
        self.last = self.last.or(Some(mark));
        Some(answer)
    }

    // What this sink read of a page's file, if it did and the file is in its place.
    fn in_place(
        &mut self,
        sink: PageSink<Digesting<PartCounter>>,
        read: Option<Answer<Digested<KeptPart>>>,
    ) -> Option<Answer<Digested<KeptPart>>>
        ensures { IfSome result (λ answer. read ≡ Some answer) }
    {
        if read.is_none() || !self.linker.is_in_place() {
            drop(sink);
            return None;
        }
        set(&mut self.linked, Some(sink));
        read
    }

    // What is read of a page's file into a sink of its own, whose part is the file, or a link to it.
    fn read_linked(
        &mut self,
        part: PartCounter,
        at: &Address,
        page: EarlierPage<'_, R::File>,
        links: LinkRules,
        limits: Limits,
    ) -> Result<Option<Answer<Digested<KeptPart>>>, AllocError>
        ensures { IfOk result (λ found. IfSome found (IsReadAgain holds_received (limited limits) links at.now page.entry.entry)) }
    {
        let digests = self.digests || has_digest(page.entry().mark());
        let mut sink = PageSink::new(self.alloc, Digesting::new(part, digests));
        match read_into(self.alloc, page, at, &mut sink, links, limits) {
            Ok(read) => Ok(self.in_place(sink, read)),
            Err(error) => {
                drop(sink);
                Err(error)
            }
        }
    }

    // What is read of a page's file. Its part is the file, or a link to it, if that can be, else a copy.
    fn read_file(
        &mut self,
        at: &Address,
        page: EarlierPage<'_, R::File>,
        links: LinkRules,
        limits: Limits,
    ) -> Result<Option<Answer<Digested<KeptPart>>>, AllocError>
        ensures { IfOk result (λ found. IfSome found (IsReadAgain holds_received (limited limits) links at.now page.entry.entry)) }
    {
        match self.part_of(&page) {
            Some(part) => self.read_linked(part, at, page, links, limits),
            None => read_into(self.alloc, page, at, &mut self.sink, links, limits),
        }
    }

    // The page of an earlier run again, if this file of it still has the bytes that it had.
    fn read_again(
        &mut self,
        at: &Address,
        page: EarlierPage<'_, R::File>,
        links: LinkRules,
        limits: Limits,
    ) -> Result<Option<Answer<KeptPart>>, AllocError>
        ensures { IfOk result (λ found. IfSome found (IsRecordedIn (links, limited limits) at.now page.entry.entry)) }
    {
        let mark = page.entry().mark();
        let read = self.read_file(at, page, links, limits)?;
        Ok(self.again(read, mark))
    }

    // The same of one of two files: this one, and the other that the page may have.
    fn read_one(
        &mut self,
        at: &Address,
        mut page: EarlierPage<'_, R::File>,
        links: LinkRules,
        limits: Limits,
    ) -> Result<Option<Answer<KeptPart>>, AllocError>
        ensures { IfOk result (λ found. IfSome found (IsRecordedIn (links, limited limits) at.now page.entry.entry)) }
    {
        let other = page.take_other();
        if let Some(answer) = self.read_again(at, page, links, limits)? {
            return Ok(Some(answer));
        }
        match other {
            Some(other) => self.read_again(at, other, links, limits),
            None => Ok(None),
        }
    }

    /// The page of an earlier run again, if one of the files that may be its, three at most, still has the bytes that it had.
    pub(crate) fn replayed(
        &mut self,
        at: &Address,
        mut page: EarlierPage<'_, R::File>,
        links: LinkRules,
        limits: Limits,
    ) -> Result<Option<Answer<KeptPart>>, AllocError>
        ensures { IfOk result (λ found. IfSome found (IsRecordedIn (links, limited limits) at.now page.entry.entry)) }
    {
        let other = page.take_other();
        if let Some(answer) = self.read_again(at, page, links, limits)? {
            return Ok(Some(answer));
        }
        match other {
            Some(other) => self.read_one(at, other, links, limits),
            None => Ok(None),
        }
    }

    /// What an index or a journal gets of a page and its answer, the last one, as [`crate::PartsOverTcp::note`] has it.
    pub(crate) fn note(
        &self,
        at: &Address,
        answer: &Answer<KeptPart>,
    ) -> Result<Option<IndexNote>, AllocError> {
        let Some(status) = status_noted(answer) else {
            return Ok(None);
        };
        let at = at.try_clone()?;
        let head = match &self.linked {
            Some(sink) => head_of(self.alloc, status, sink)?,
            None => head_of(self.alloc, status, &self.sink)?,
        };
        Ok(Some(IndexNote {
            at,
            len: answer.body.len,
            mark: self.last,
            head,
        }))
    }
}

/// The first status that says that the server failed (RFC 9110, section 15.6).
const FIRST_SERVER_ERROR: u16 = 500;

// Whether another answer is to be expected soon: the server failed, waited in vain, or has too much to do (RFC 9110, sections 15.5.9 and
// 15.6; RFC 6585, section 4).
fn is_passing_status(status: u16) -> bool {
    status == 408 || status == 429 || status >= FIRST_SERVER_ERROR
}

// The same of an outcome.
fn is_passing(outcome: &Outcome) -> bool {
    match outcome {
        Outcome::Leaf(status) | Outcome::Moved(status, _) => is_passing_status(*status),
        Outcome::Page(_, _) | Outcome::Fault(_) => false,
    }
}

// Whether no other robots file is to be expected soon.
fn is_lasting(hops: &Hops) -> bool {
    match hops.hops() {
        [.., (_, Received::Whole(given))] => !is_passing_status(given.response().status),
        _ => false,
    }
}

// This is held from now on.
fn set<T: Drop>(held: &mut Option<T>, value: Option<T>) {
    *held = value;
}

// Whether it is a response of this status that is no redirect.
fn has_status(outcome: &Outcome, said: u16) -> bool
    ensures { result ≡ has_status outcome.now said }
{
    match outcome {
        Outcome::Page(status, _) | Outcome::Leaf(status) => *status == said,
        Outcome::Moved(_, _) | Outcome::Fault(_) => false,
    }
}

// The mark of a body that has a digest.
fn mark_of(digest: Option<[u8; 32]>) -> Option<Mark> {
    match digest {
        Some(digest) => Some(Mark::Digest(digest)),
        None => None,
    }
}

// Whether a file is known by its digest.
fn has_digest(mark: Mark) -> bool {
    match mark {
        Mark::Digest(_) => true,
        Mark::Changed(_) => false,
    }
}

// Whether a body has this mark, as far as its bytes show it: the file that it is read from has the time of one without a digest.
fn has_mark(body: &Digested<KeptPart>, mark: Mark) -> bool
    ensures { IsTrue result → HasMark mark body.now.digest }
{
    match (mark, &body.digest) {
        (Mark::Digest(digest), Some(own)) => own.as_slice() == digest.as_slice(),
        (Mark::Digest(_), None) => false,
        (Mark::Changed(_), _) => true,
    }
}

// Whether an answer is of this status, and its body has this mark.
fn is_recorded(answer: &Answer<Digested<KeptPart>>, mark: Mark, status: u16) -> bool
    ensures { IsTrue result → HasMark mark answer.now.body.digest × (has_status answer.now.outcome status ≡ true) }
{
    has_mark(&answer.body, mark) && has_status(&answer.outcome, status)
}

// The page of an earlier run by this sink, if its file still has the bytes that it had.
fn read_into<F: Read + Drop, K: Keeper<Kept = KeptPart>>(
    alloc: Global,
    page: EarlierPage<'_, F>,
    at: &Address,
    sink: &mut PageSink<Digesting<K>>,
    links: LinkRules,
    limits: Limits,
) -> Result<Option<Answer<Digested<KeptPart>>>, AllocError>
    ensures { IfOk result (λ found. IfSome found (IsReadAgain K.holds (limited limits) links at.now page.entry.entry)) }
{
    let mark = page.entry().mark();
    let status = page.entry().head().status();
    let mut wire = TcpWire::new(page.into_stream()?);
    let answer = answer_over(alloc, &mut wire, at, sink, links, limits)?;
    if is_recorded(&answer, mark, status) {
        Ok(Some(answer))
    } else {
        Ok(None)
    }
}

// An answer whose body was read from an earlier run's file.
fn not_received(answer: Answer<KeptPart>) -> Answer<KeptPart>
    ensures { result ≡ not_received answer }
{
    Answer {
        body: KeptPart {
            is_received: false,
            ..answer.body
        },
        ..answer
    }
}

// The status of a kept page that can be answered again from its file.
fn status_noted(answer: &Answer<KeptPart>) -> Option<u16> {
    match (&answer.outcome, answer.body.kind, answer.body.standing) {
        (_, _, Standing::Lost | Standing::Absent) => None,
        (Outcome::Page(status, _), _, _) => Some(*status),
        (Outcome::Leaf(status), BodyKind::Other, _) => Some(*status),
        _ => None,
    }
}

// A copy of a value, if there is one.
fn copy_of(alloc: Global, value: Option<&[u8]>) -> Result<Option<Vec<u8>>, AllocError> {
    match value {
        Some(value) => Ok(Some(Vec::from_slice(alloc, value)?)),
        None => Ok(None),
    }
}

// What a page's answer was recorded with, by what took it.
fn head_of<K: Keeper>(
    alloc: Global,
    status: u16,
    sink: &PageSink<K>,
) -> Result<KeptHead, AllocError> {
    let kind = copy_of(alloc, sink.content_type())?;
    let tag = copy_of(alloc, sink.etag())?;
    let changed = copy_of(alloc, sink.last_modified())?;
    Ok(KeptHead::new(status, kind, tag, changed))
}
