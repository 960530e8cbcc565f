//! Pages that are requested: as one answer with its body, or with a body that goes to a keeper while it arrives.
ghost use Rattle.std.specs.Prelude.{◌≡◌, ◌⊎◌, ◌≤◌, ◌+◌, [], ◌∷◌, ◌++◌, true, false, IsTrue, Some, IfOk, IfSome, IfNone, OnOk, OnErr};
ghost use Rattle.std.specs.Io.KnownBytes.{IsAtEnd, Keeps};
ghost use Rattle.response_reader.specs.Wire.{counted, OfBytes, IsLostInTime};
ghost use Rattle.response_reader.specs.Limits.{limited, standard};
ghost use Rattle.response_reader.specs.Reusable.{Reusable};
ghost use Rattle.address.specs.Address.{origin_of};
ghost use Rattle.response_answer.specs.KindsOfFaults.{kind_of_fault};
ghost use Rattle.fetcher.specs.declared.fault_kind.FaultKind.{FaultKind};
ghost use Rattle.fetcher.specs.declared.fetcher.Ask.TheVariants as ask;
ghost use Rattle.fetcher.specs.Logs.{GainedAtMost};
ghost use Rattle.kept_bodies.specs.Bodies.{no_body};
ghost use Rattle.fetcher.specs.declared.outcome.Outcome.TheVariants as outcome;
ghost use Rattle.connect.specs.Connects.{Stays};
ghost use Rattle.http_fetcher.specs.Fetching.{AnsweredOnKept, AnsweredOnNew, AnsweredWithRetry, AnswersBytes, ComesOver, IsUnansweredOn, LeavesUsable, NoAnswerOnKept, StandsBy, StandsForOne, is_given_up, question_of};
ghost use Rattle.http_fetcher.specs.Notes.{NotesPage};
ghost use Rattle.http_fetcher.specs.Meanings.{MayAnswerWithin};

use super::HttpFetcher;
use super::exchange::REQUEST_TIMEOUT;
use crate::unasked::unread;
use address::{Address, Origin};
use answer_notes::Noted;
use connect::{Connect, ConnectFault};
use fetcher::{Answer, Ask, Body, FaultKind, Outcome};
use kept_bodies::Keeper;
use requests::SendFault;
use response_answer::PageSink;
use response_reader::{Limits, ReadFault, Wire, read_if_any, read_into};
use std::alloc::AllocError;

// Whether the server reported that it had given up waiting for the request.
fn says_given_up(outcome: &Outcome) -> bool
    ensures { result ≡ is_given_up outcome.now }
{
    match outcome {
        Outcome::Leaf(status) => *status == REQUEST_TIMEOUT,
        _ => false,
    }
}

impl<C: Connect> HttpFetcher<C> {
    // Requests a page. Fails only if memory runs out.
    pub(super) fn ask_page(&mut self, at: &Address) -> Result<Answer<Body>, AllocError>
        ensures asks { self.new.asks ≡ self.old.asks }
        ensures links { self.new.links ≡ self.old.links }
        ensures keeps { self.new.keeps ≡ self.old.keeps }
        ensures sends { self.new.sends ≡ self.old.sends }
        ensures is_recording { self.new.is_recording ≡ self.old.is_recording }
        ensures notes { self.new.notes ≡ self.old.notes }
        ensures one { self.old.keeps ≡ false → OnOk result (C.made self.new.connect ≡ counted (C.made self.old.connect) 1) }
        ensures most { C.made self.new.connect ≤ C.made self.old.connect + 1 }
        ensures told { IfOk result (AnsweredWithRetry C.Connect C.Wire.Wire standard self.old self.new at.now) }
        ensures stands { StandsBy C.Connect C.Wire.Wire standard self.old self.new at.now }
    {
        let received = self.exchange(at)?;
        let answer = received.into_answer(self.alloc, at, self.links)?;
        Ok(answer)
    }

    // Requests a page, and notes what was received. Fails only if memory runs out; then nothing is noted.
    pub(super) fn ask_and_note(&mut self, at: &Address) -> Result<Answer<Body>, AllocError>
        ensures asks { self.new.asks ≡ self.old.asks }
        ensures links { self.new.links ≡ self.old.links }
        ensures keeps { self.new.keeps ≡ self.old.keeps }
        ensures sends { self.new.sends ≡ self.old.sends }
        ensures is_recording { self.new.is_recording ≡ self.old.is_recording }
        ensures one { self.old.keeps ≡ false → OnOk result (C.made self.new.connect ≡ counted (C.made self.old.connect) 1) }
        ensures most { C.made self.new.connect ≤ C.made self.old.connect + 1 }
        ensures told { IfOk result (AnsweredWithRetry C.Connect C.Wire.Wire standard self.old self.new at.now) }
        ensures stands { StandsBy C.Connect C.Wire.Wire standard self.old self.new at.now }
        ensures noted { IfOk result (λ a. NotesPage self.old.links at.now a self.old.notes self.new.notes) }
        ensures unnoted { OnErr result (self.new.notes ≡ self.old.notes) }
    {
        let name = at.try_clone()?;
        let received = self.exchange(at)?;
        let answer = received.answer(self.alloc, at, self.links)?;
        self.notes.push(Noted::Page(name, received))?;
        Ok(answer)
    }
}

/// What was received of a page over a wire, with its body at a keeper, and whether the connection can be used again.
#[derive(Drop)]
struct ReceivedPage<B> {
    answer: Answer<B>,
    reusable: bool,
}

// Pages whose bodies go to a keeper while they arrive.
impl<C: Connect> HttpFetcher<C> {
    // What a fault means for a page, of which no response was read. Fails only if memory runs out.
    fn unread_page<K: Keeper>(
        &self,
        fault: ReadFault,
        sink: &mut PageSink<K>,
    ) -> Result<ReceivedPage<K::Kept>, AllocError>
        ensures told { IfOk result (λ h. (kind : FaultKind) × (kind_of_fault fault ≡ Some kind) × (h.answer.outcome ≡ outcome.Fault kind) × K.holds h.answer.body no_body) }
        ensures reusable { IfOk result (λ h. h.reusable ≡ false) }
    {
        let answer = unread(fault, sink)?;
        Ok(ReceivedPage {
            answer,
            reusable: false,
        })
    }

    // What comes over a wire for a page, once the request was written. Fails only if memory runs out.
    fn read_page<K: Keeper>(
        &mut self,
        wire: &mut C::Wire,
        at: &Address,
        sink: &mut PageSink<K>,
        limits: Limits,
    ) -> Result<ReceivedPage<K::Kept>, AllocError>
        ensures same { self.new ≡ self.old }
        ensures told { IfOk result (λ h. StandsForOne K.holds h.answer (λ real. OfBytes (C.Wire.incoming wire.old)
            (AnswersBytes (question_of (limited limits) self.old at.now) (C.Wire.failed wire.old) (C.Wire.failed wire.new) real))) }
        ensures reusable { IfOk result (λ h. IsTrue h.reusable → Reusable (limited limits) (C.Wire.incoming wire.old) (C.Wire.incoming wire.new) true) }
        ensures written { Keeps (C.Wire.outgoing wire.old) (C.Wire.outgoing wire.new) }
    {
        sink.begin();
        match read_into(self.alloc, wire, sink, limits) {
            Ok(reusable) => {
                let answer = sink.finish(at, self.links)?;
                Ok(ReceivedPage { answer, reusable })
            }
            Err(fault) => self.unread_page(fault, sink),
        }
    }

    // What comes for a page over a wire that served before: none if no byte came. Fails only if memory runs out.
    fn read_kept_page<K: Keeper>(
        &mut self,
        wire: &mut C::Wire,
        at: &Address,
        sink: &mut PageSink<K>,
        limits: Limits,
    ) -> Result<Option<ReceivedPage<K::Kept>>, AllocError>
        ensures same { self.new ≡ self.old }
        ensures silent { IfOk result (λ o. IfNone o (Keeps (C.Wire.incoming wire.old) (C.Wire.incoming wire.new)
            × (IsAtEnd (C.Wire.incoming wire.old) ⊎ IsLostInTime (C.Wire.failed wire.old) (C.Wire.failed wire.new) (C.Wire.timed_out wire.new)))) }
        ensures told { IfOk result (λ o. IfSome o (λ h. StandsForOne K.holds h.answer (λ real. OfBytes (C.Wire.incoming wire.old)
            (AnswersBytes (question_of (limited limits) self.old at.now) (C.Wire.failed wire.old) (C.Wire.failed wire.new) real)))) }
        ensures reusable { IfOk result (λ o. IfSome o (λ h. IsTrue h.reusable → Reusable (limited limits) (C.Wire.incoming wire.old) (C.Wire.incoming wire.new) true)) }
        ensures written { Keeps (C.Wire.outgoing wire.old) (C.Wire.outgoing wire.new) }
    {
        sink.begin();
        match read_if_any(&mut self.room, self.alloc, wire, sink, limits) {
            Ok(Some(reusable)) => {
                let answer = sink.finish(at, self.links)?;
                Ok(Some(ReceivedPage { answer, reusable }))
            }
            Ok(None) => Ok(None),
            Err(fault) => {
                let received = self.unread_page(fault, sink)?;
                Ok(Some(received))
            }
        }
    }

    // What is received of a page over a wire that served before: none if no byte came. Fails only if memory runs out.
    fn page_over_kept<K: Keeper>(
        &mut self,
        wire: &mut C::Wire,
        at: &Address,
        sink: &mut PageSink<K>,
        limits: Limits,
    ) -> Result<Option<ReceivedPage<K::Kept>>, AllocError>
        ensures same { self.new ≡ self.old }
        ensures silent { IfOk result (λ o. IfNone o (IsUnansweredOn C.Wire.Wire (question_of (limited limits) self.old at.now) wire.old)) }
        ensures told { IfOk result (λ o. IfSome o (λ h. StandsForOne K.holds h.answer (ComesOver C.Wire.Wire (question_of (limited limits) self.old at.now) wire.old))) }
        ensures reusable { IfOk result (λ o. IfSome o (λ h. IsTrue h.reusable → LeavesUsable C.Wire.Wire (question_of (limited limits) self.old at.now) wire.old wire.new)) }
    {
        match self.write(wire, at) {
            Ok(()) => self.read_kept_page(wire, at, sink, limits),
            Err(SendFault::Memory) => Err(AllocError),
            Err(SendFault::Device) => {
                if wire.has_timed_out() {
                    let answer = sink.fault(FaultKind::Device)?;
                    return Ok(Some(ReceivedPage {
                        answer,
                        reusable: false,
                    }));
                }
                Ok(None)
            }
        }
    }

    // What is received of a page over a new wire. Fails only if memory runs out.
    fn page_over<K: Keeper>(
        &mut self,
        wire: &mut C::Wire,
        at: &Address,
        sink: &mut PageSink<K>,
        limits: Limits,
    ) -> Result<ReceivedPage<K::Kept>, AllocError>
        ensures same { self.new ≡ self.old }
        ensures told { IfOk result (λ h. StandsForOne K.holds h.answer (ComesOver C.Wire.Wire (question_of (limited limits) self.old at.now) wire.old)) }
        ensures reusable { IfOk result (λ h. IsTrue h.reusable → LeavesUsable C.Wire.Wire (question_of (limited limits) self.old at.now) wire.old wire.new) }
    {
        match self.write(wire, at) {
            Ok(()) => self.read_page(wire, at, sink, limits),
            Err(SendFault::Memory) => Err(AllocError),
            Err(SendFault::Device) => Ok(ReceivedPage {
                answer: sink.fault(FaultKind::Device)?,
                reusable: false,
            }),
        }
    }

    // Requests a page over one new connection. Fails only if memory runs out.
    fn exchange_page_on_new<K: Keeper>(
        &mut self,
        origin: &Origin,
        at: &Address,
        sink: &mut PageSink<K>,
        limits: Limits,
    ) -> Result<Answer<K::Kept>, AllocError>
        requires { origin.now ≡ origin_of at.now }
        ensures asks { self.new.asks ≡ self.old.asks }
        ensures links { self.new.links ≡ self.old.links }
        ensures keeps { self.new.keeps ≡ self.old.keeps }
        ensures sends { self.new.sends ≡ self.old.sends }
        ensures is_recording { self.new.is_recording ≡ self.old.is_recording }
        ensures notes { self.new.notes ≡ self.old.notes }
        ensures one { OnOk result (C.made self.new.connect ≡ counted (C.made self.old.connect) 1) }
        ensures most { C.made self.new.connect ≤ C.made self.old.connect + 1 }
        ensures taken { C.taken self.new.connect ≡ C.taken self.old.connect }
        ensures told { IfOk result (λ a. StandsForOne K.holds a (AnsweredOnNew C.Connect C.Wire.Wire (limited limits) self.old self.new at.now)) }
        ensures stands { StandsBy C.Connect C.Wire.Wire (limited limits) self.old self.new at.now }
    {
        match self.connect.connect(origin) {
            Ok(mut wire) => match self.page_over(&mut wire, at, sink, limits) {
                Ok(received) => {
                    self.put_away(origin, wire, received.reusable);
                    Ok(received.answer)
                }
                Err(oom) => {
                    self.connect.close(wire);
                    Err(oom)
                }
            },
            Err(ConnectFault::Failed) => sink.fault(FaultKind::Connect),
            Err(ConnectFault::Memory) => Err(AllocError),
        }
    }

    // Requests a page over a connection that was kept: none if there was none, no byte came over it, or its server had given up
    // waiting. Fails only if memory runs out.
    fn exchange_page_on_kept<K: Keeper>(
        &mut self,
        origin: &Origin,
        at: &Address,
        sink: &mut PageSink<K>,
        limits: Limits,
    ) -> Result<Option<Answer<K::Kept>>, AllocError>
        requires { origin.now ≡ origin_of at.now }
        ensures asks { self.new.asks ≡ self.old.asks }
        ensures links { self.new.links ≡ self.old.links }
        ensures keeps { self.new.keeps ≡ self.old.keeps }
        ensures sends { self.new.sends ≡ self.old.sends }
        ensures is_recording { self.new.is_recording ≡ self.old.is_recording }
        ensures notes { self.new.notes ≡ self.old.notes }
        ensures made { C.made self.new.connect ≡ C.made self.old.connect }
        ensures refused { C.refused self.new.connect ≡ C.refused self.old.connect }
        ensures gives { IfOk result (λ o. IfNone o (Stays (C.gives self.old.connect) (C.gives self.new.connect))) }
        ensures silent { IfOk result (λ o. IfNone o (NoAnswerOnKept C.Connect C.Wire.Wire (limited limits) self.old self.new at.now)) }
        ensures told { IfOk result (λ o. IfSome o (λ a. StandsForOne K.holds a (AnsweredOnKept C.Connect C.Wire.Wire (limited limits) self.old self.new at.now))) }
        ensures stands { StandsBy C.Connect C.Wire.Wire (limited limits) self.old self.new at.now }
    {
        if !self.keeps {
            return Ok(None);
        }
        let Some(mut wire) = self.connect.take(origin) else {
            return Ok(None);
        };
        match self.page_over_kept(&mut wire, at, sink, limits) {
            Ok(Some(received)) => {
                if says_given_up(&received.answer.outcome) {
                    self.connect.close(wire);
                    return Ok(None);
                }
                self.put_away(origin, wire, received.reusable);
                Ok(Some(received.answer))
            }
            Ok(None) => {
                self.connect.close(wire);
                Ok(None)
            }
            Err(oom) => {
                self.connect.close(wire);
                Err(oom)
            }
        }
    }

    // Requests a page, over a connection that was kept or else one new one, and hands its body to the sink's keeper as it comes.
    // Fails only if memory runs out.
    fn exchange_page<K: Keeper>(
        &mut self,
        at: &Address,
        sink: &mut PageSink<K>,
        limits: Limits,
    ) -> Result<Answer<K::Kept>, AllocError>
        ensures asks { self.new.asks ≡ self.old.asks }
        ensures links { self.new.links ≡ self.old.links }
        ensures keeps { self.new.keeps ≡ self.old.keeps }
        ensures sends { self.new.sends ≡ self.old.sends }
        ensures is_recording { self.new.is_recording ≡ self.old.is_recording }
        ensures notes { self.new.notes ≡ self.old.notes }
        ensures one { self.old.keeps ≡ false → OnOk result (C.made self.new.connect ≡ counted (C.made self.old.connect) 1) }
        ensures most { C.made self.new.connect ≤ C.made self.old.connect + 1 }
        ensures told { IfOk result (λ a. StandsForOne K.holds a (AnsweredWithRetry C.Connect C.Wire.Wire (limited limits) self.old self.new at.now)) }
        ensures stands { StandsBy C.Connect C.Wire.Wire (limited limits) self.old self.new at.now }
        ensures may { IfOk result (λ a. StandsForOne K.holds a (λ real. MayAnswerWithin (limited limits) self.old.links at.now real.outcome real.body)) }
    {
        let origin = Origin::of(at)?;
        match self.exchange_page_on_kept(&origin, at, sink, limits)? {
            Some(answer) => Ok(answer),
            None => self.exchange_page_on_new(&origin, at, sink, limits),
        }
    }

    /// Requests a page as [`Fetcher::ask`] does, except that its body goes to the sink's keeper as it comes, so that it is nowhere
    /// else whole, and within these limits. The answer represents what the site may answer. Nothing is noted.
    pub fn ask_into<K: Keeper>(
        &mut self,
        at: &Address,
        sink: &mut PageSink<K>,
        limits: Limits,
    ) -> Result<Answer<K::Kept>, AllocError>
        ensures asked { OnOk result (self.new.asks ≡ self.old.asks ++ ask.Page at.now ∷ []) }
        ensures refused { OnErr result (GainedAtMost self.old.asks self.new.asks (ask.Page at.now)) }
        // No connection is made before the request is logged.
        ensures first { OnErr result ((C.made self.new.connect ≡ C.made self.old.connect) ⊎ (self.new.asks ≡ self.old.asks ++ ask.Page at.now ∷ [])) }
        ensures links { self.new.links ≡ self.old.links }
        ensures keeps { self.new.keeps ≡ self.old.keeps }
        ensures sends { self.new.sends ≡ self.old.sends }
        // The answer is what came over one connection after its own request. If none are kept, one is made.
        ensures one { self.old.keeps ≡ false → OnOk result (C.made self.new.connect ≡ counted (C.made self.old.connect) 1) }
        ensures most { C.made self.new.connect ≤ C.made self.old.connect + 1 }
        ensures told { IfOk result (λ a. StandsForOne K.holds a (AnsweredWithRetry C.Connect C.Wire.Wire (limited limits) self.old self.new at.now)) }
        ensures stands { StandsBy C.Connect C.Wire.Wire (limited limits) self.old self.new at.now }
        ensures may { IfOk result (λ a. StandsForOne K.holds a (λ real. MayAnswerWithin (limited limits) self.old.links at.now real.outcome real.body)) }
        ensures is_recording { self.new.is_recording ≡ self.old.is_recording }
        ensures notes { self.new.notes ≡ self.old.notes }
    {
        let page = Ask::Page(at.try_clone()?);
        self.asks.push(page)?;
        self.exchange_page(at, sink, limits)
    }
}
