//! One exchange of a request and its response, over a connection that was kept or over a new one.
ghost use Rattle.std.specs.Prelude.{◌≡◌, ◌⊎◌, ◌≤◌, ◌+◌, ℕ, List, true, false, IsTrue, Err, Some, IfOk, IfSome, IfNone, OnOk, OnErr};
ghost use Rattle.html_links.specs.declared.rules.LinkRules.{LinkRules};
ghost use Rattle.std.specs.Io.KnownBytes.{Appends, IsAtEnd, Keeps};
ghost use Rattle.response_reader.specs.Wire.{counted, HasRisen, OfBytes, IsLostInTime};
ghost use Rattle.response_reader.specs.Limits.{standard};
ghost use Rattle.response_reader.specs.Reusable.{Reusable};
ghost use Rattle.address.specs.Address.{AddressText, origin_of};
ghost use Rattle.response_answer.specs.KindsOfFaults.{kind_of_fault};
ghost use Rattle.fetcher.specs.declared.fault_kind.FaultKind.{FaultKind};
ghost use Rattle.fetcher.specs.declared.fault_kind.FaultKind.TheVariants as fault_kind;
ghost use Rattle.answer_notes.specs.Received.{received_outcome};
ghost use Rattle.answer_notes.specs.declared.received.Received.TheVariants as received;
ghost use Rattle.connect.specs.Connects.{Stays};
ghost use Rattle.http_fetcher.specs.Fetching.{AnsweredOnKept, AnsweredOnNew, AnsweredWithRetry, AnswersBytes, ComesOver, IsUnansweredOn, LeavesUsable, NoAnswerOnKept, StandsBy, received_answer, is_given_up, question_of, request_by, usual_request};

use super::HttpFetcher;
use address::{Address, Origin};
use answer_notes::{Given, Received};
use connect::{Connect, ConnectFault};
use fetcher::FaultKind;
use requests::SendFault;
use response_answer::kind_of_fault;
use response_reader::{
    ReadFault, Reply, RequestFault, Wire, read_reply, read_reply_if_any, write_kept_request,
    write_request,
};
use std::alloc::AllocError;

/// The status of a server that had given up waiting for the request (RFC 9110, section 15.5.9).
pub(super) const REQUEST_TIMEOUT: u16 = 408;

// Whether the server reported that it had given up waiting for the request.
fn has_given_up(received: &Received) -> bool
    ensures { (links : LinkRules) (at : AddressText) → result ≡ is_given_up (received_outcome links at received.now) }
{
    match received {
        Received::Whole(given) => given.response().status == REQUEST_TIMEOUT,
        Received::Fault(_) => false,
    }
}

/// What was received over a wire, and whether its connection can be used again.
#[derive(Drop)]
struct Exchange {
    received: Received,
    reusable: bool,
}

// What is received over a wire that failed while the request was written.
fn unwritten() -> Exchange
    ensures told { result.received ≡ received.Fault fault_kind.Device }
    ensures reusable { result.reusable ≡ false }
{
    Exchange {
        received: Received::Fault(FaultKind::Device),
        reusable: false,
    }
}

impl<C: Connect> HttpFetcher<C> {
    // What comes over a wire once the request was written, whatever it was for. Fails only if memory runs out.
    fn read_received(&mut self, wire: &mut C::Wire) -> Result<Exchange, AllocError>
        ensures same { self.new ≡ self.old }
        ensures told { (at : AddressText) → IfOk result (λ h. OfBytes (C.Wire.incoming wire.old)
            (AnswersBytes (question_of standard self.old at) (C.Wire.failed wire.old) (C.Wire.failed wire.new) (received_answer self.old.links at h.received))) }
        ensures reusable { IfOk result (λ h. IsTrue h.reusable → Reusable standard (C.Wire.incoming wire.old) (C.Wire.incoming wire.new) true) }
        ensures written { Keeps (C.Wire.outgoing wire.old) (C.Wire.outgoing wire.new) }
    {
        match read_reply(&mut self.room, self.alloc, wire) {
            Ok(Reply { response, reusable }) => Ok(Exchange {
                received: Received::Whole(Given::new(response)),
                reusable,
            }),
            Err(fault) => self.unread(fault),
        }
    }

    // What a fault means, by which no response was read. Fails only if memory runs out.
    fn unread(&self, fault: ReadFault) -> Result<Exchange, AllocError>
        ensures told { IfOk result (λ h. (kind : FaultKind) × (kind_of_fault fault ≡ Some kind) × (h.received ≡ received.Fault kind)) }
        ensures reusable { IfOk result (λ h. h.reusable ≡ false) }
    {
        match kind_of_fault(fault) {
            Some(kind) => Ok(Exchange {
                received: Received::Fault(kind),
                reusable: false,
            }),
            None => Err(AllocError),
        }
    }

    // What comes over a wire that served before: none if no byte came. Fails only if memory runs out.
    fn read_kept(&mut self, wire: &mut C::Wire) -> Result<Option<Exchange>, AllocError>
        ensures same { self.new ≡ self.old }
        ensures silent { IfOk result (λ o. IfNone o (Keeps (C.Wire.incoming wire.old) (C.Wire.incoming wire.new)
            × (IsAtEnd (C.Wire.incoming wire.old) ⊎ IsLostInTime (C.Wire.failed wire.old) (C.Wire.failed wire.new) (C.Wire.timed_out wire.new)))) }
        ensures told { (at : AddressText) → IfOk result (λ o. IfSome o (λ h. OfBytes (C.Wire.incoming wire.old)
            (AnswersBytes (question_of standard self.old at) (C.Wire.failed wire.old) (C.Wire.failed wire.new) (received_answer self.old.links at h.received)))) }
        ensures reusable { IfOk result (λ o. IfSome o (λ h. IsTrue h.reusable → Reusable standard (C.Wire.incoming wire.old) (C.Wire.incoming wire.new) true)) }
        ensures written { Keeps (C.Wire.outgoing wire.old) (C.Wire.outgoing wire.new) }
    {
        match read_reply_if_any(&mut self.room, self.alloc, wire) {
            Ok(Some(Reply { response, reusable })) => Ok(Some(Exchange {
                received: Received::Whole(Given::new(response)),
                reusable,
            })),
            Ok(None) => Ok(None),
            Err(fault) => {
                let exchange = self.unread(fault)?;
                Ok(Some(exchange))
            }
        }
    }

    // Writes the request with the usual fields, which asks to close the connection unless it is kept.
    fn write_usual(&self, wire: &mut C::Wire, at: &Address) -> Result<(), RequestFault>
        ensures written { OnOk result (Appends (C.Wire.outgoing wire.old) (C.Wire.outgoing wire.new) (usual_request self.now.keeps at.now)) }
        ensures device { OnErr result (HasRisen (C.Wire.failed wire.old) (C.Wire.failed wire.new)) }
        ensures read { Keeps (C.Wire.incoming wire.old) (C.Wire.incoming wire.new) }
    {
        if self.keeps {
            write_kept_request(wire, at)
        } else {
            write_request(wire, at)
        }
    }

    // Writes the request, which asks to close the connection unless it is kept.
    pub(super) fn write(&self, wire: &mut C::Wire, at: &Address) -> Result<(), SendFault>
        ensures written { OnOk result (Appends (C.Wire.outgoing wire.old) (C.Wire.outgoing wire.new) (request_by self.now.sends self.now.keeps at.now)) }
        ensures device { result ≡ Err SendFault.Device → HasRisen (C.Wire.failed wire.old) (C.Wire.failed wire.new) }
        ensures memory { result ≡ Err SendFault.Memory → Keeps (C.Wire.outgoing wire.old) (C.Wire.outgoing wire.new) }
        ensures read { Keeps (C.Wire.incoming wire.old) (C.Wire.incoming wire.new) }
    {
        match &self.sends {
            Some(sending) => requests::write_request(wire, self.alloc, sending, self.keeps, at),
            None => match self.write_usual(wire, at) {
                Ok(()) => Ok(()),
                Err(_) => Err(SendFault::Device),
            },
        }
    }

    // What is received over a new wire. Fails only if memory runs out.
    fn received_over(&mut self, wire: &mut C::Wire, at: &Address) -> Result<Exchange, AllocError>
        ensures same { self.new ≡ self.old }
        ensures told { IfOk result (λ h. ComesOver C.Wire.Wire (question_of standard self.old at.now) wire.old (received_answer self.old.links at.now h.received)) }
        ensures reusable { IfOk result (λ h. IsTrue h.reusable → LeavesUsable C.Wire.Wire (question_of standard self.old at.now) wire.old wire.new) }
        // Nothing is written after the request, and nothing at all if memory runs out for it.
        ensures sent { OnOk result (Appends (C.Wire.outgoing wire.old) (C.Wire.outgoing wire.new) (request_by self.old.sends self.old.keeps at.now)
            ⊎ HasRisen (C.Wire.failed wire.old) (C.Wire.failed wire.new)) }
        ensures unsent { OnErr result (Appends (C.Wire.outgoing wire.old) (C.Wire.outgoing wire.new) (request_by self.old.sends self.old.keeps at.now)
            ⊎ Keeps (C.Wire.outgoing wire.old) (C.Wire.outgoing wire.new)) }
    {
        match self.write(wire, at) {
            Ok(()) => self.read_received(wire),
            Err(SendFault::Device) => Ok(unwritten()),
            Err(SendFault::Memory) => Err(AllocError),
        }
    }

    // What is received over a wire that served before: none if no byte came. Fails only if memory runs out.
    fn received_over_kept(
        &mut self,
        wire: &mut C::Wire,
        at: &Address,
    ) -> Result<Option<Exchange>, AllocError>
        ensures same { self.new ≡ self.old }
        ensures silent { IfOk result (λ o. IfNone o (IsUnansweredOn C.Wire.Wire (question_of standard self.old at.now) wire.old)) }
        ensures told { IfOk result (λ o. IfSome o (λ h. ComesOver C.Wire.Wire (question_of standard self.old at.now) wire.old (received_answer self.old.links at.now h.received))) }
        ensures reusable { IfOk result (λ o. IfSome o (λ h. IsTrue h.reusable → LeavesUsable C.Wire.Wire (question_of standard self.old at.now) wire.old wire.new)) }
    {
        match self.write(wire, at) {
            Ok(()) => self.read_kept(wire),
            Err(SendFault::Memory) => Err(AllocError),
            Err(SendFault::Device) => {
                if wire.has_timed_out() {
                    return Ok(Some(unwritten()));
                }
                Ok(None)
            }
        }
    }

    // Keeps a connection that serves again, and ends another.
    pub(super) fn put_away(&mut self, of: &Origin, wire: C::Wire, reusable: bool)
        ensures asks { self.new.asks ≡ self.old.asks }
        ensures links { self.new.links ≡ self.old.links }
        ensures keeps { self.new.keeps ≡ self.old.keeps }
        ensures sends { self.new.sends ≡ self.old.sends }
        ensures is_recording { self.new.is_recording ≡ self.old.is_recording }
        ensures notes { self.new.notes ≡ self.old.notes }
        ensures made { C.made self.new.connect ≡ C.made self.old.connect }
        ensures refused { C.refused self.new.connect ≡ C.refused self.old.connect }
        ensures taken { C.taken self.new.connect ≡ C.taken self.old.connect }
        ensures stands { (at : List ℕ) (w : C.Wire) → C.stands self.new.connect at w → C.stands self.old.connect at w
            ⊎ ((at ≡ of.now) × (self.old.keeps ≡ true) × (reusable ≡ true) × C.again wire w) }
    {
        if self.keeps && reusable {
            self.connect.give_back(of, wire);
        } else {
            self.connect.close(wire);
        }
    }

    // Asks one question over one new connection. Fails only if memory runs out.
    fn exchange_on_new(&mut self, origin: &Origin, at: &Address) -> Result<Received, AllocError>
        requires { origin.now ≡ origin_of at.now }
        ensures asks { self.new.asks ≡ self.old.asks }
        ensures links { self.new.links ≡ self.old.links }
        ensures keeps { self.new.keeps ≡ self.old.keeps }
        ensures sends { self.new.sends ≡ self.old.sends }
        ensures is_recording { self.new.is_recording ≡ self.old.is_recording }
        ensures notes { self.new.notes ≡ self.old.notes }
        ensures one { OnOk result (C.made self.new.connect ≡ counted (C.made self.old.connect) 1) }
        ensures most { C.made self.new.connect ≤ C.made self.old.connect + 1 }
        ensures taken { C.taken self.new.connect ≡ C.taken self.old.connect }
        ensures told { IfOk result (λ t. AnsweredOnNew C.Connect C.Wire.Wire standard self.old self.new at.now (received_answer self.old.links at.now t)) }
        ensures stands { StandsBy C.Connect C.Wire.Wire standard self.old self.new at.now }
    {
        match self.connect.connect(origin) {
            Ok(mut wire) => match self.received_over(&mut wire, at) {
                Ok(exchange) => {
                    self.put_away(origin, wire, exchange.reusable);
                    Ok(exchange.received)
                }
                Err(oom) => {
                    self.connect.close(wire);
                    Err(oom)
                }
            },
            Err(ConnectFault::Failed) => Ok(Received::Fault(FaultKind::Connect)),
            Err(ConnectFault::Memory) => Err(AllocError),
        }
    }

    // Asks it over a connection that was kept: none if there was none, no byte came over it, or its server had given up waiting.
    // Fails only if memory runs out.
    fn exchange_on_kept(
        &mut self,
        origin: &Origin,
        at: &Address,
    ) -> Result<Option<Received>, AllocError>
        requires { origin.now ≡ origin_of at.now }
        ensures asks { self.new.asks ≡ self.old.asks }
        ensures links { self.new.links ≡ self.old.links }
        ensures keeps { self.new.keeps ≡ self.old.keeps }
        ensures sends { self.new.sends ≡ self.old.sends }
        ensures is_recording { self.new.is_recording ≡ self.old.is_recording }
        ensures notes { self.new.notes ≡ self.old.notes }
        ensures made { C.made self.new.connect ≡ C.made self.old.connect }
        ensures refused { C.refused self.new.connect ≡ C.refused self.old.connect }
        ensures gives { IfOk result (λ o. IfNone o (Stays (C.gives self.old.connect) (C.gives self.new.connect))) }
        ensures silent { IfOk result (λ o. IfNone o (NoAnswerOnKept C.Connect C.Wire.Wire standard self.old self.new at.now)) }
        ensures told { IfOk result (λ o. IfSome o (λ t. AnsweredOnKept C.Connect C.Wire.Wire standard self.old self.new at.now (received_answer self.old.links at.now t))) }
        ensures stands { StandsBy C.Connect C.Wire.Wire standard self.old self.new at.now }
    {
        if !self.keeps {
            return Ok(None);
        }
        let Some(mut wire) = self.connect.take(origin) else {
            return Ok(None);
        };
        match self.received_over_kept(&mut wire, at) {
            Ok(Some(exchange)) => {
                if has_given_up(&exchange.received) {
                    self.connect.close(wire);
                    return Ok(None);
                }
                self.put_away(origin, wire, exchange.reusable);
                Ok(Some(exchange.received))
            }
            Ok(None) => {
                self.connect.close(wire);
                Ok(None)
            }
            Err(oom) => {
                self.connect.close(wire);
                Err(oom)
            }
        }
    }

    // Asks one question, over a connection that was kept or else one new one. Fails only if memory runs out.
    pub(super) fn exchange(&mut self, at: &Address) -> Result<Received, AllocError>
        ensures asks { self.new.asks ≡ self.old.asks }
        ensures links { self.new.links ≡ self.old.links }
        ensures keeps { self.new.keeps ≡ self.old.keeps }
        ensures sends { self.new.sends ≡ self.old.sends }
        ensures is_recording { self.new.is_recording ≡ self.old.is_recording }
        ensures notes { self.new.notes ≡ self.old.notes }
        ensures one { self.old.keeps ≡ false → OnOk result (C.made self.new.connect ≡ counted (C.made self.old.connect) 1) }
        ensures most { C.made self.new.connect ≤ C.made self.old.connect + 1 }
        ensures told { IfOk result (λ t. AnsweredWithRetry C.Connect C.Wire.Wire standard self.old self.new at.now (received_answer self.old.links at.now t)) }
        ensures stands { StandsBy C.Connect C.Wire.Wire standard self.old self.new at.now }
    {
        let origin = Origin::of(at)?;
        match self.exchange_on_kept(&origin, at)? {
            Some(received) => Ok(received),
            None => self.exchange_on_new(&origin, at),
        }
    }
}
