//! Connections in memory, whose peer answers what is stored for the address that is requested.
ghost use Rattle.std.specs.Prelude.{◌≡◌, ◌≢◌, ◌<◌, ◌⊎◌, length, IsTrue, false, Some, None, IfOk, IfSome, IsOk, OnOk, OnErr, Ok, Err, MatchBool, MatchOption, MatchResult, bytes_eq};
ghost use Rattle.std.specs.Io.{ReadsAtMost, WritesAtMost};
ghost use Rattle.std.specs.Io.KnownBytes.{IsAtEnd, ReadConsumes, WriteAppends, Keeps};
ghost use Rattle.response_reader.specs.Request.{request_text, kept_request_text};
ghost use Rattle.response_reader.specs.Wire.{CountsFault, NotesLoss, counted};
ghost use Rattle.connect.specs.Connects.{CountsRefusal, Stays, StaysWith};
ghost use Rattle.memory_connect.specs.Talks.{talk_after_read, talk_after_write, answer_to, asks_for, talk_called, dies, is_death, rested, talk_erred, planned_fault_at, fresh, given_of, grown, is_call, is_connect, is_connection_refused, planned_for, planned_place, talk_settled};
ghost use Rattle.response_reader.specs.declared.wire.WireFault.TheVariants as wire_fault;
ghost use Rattle.connect.specs.declared.connect.ConnectFault.TheVariants as connect_fault;

use address::{Address, Origin};
use connect::{Connect, ConnectFault};
use response_reader::{
    MemoryWire, PlannedFault, Wire, WireFault, write_kept_request, write_request,
};
use std::alloc::{AllocError, Global};
use std::marker::Model;

/// The answer to a request that nothing is stored for.
const NOT_FOUND: &[u8] = b"HTTP/1.1 404 \r\nContent-Length: 0\r\n\r\n";

/// The end of a request (RFC 9112, section 2.1).
const EMPTY_LINE: &[u8] = b"\r\n\r\n";

/// What is answered to the request for an address.
#[derive(Drop)]
pub struct StoredAnswer {
    /// The address.
    pub at: Address,
    /// What is answered; it need not be a response.
    pub bytes: Vec<u8>,
}

/// Where a connection fails.
#[derive(Clone, Copy, Debug, PartialEq, Eq)]
pub enum FailingPlace {
    /// No connection is made.
    Connect,
    /// A call on the wire answers a fault. Reads and writes are counted together, from 0.
    Call(PlannedFault),
    /// It ends while it is kept.
    Idle,
}

/// A connection that is to fail; connections are counted from 0.
#[derive(Clone, Copy, Debug, PartialEq, Eq)]
pub struct PlannedFailure {
    pub connection: u64,
    pub place: FailingPlace,
}

/// Makes connections to a site in memory, whatever the origin, and lets them fail at the planned places.
#[derive(Drop)]
pub struct MemoryConnect<'a> {
    alloc: Global,
    answers: &'a [StoredAnswer],
    failures: &'a [PlannedFailure],
    made: u64,
    refused: u64,
    taken: u64,
    kept: Option<KeptWire<'a>>,
}

/// A connection that is kept, and the origin that it was made for.
#[derive(Drop)]
struct KeptWire<'a> {
    of: Origin,
    wire: StoredWire<'a>,
}

impl<'a> Model for MemoryConnect<'a> {
    ghost use Rattle.std.specs.Prelude.{option_map};
    ghost use Rattle.memory_connect.specs.Talks.{Site};

    ghost Value = { Site };

    ghost view = { λ c. record { answers = c.answers.now; failures = c.failures.now; made = c.made; refused = c.refused; taken = c.taken; kept = option_map (λ k. (k.of, k.wire)) c.kept } };
}

impl<'a> MemoryConnect<'a> {
    /// Connections that answer the request for a stored address, the first if it is stored twice,
    /// by its bytes, and any other request by a status 404, and that fail at these places. They
    /// borrow both, so that many can share one site.
    pub fn new(
        alloc: Global,
        answers: &'a [StoredAnswer],
        failures: &'a [PlannedFailure],
    ) -> MemoryConnect<'a>
        ensures { result ≡ record { answers = answers.now; failures = failures.now; made = 0; refused = 0; taken = 0; kept = None } }
    {
        MemoryConnect {
            alloc,
            answers,
            failures,
            made: 0,
            refused: 0,
            taken: 0,
            kept: None,
        }
    }
}

// Whether the connection of this number isn't to be made.
fn is_refused(failures: &[PlannedFailure], connection: u64) -> bool
    ensures { result ≡ is_connection_refused failures.now connection }
{
    failures.iter().any(|planned| planned.connection == connection && is_connect(&planned.place))
}

fn is_connect(place: &FailingPlace) -> bool
    ensures { result ≡ is_connect place.now }
{
    matches!(place, FailingPlace::Connect)
}

// Whether the connection of this number ends while it is kept.
fn dies(failures: &[PlannedFailure], connection: u64) -> bool
    ensures { result ≡ dies failures.now connection }
{
    failures.iter().any(|planned| planned.connection == connection && is_death(&planned.place))
}

fn is_death(place: &FailingPlace) -> bool
    ensures { result ≡ is_death place.now }
{
    matches!(place, FailingPlace::Idle)
}

impl<'a> Connect for MemoryConnect<'a> {
    type Wire = StoredWire<'a>;

    ghost gives = { λ s _ wire. wire ≡ fresh s };

    ghost made = { λ s. s.made };

    ghost taken = { λ s. s.taken };

    ghost stands = { λ s of wire. s.kept ≡ Some (of, wire) };

    ghost again = { λ left wire. wire ≡ rested left };

    // Only refused connections answer an error.
    ghost failed = { λ s. s.refused };

    ghost refused = { λ s. s.refused };

    fn connect(&mut self, _of: &Origin) -> Result<StoredWire<'a>, ConnectFault>
        ensures given { IfOk result (λ wire. wire ≡ fresh self.old) }
        ensures counted { CountsFault self.old.refused self.new.refused result }
        ensures refused { CountsRefusal self.old.refused self.new.refused result }
        ensures taken { self.new.taken ≡ self.old.taken }
        ensures stands { Stays (λ of wire. self.old.kept ≡ Some (of, wire)) (λ of wire. self.new.kept ≡ Some (of, wire)) }
        // A connection fails exactly if that is planned.
        ensures planned { MatchBool (is_connection_refused self.old.failures self.old.made) (result ≡ Err connect_fault.Failed) (IsOk result) }
        ensures after { self.new ≡ record self.old { made = counted self.old.made 1; refused = self.new.refused } }
    {
        let connection = self.made;
        self.made = self.made.saturating_add(1);
        if is_refused(self.failures, connection) {
            self.refused = self.refused.saturating_add(1);
            return Err(ConnectFault::Failed);
        }
        Ok(StoredWire {
            alloc: self.alloc,
            answers: self.answers,
            failures: self.failures,
            connection,
            request: Vec::new(self.alloc),
            rest: None,
            calls: 0,
            failed: 0,
            lost: false,
        })
    }

    fn take(&mut self, of: &Origin) -> Option<StoredWire<'a>>
        ensures given { IfSome result (λ wire. self.old.kept ≡ Some (of.now, wire)) }
        ensures quiet { IfSome result (λ wire. IsAtEnd wire.rest) }
        ensures made { self.new.made ≡ self.old.made }
        ensures refused { self.new.refused ≡ self.old.refused }
        ensures taken { MatchOption result (self.new.taken ≡ self.old.taken) (λ _. self.new.taken ≡ counted self.old.taken 1) }
        ensures stands { Stays (λ of wire. self.old.kept ≡ Some (of, wire)) (λ of wire. self.new.kept ≡ Some (of, wire)) }
        ensures gives { Stays (λ _ wire. wire ≡ fresh self.old) (λ _ wire. wire ≡ fresh self.new) }
        ensures after { MatchOption result (self.new ≡ self.old)
            (λ _. self.new ≡ record self.old { taken = counted self.old.taken 1; kept = None }) }
    {
        match &self.kept {
            Some(kept) if kept.of.as_str() == of.as_str() && kept.wire.is_at_end() => {}
            _ => return None,
        }
        match self.kept.take() {
            Some(kept) => {
                self.taken = self.taken.saturating_add(1);
                Some(kept.wire)
            }
            None => None,
        }
    }

    // A connection that has still bytes to give is ended, and so is one whose origin finds no memory.
    fn give_back(&mut self, of: &Origin, wire: StoredWire<'a>)
        ensures made { self.new.made ≡ self.old.made }
        ensures refused { self.new.refused ≡ self.old.refused }
        ensures taken { self.new.taken ≡ self.old.taken }
        ensures stands { StaysWith (λ of wire. self.old.kept ≡ Some (of, wire)) (λ of wire. self.new.kept ≡ Some (of, wire)) of.now (λ w. w ≡ rested wire.entry) }
        ensures kept { (IsAtEnd wire.entry.rest × (self.new ≡ record self.old { kept = Some (of.now, rested wire.entry) })) ⊎ (self.new ≡ self.old) }
    {
        if !wire.is_at_end() {
            return;
        }
        if let Ok(of) = of.try_clone() {
            self.kept = Some(KeptWire {
                of,
                wire: wire.rested(),
            });
        }
    }

    fn failures(&self) -> u64 {
        self.refused
    }
}

/// A connection in memory. What is written is a request once it ends with an empty line; from then
/// on its answer is fixed, and before that a read finds the end.
#[derive(Drop)]
pub struct StoredWire<'a> {
    alloc: Global,
    answers: &'a [StoredAnswer],
    failures: &'a [PlannedFailure],
    connection: u64,
    request: Vec<u8>,
    rest: Option<&'a [u8]>,
    calls: u64,
    failed: u64,
    lost: bool,
}

impl<'a> Model for StoredWire<'a> {
    ghost use Rattle.std.specs.Prelude.{option_map};
    ghost use Rattle.memory_connect.specs.Talks.{Talk};

    ghost Value = { Talk };

    ghost view = { λ w. record {
      answers = w.answers.now;
      failures = w.failures.now;
      connection = w.connection;
      request = w.request.items;
      rest = option_map (λ bytes. bytes.now) w.rest;
      calls = w.calls;
      failed = w.failed;
      lost = w.lost;
    } };
}

impl<'a> StoredWire<'a> {
    /// What was written so far.
    pub fn written(&self) -> &[u8]
        ensures { result.now ≡ self.now.request }
    {
        &self.request
    }

    // Whether nothing that is known is to be given.
    fn is_at_end(&self) -> bool
        ensures { IsTrue result → IsAtEnd self.now.rest }
    {
        match self.rest {
            Some(rest) => rest.is_empty(),
            None => true,
        }
    }

    // The same connection, kept.
    fn rested(self) -> StoredWire<'a>
        ensures { result ≡ rested self.entry }
    {
        let dies = dies(self.failures, self.connection);
        StoredWire {
            alloc: self.alloc,
            answers: self.answers,
            failures: self.failures,
            connection: self.connection,
            request: Vec::new(self.alloc),
            rest: if dies { Some(b"") } else { None },
            calls: self.calls,
            failed: self.failed,
            lost: self.lost,
        }
    }

    // Counts a call, and gives the fault that is planned for it.
    fn next_fault(&mut self) -> Option<WireFault>
        ensures fault { result ≡ planned_for self.old.failures self.old.connection self.old.calls }
        ensures after { self.new ≡ talk_called self.old }
    {
        let fault = planned_for(self.failures, self.connection, self.calls);
        self.calls = self.calls.saturating_add(1);
        fault
    }

    // Counts an error, and keeps whether one lost the connection.
    fn note(&mut self, fault: WireFault)
        ensures { self.new ≡ talk_erred self.old fault }
    {
        self.failed = self.failed.saturating_add(1);
        match fault {
            WireFault::Interrupted => {}
            WireFault::Failed => self.lost = true,
        }
    }

    // Fixes the answer to what was written, if this is a whole request and has none yet.
    fn settle(&mut self) -> Result<(), AllocError>
        ensures settled { OnOk result (self.new ≡ talk_settled self.old) }
        ensures kept { OnErr result (self.new ≡ self.old) }
    {
        if self.rest.is_none() && self.request.ends_with(EMPTY_LINE) {
            self.rest = Some(answer_to(self.alloc, self.answers, &self.request)?);
        }
        Ok(())
    }

    // Adds to what was written.
    fn grow(&mut self, bytes: &[u8]) -> Result<(), AllocError>
        ensures grown { OnOk result (self.new ≡ grown self.old bytes.now) }
        ensures kept { OnErr result (self.new ≡ self.old) }
    {
        let len = self.request.len();
        self.request.extend_from_slice(bytes)?;
        match self.settle() {
            Ok(()) => Ok(()),
            Err(e) => {
                self.request.truncate(len);
                Err(e)
            }
        }
    }
}

// The fault that is planned for a call on a connection.
fn planned_for(failures: &[PlannedFailure], connection: u64, call: u64) -> Option<WireFault>
    ensures { result ≡ planned_for failures.now connection call }
{
    match planned_place(failures, connection, call) {
        Some(place) => fault_at(&place),
        None => None,
    }
}

// The first place that is planned for a call on a connection.
fn planned_place(failures: &[PlannedFailure], connection: u64, call: u64) -> Option<FailingPlace>
    ensures { result ≡ planned_place failures.now connection call }
{
    failures
        .iter()
        .find(|planned| planned.connection == connection && is_call(&planned.place, call))
        .map(|planned| planned.place)
}

fn is_call(place: &FailingPlace, call: u64) -> bool
    ensures { result ≡ is_call call place.now }
{
    match place {
        FailingPlace::Connect => false,
        FailingPlace::Call(fault) => fault.call == call,
        FailingPlace::Idle => false,
    }
}

fn fault_at(place: &FailingPlace) -> Option<WireFault>
    ensures { result ≡ planned_fault_at place.now }
{
    match place {
        FailingPlace::Connect => None,
        FailingPlace::Call(fault) => Some(fault.fault),
        FailingPlace::Idle => None,
    }
}

// The answer to a request.
fn answer_to<'a>(
    alloc: Global,
    answers: &'a [StoredAnswer],
    request: &[u8],
) -> Result<&'a [u8], AllocError>
    ensures { IfOk result (λ bytes. bytes.now ≡ answer_to answers.now request.now) }
{
    for stored in answers {
        if is_asked(alloc, &stored.at, request)? {
            return Ok(stored.bytes.as_slice());
        }
    }
    Ok(NOT_FOUND)
}

// Whether the request is one for an address.
fn is_asked(alloc: Global, at: &Address, request: &[u8]) -> Result<bool, AllocError>
    ensures { IfOk result (λ is. is ≡ asks_for at.now request.now) }
{
    if is_closing(alloc, at, request)? {
        return Ok(true);
    }
    is_keeping(alloc, at, request)
}

// Whether it is the one of a connection that closes.
fn is_closing(alloc: Global, at: &Address, request: &[u8]) -> Result<bool, AllocError>
    ensures { IfOk result (λ is. is ≡ bytes_eq (request_text at.now) request.now) }
{
    let mut text = MemoryWire::new(alloc, Vec::new(alloc), Vec::new(alloc), Vec::new(alloc));
    let written = write_request(&mut text, at);
    let is_same = text.written() == request;
    // By a call, as the proof of a drop in place is long.
    drop(text);
    match written {
        Ok(()) => Ok(is_same),
        Err(_) => Err(AllocError),
    }
}

// Whether it is the one of a connection that is kept.
fn is_keeping(alloc: Global, at: &Address, request: &[u8]) -> Result<bool, AllocError>
    ensures { IfOk result (λ is. is ≡ bytes_eq (kept_request_text at.now) request.now) }
{
    let mut text = MemoryWire::new(alloc, Vec::new(alloc), Vec::new(alloc), Vec::new(alloc));
    let written = write_kept_request(&mut text, at);
    let is_same = text.written() == request;
    // By a call, as the proof of a drop in place is long.
    drop(text);
    match written {
        Ok(()) => Ok(is_same),
        Err(_) => Err(AllocError),
    }
}

impl<'a> Wire for StoredWire<'a> {
    ghost incoming = { λ t. t.rest };

    ghost outgoing = { λ t. Some t.request };

    ghost failed = { λ t. t.failed };

    ghost lost = { λ t. t.lost };

    ghost reads_never_fail = { λ _. false };

    // A write may find no memory.
    ghost writes_never_fail = { λ _. false };

    ghost never_errs = { λ _. false };

    ghost timed_out = { λ _. false };

    fn read(&mut self, room: &mut [u8]) -> Result<usize, WireFault>
        ensures bound { ReadsAtMost result room.new }
        ensures bytes { ReadConsumes self.old.rest self.new.rest result room.new }
        ensures written { Keeps (Some self.old.request) (Some self.new.request) }
        ensures counted { CountsFault self.old.failed self.new.failed result }
        ensures lost { NotesLoss self.old.lost self.new.lost result }
        ensures unfailing { IsTrue false → result ≢ Err wire_fault.Failed }
        ensures unerring { IsTrue false → IsOk result }

        // A planned fault comes, and without one as much as there is room for, or all.
        ensures planned { MatchOption (planned_for self.old.failures self.old.connection self.old.calls)
            (result ≡ Ok (given_of self.old.rest (length room.old))) (λ f. result ≡ Err f) }
        ensures after { self.new ≡ talk_after_read self.old result }
    {
        if let Some(fault) = self.next_fault() {
            self.note(fault);
            return Err(fault);
        }
        let Some(rest) = self.rest else {
            return Ok(0);
        };
        let n = room.len().min(rest.len());
        let (front, rest) = rest.split_at(n);
        room[..n].copy_from_slice(front);
        self.rest = Some(rest);
        Ok(n)
    }

    fn write(&mut self, bytes: &[u8]) -> Result<usize, WireFault>
        ensures bound { WritesAtMost result bytes.now }
        ensures some { IfOk result (λ n. 0 < length bytes.now → 0 < n) }
        ensures bytes { WriteAppends (Some self.old.request) (Some self.new.request) result bytes.now }
        ensures read { Keeps self.old.rest self.new.rest }
        ensures counted { CountsFault self.old.failed self.new.failed result }
        ensures lost { NotesLoss self.old.lost self.new.lost result }
        ensures unfailing { IsTrue false → result ≢ Err wire_fault.Failed }

        // A planned fault comes, and without one all is taken or memory ran out.
        ensures planned { MatchOption (planned_for self.old.failures self.old.connection self.old.calls)
            (MatchResult result (λ n. n ≡ length bytes.now) (λ f. f ≡ wire_fault.Failed)) (λ f. result ≡ Err f) }
        ensures after { self.new ≡ talk_after_write self.old bytes.now result }
    {
        if let Some(fault) = self.next_fault() {
            self.note(fault);
            return Err(fault);
        }
        match self.grow(bytes) {
            Ok(()) => Ok(bytes.len()),
            Err(_) => {
                self.note(WireFault::Failed);
                Err(WireFault::Failed)
            }
        }
    }

    fn failures(&self) -> u64 {
        self.failed
    }

    fn has_timed_out(&self) -> bool {
        false
    }
}
