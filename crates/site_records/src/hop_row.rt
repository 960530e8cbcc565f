//! The hops of a chain, as a record lists them (RFC 9309, section 2.3.1.2).
ghost use Rattle.std.specs.Prelude.{◌≡◌, ◌≤◌, ℕ, List, Some, IfOk, MatchResult, length};
ghost use Rattle.answer_notes.specs.HopChains.{IsAdmitted};
ghost use Rattle.site_records.specs.EntryLines.{IsHopCount};
ghost use Rattle.site_records.specs.Entries.{AreHopsOf, IsBegun, IsHop, IsReceivedIn, chain_start, due};
ghost use Rattle.site_records.specs.inner.Readings.{AddsHop, IsBadHop, IsWrongChain, IsWrongHop, IsWrongRow, NamesDue};
ghost use Rattle.site_records.specs.inner.Said.{said_hop};

use crate::entry_fault::EntryFault;
use crate::entry_line::MAX_HOPS;
use crate::first_line::{counted, first_text_line};
use crate::hop_line::HopLine;
use address::{Address, Origin};
use answer_notes::{Given, Hops, Received};
use response_answer::kind_of_fault;
use response_reader::{SliceWire, read_response};
use site_inputs::{InputLineFault, read_recorded};
use std::alloc::{AllocError, Global};

// What these bytes contain as a response.
pub(crate) fn read_received(alloc: Global, bytes: &[u8]) -> Result<Received, AllocError>
    ensures { IfOk result (IsReceivedIn bytes.now) }
{
    let mut wire = SliceWire::new(bytes);
    match read_response(alloc, &mut wire) {
        Ok(response) => Ok(Received::Whole(Given::new(response))),
        Err(fault) => match kind_of_fault(fault) {
            Some(kind) => Ok(Received::Fault(kind)),
            None => Err(AllocError),
        },
    }
}

// The address that a text names, if a chain leads there.
fn read_due(alloc: Global, next: &Option<Address>, text: &str) -> Result<Address, InputLineFault>
    ensures { NamesDue next.now text.now result }
{
    let at = read_recorded(alloc, text)?;
    let Some(address) = next else {
        return Err(InputLineFault::Line);
    };
    if *address != at {
        return Err(InputLineFault::Line);
    }
    Ok(at)
}

// Takes the line of a hop, with what follows it, if a chain leads to its address.
fn take_hop<'a>(
    alloc: Global,
    next: &Option<Address>,
    line: HopLine<'_>,
    behind: &'a [u8],
) -> Result<(Address, Received, &'a [u8]), InputLineFault>
    ensures { MatchResult result (λ h. AddsHop next.now (said_hop line.entry) behind.now (h.0, h.1) h.2.now) (λ f. IsWrongHop next.now (said_hop line.entry) behind.now f) }
{
    match line {
        HopLine::Whole(text, count) => {
            let at = read_due(alloc, next, text)?;
            let Some((bytes, after)) = counted(behind, count) else {
                return Err(InputLineFault::Line);
            };
            let received = read_received(alloc, bytes)?;
            Ok((at, received, after))
        }
        HopLine::Failed(kind, text) => {
            let at = read_due(alloc, next, text)?;
            Ok((at, Received::Fault(kind), behind))
        }
    }
}

// Takes the hop that a text begins with, if a chain leads to its address.
fn read_hop<'a>(
    alloc: Global,
    next: &Option<Address>,
    text: &'a [u8],
) -> Result<(Address, Received, &'a [u8]), InputLineFault>
    ensures { MatchResult result (λ h. IsHop text.now (h.0, h.1) h.2.now × (next.now ≡ Some h.0)) (λ f. IsBadHop f next.now text.now) }
{
    let Some((line, behind)) = first_text_line(text) else {
        return Err(InputLineFault::Line);
    };
    let Some(line) = HopLine::of(line) else {
        return Err(InputLineFault::Line);
    };
    take_hop(alloc, next, line, behind)
}

/// This many hops, where the chain leads after them, and what follows them in the text.
#[derive(Drop)]
struct HopRow<'a> {
    hops: Vec<(Address, Received)>,
    next: Option<Address>,
    rest: &'a [u8],
}

// Takes so many hops of an origin's chain.
fn read_row<'a>(
    alloc: Global,
    of: &Origin,
    count: usize,
    text: &'a [u8],
) -> Result<HopRow<'a>, EntryFault>
    ensures { MatchResult result (λ row. IsBegun of.now text.now row.hops.items row.rest.now × (length row.hops.items ≡ count) × (row.next ≡ due (chain_start of.now) row.hops.items))
        (λ f. IsWrongRow of.now count text.now f) }
{
    let mut hops = Vec::new(alloc);
    let mut next = Some(of.robots_file()?);
    let mut rest = text;
    'hops: while hops.len() < count {
        match read_hop(alloc, &next, rest) {
            Ok((at, received, after)) => {
                next = received.target(&at)?;
                hops.push((at, received))?;
                rest = after;
            }
            Err(fault) => return Err(EntryFault::Hop(hops.len(), fault)),
        }
    }
    Ok(HopRow { hops, next, rest })
}

/// Takes the chain of an origin, which has so many hops, and gives what follows it in the text.
pub(crate) fn read_chain<'a>(
    alloc: Global,
    of: &Origin,
    count: usize,
    text: &'a [u8],
) -> Result<(Hops, &'a [u8]), EntryFault>
    requires { IsHopCount count }
    ensures { MatchResult result (λ chain. AreHopsOf text.now chain.0.hops chain.1.now × (length chain.0.hops ≡ count) × (chain.0.of ≡ of.now) × IsAdmitted of.now chain.0.hops)
        (λ f. IsWrongChain of.now count text.now f) }
{
    let HopRow { hops, next, rest } = read_row(alloc, of, count, text)?;
    if count < MAX_HOPS && next.is_some() {
        return Err(EntryFault::Own(InputLineFault::Line));
    }
    Ok((Hops::new(of.try_clone()?, hops), rest))
}
