//! The entry that is written of a note, in version 2 of records.
ghost use Rattle.std.specs.Prelude.{◌≡◌, ◌≤◌, ◌++◌, ◌∷◌, [], true, false, All, IfOk, MatchOption, OnOk, decimal, flat_map, if◌then◌else◌, length};
ghost use Rattle.std.specs.List.{list_all};
ghost use Rattle.response_reader.specs.declared.limits.TheConstants.{MAX_HEADS};
ghost use Rattle.response_reader.specs.Response.{CanBeGiven};
ghost use Rattle.response_reader.specs.Written.{head_text, response_text};
ghost use Rattle.answer_notes.specs.HopChains.{HopValue};
ghost use Rattle.answer_notes.specs.declared.noted.Noted.TheVariants.{Chain};
ghost use Rattle.site_records.specs.WrittenEntries.{line_of_three, chain_line, counted_entry, received_head, is_short, received_text, hop_entry, has_short_heads, written_note, IsReceivedFor, IsNote};

use address::Address;
use answer_notes::{Given, Hops, Noted, Received};
use response_reader::{MAX_HEADS, push_head};
use std::alloc::{AllocError, Global};
use streams::Pieces;

// A line of three fields.
fn line_of_three(
    alloc: Global,
    first: &str,
    second: &str,
    third: &str,
) -> Result<Vec<u8>, AllocError>
    ensures { IfOk result (λ line. line.items ≡ line_of_three first.now second.now third.now ++ 10 ∷ []) }
{
    Ok(format!(in alloc; "{first} {second} {third}\n")?.into_bytes())
}

// A line of a word, a text and a number.
fn counted_line(alloc: Global, word: &str, text: &str, count: usize) -> Result<Vec<u8>, AllocError>
    ensures { IfOk result (λ line. line.items ≡ line_of_three word.now text.now (decimal count) ++ 10 ∷ []) }
{
    Ok(format!(in alloc; "{word} {text} {count}\n")?.into_bytes())
}

// The head that is written of what was received, unless it is too long to be read again.
fn short_head(alloc: Global, received: &Received) -> Result<Option<Vec<u8>>, AllocError>
    ensures { IfOk result (λ head. MatchOption head (is_short received.now ≡ false) (λ h. (h.items ≡ received_head received.now) × (is_short received.now ≡ true))) }
{
    let mut head = Vec::new(alloc);
    if let Received::Whole(given) = received {
        push_head(&mut head, given.response())?;
    }
    if head.len() > MAX_HEADS {
        return Ok(None);
    }
    Ok(Some(head))
}

// Adds a response under a word, with the head that was made for it.
fn push_whole<'a>(
    alloc: Global,
    pieces: &mut Pieces<'a>,
    word: &str,
    at: &Address,
    given: &'a Given,
    head: &[u8],
) -> Result<(), AllocError>
    requires head { head.now ≡ head_text given.now }
    requires short { length head.now ≤ MAX_HEADS }
    ensures text { OnOk result (pieces.new ≡ pieces.old ++ counted_entry word.now at.now (response_text given.now)) }
    ensures given { OnOk result (CanBeGiven given.now) }
{
    let body = given.response().body.as_slice();
    let len = head.len() + body.len();
    let mut front = counted_line(alloc, word, at.as_str(), len)?;
    front.extend_from_slice(head)?;
    pieces.push_made(front)?;
    pieces.push_lent(body)?;
    pieces.push_lent(b"\n")
}

// Adds what was received for an address, under the word of a response or of a fault; nothing if it couldn't be read again.
fn push_received<'a>(
    alloc: Global,
    pieces: &mut Pieces<'a>,
    word: &str,
    fault_word: &str,
    at: &Address,
    received: &'a Received,
) -> Result<(), AllocError>
    ensures text { OnOk result (pieces.new ≡ pieces.old ++ (if is_short received.now then received_text word.now fault_word.now at.now received.now else [])) }
    ensures told { OnOk result (is_short received.now ≡ true → IsReceivedFor at.now received.now) }
{
    let Some(head) = short_head(alloc, received)? else {
        return Ok(());
    };
    let text = at.as_str();
    match received {
        Received::Whole(given) => push_whole(alloc, pieces, word, at, given, head.as_slice()),
        Received::Fault(kind) => {
            let line = line_of_three(alloc, fault_word, kind.word(), text)?;
            pieces.push_made(line)
        }
    }
}

// Whether all these hops can be read again.
fn are_short(alloc: Global, hops: &[(Address, Received)]) -> Result<bool, AllocError>
    ensures { IfOk result (λ b. b ≡ list_all (λ (h : HopValue). is_short h.1) hops.now) }
{
    for hop in hops {
        if short_head(alloc, &hop.1)?.is_none() {
            return Ok(false);
        }
    }
    Ok(true)
}

// Adds hops that can be read again.
fn push_hops<'a>(
    alloc: Global,
    pieces: &mut Pieces<'a>,
    hops: &'a [(Address, Received)],
) -> Result<(), AllocError>
    requires { list_all (λ (h : HopValue). is_short h.1) hops.now ≡ true }
    ensures text { OnOk result (pieces.new ≡ pieces.old ++ flat_map hop_entry hops.now) }
    ensures told { OnOk result (All (λ (h : HopValue). IsReceivedFor h.0 h.1) hops.now) }
{
    for hop in hops {
        push_received(alloc, pieces, "hop", "hopfault", &hop.0, &hop.1)?;
    }
    Ok(())
}

// The line of a chain.
fn chain_line(alloc: Global, chain: &Hops) -> Result<Vec<u8>, AllocError>
    ensures { IfOk result (λ line. line.items ≡ chain_line chain.now.of (length chain.now.hops)) }
{
    let root = chain.of().address()?;
    counted_line(alloc, "chain", root.as_str(), chain.hops().len())
}

// Adds a chain; nothing if a hop of it couldn't be read again.
fn push_chain<'a>(alloc: Global, pieces: &mut Pieces<'a>, chain: &'a Hops) -> Result<(), AllocError>
    ensures text { OnOk result (pieces.new ≡ pieces.old ++ written_note (Chain chain.now)) }
    ensures note { OnOk result (has_short_heads (Chain chain.now) ≡ true → IsNote (Chain chain.now)) }
{
    let hops = chain.hops();
    if !are_short(alloc, hops)? {
        return Ok(());
    }
    // What every origin is holds of this one.
    let _text = chain.of().as_str();
    pieces.push_made(chain_line(alloc, chain)?)?;
    push_hops(alloc, pieces, hops)
}

/// Adds the entry of a note to a text; nothing if a head of it is written with more than 65,536 bytes and so couldn't be read
/// again. Bodies are lent. Fails only if memory runs out; then a front of the entry may have been added.
pub fn push_note<'a>(
    alloc: Global,
    pieces: &mut Pieces<'a>,
    note: &'a Noted,
) -> Result<(), AllocError>
    ensures text { OnOk result (pieces.new ≡ pieces.old ++ written_note note.now) }
    ensures note { OnOk result (has_short_heads note.now ≡ true → IsNote note.now) }
{
    match note {
        Noted::Page(at, received) => push_received(alloc, pieces, "page", "fault", at, received),
        Noted::Chain(chain) => push_chain(alloc, pieces, chain),
    }
}
