//! The text of what was received for an origin's robots file: its entry in a record of version 2.
ghost use Rattle.std.specs.Prelude.{◌≡◌, ◌++◌, All, IfOk, IfSome, codes, decimal, flat_map, length, option_map, true, vec_items};
ghost use Rattle.answer_notes.specs.HopChains.{HopValue};
ghost use Rattle.answer_notes.specs.declared.noted.Noted.TheVariants.{Chain};
ghost use Rattle.answer_notes.specs.declared.received.Received.TheVariants.{Whole};
ghost use Rattle.response_reader.specs.Response.{CanBeGiven};
ghost use Rattle.site_records.specs.WrittenEntries.{IsNote, IsReceivedFor, chain_line, hop_entry};
ghost use Rattle.earlier_answers.specs.Texts.{AreWhole, are_readable, chain_text, is_readable};

use address::Address;
use answer_notes::{Given, Hops, Received};
use response_reader::{MAX_HEADS, push_head};
use std::alloc::{AllocError, Global};

// Adds the response of a hop, unless its head is too long to be read again. Whether it was added.
fn push_hop(
    alloc: Global,
    text: &mut Vec<u8>,
    at: &Address,
    given: &Given,
) -> Result<bool, AllocError>
    ensures is { IfOk result (λ added. added ≡ is_readable (Whole given.now)) }
    ensures text { IfOk result (λ added. added ≡ true → text.new.items ≡ text.old.items ++ hop_entry (at.now, Whole given.now)) }
    ensures told { IfOk result (λ added. IsReceivedFor at.now (Whole given.now)) }
{
    let response = given.response();
    let at = at.as_str();
    let body = response.body.as_slice();
    let mut made = Vec::new(alloc);
    push_head(&mut made, response)?;
    let head = made.as_slice();
    if head.len() > MAX_HEADS {
        return Ok(false);
    }
    let len = head.len() + body.len();
    let line = format!(in alloc; "hop {at} {len}\n")?;
    text.extend_from_slice(line.as_bytes())?;
    text.extend_from_slice(head)?;
    text.extend_from_slice(body)?;
    text.push(b'\n')?;
    Ok(true)
}

// Adds the responses of hops, up to one that can't be read again. Whether all were added.
fn push_hops(
    alloc: Global,
    text: &mut Vec<u8>,
    hops: &[(Address, Received)],
) -> Result<bool, AllocError>
    ensures is { IfOk result (λ added. added ≡ are_readable hops.now) }
    ensures text { IfOk result (λ added. added ≡ true → text.new.items ≡ text.old.items ++ flat_map hop_entry hops.now) }
    ensures told { IfOk result (λ added. added ≡ true → All (λ (h : HopValue). IsReceivedFor h.0 h.1) hops.now) }
{
    for (at, received) in hops {
        let Received::Whole(given) = received else {
            return Ok(false);
        };
        if !push_hop(alloc, text, at, given)? {
            return Ok(false);
        }
    }
    Ok(true)
}

// The line of a chain: the root of its origin, and how many hops follow.
fn chain_line(alloc: Global, hops: &Hops) -> Result<Vec<u8>, AllocError>
    ensures { IfOk result (λ line. line.items ≡ chain_line hops.now.of (length hops.now.hops)) }
{
    let root = hops.of().address()?;
    let root = root.as_str();
    let count = hops.hops().len();
    Ok(format!(in alloc; "chain {root} {count}\n")?.into_bytes())
}

/// The text of what was received for an origin's robots file, redirects included: its entry in a record. None if some hop wasn't
/// received, or a head is too long to be read again. Fails only if memory runs out.
pub fn chain_text(alloc: Global, hops: &Hops) -> Result<Option<Vec<u8>>, AllocError>
    ensures text { IfOk result (λ text. option_map vec_items text ≡ chain_text hops.now) }
    ensures note { IfOk result (λ text. IfSome text (λ t. IsNote (Chain hops.now))) }
    ensures whole { IfOk result (λ text. IfSome text (λ t. AreWhole hops.now.hops)) }
{
    // What every origin is holds of this one.
    let _origin = hops.of().as_str();
    let mut text = chain_line(alloc, hops)?;
    if push_hops(alloc, &mut text, hops.hops())? {
        return Ok(Some(text));
    }
    Ok(None)
}
