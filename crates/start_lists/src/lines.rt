//! Lists: an address a line.
ghost use Rattle.std.specs.Prelude.{◌≡◌, ◌≢◌, ◌<◌, ◌⊎◌, ◌∷◌, [], IfErr, IfOk, IsTrue, None, OnOk, false, option_map};
ghost use Rattle.address.specs.Address.{AddressText};
ghost use Rattle.html_links.specs.Values.{trimmed};
ghost use Rattle.options.specs.Start.{with_scheme};
ghost use Rattle.start_lists.specs.Lists.{IsList, IsNoList, is_passed, line_start, resolved, starts_of_line, unless_robots, with_scheme_unless};
ghost use Rattle.start_lists.specs.inner.Lines.{Adds, numbered};
ghost use Rattle.start_lists.specs.declared.lines.StartFault.TheVariants as line_fault;

use crate::fault::ListFault;
use crate::resolved::{resolved, unless_robots};
use address::Address;
use options::with_scheme;
use std::alloc::{AllocError, Global};
use std::str;

/// The most lines of a list.
pub const MAX_LINES: usize = 1_000_000;

/// What is wrong with a line.
#[derive(Clone, Copy)]
pub(crate) enum StartFault {
    /// It is no address, or a robots file's.
    Bad,
    /// Memory ran out.
    Memory,
}

impl StartFault {
    ghost use Rattle.std.specs.Prelude.{◌≡◌};
    ghost use Rattle.start_lists.specs.inner.Lines.{numbered};

    // The fault of the line of this number.
    fn at(self, number: usize) -> ListFault
        ensures { result ≡ numbered self number }
    {
        match self {
            StartFault::Bad => ListFault::Line(number),
            StartFault::Memory => ListFault::Memory,
        }
    }
}

// Whether a line names nothing.
fn is_passed(line: &[u8]) -> bool
    ensures { result ≡ is_passed line.now }
{
    match line {
        [first, ..] => *first == b'#',
        [] => true,
    }
}

// What a text names: without a base it is read as START is.
fn named(
    alloc: Global,
    by_proxy: bool,
    base: Option<&Address>,
    text: &str,
) -> Result<Option<Address>, AllocError>
    ensures { IfOk result (λ start. start ≡ unless_robots (resolved by_proxy (option_map (λ b. b.now) base.entry) (with_scheme_unless (option_map (λ b. b.now) base.entry) text.now))) }
{
    if base.is_some() {
        return Ok(unless_robots(resolved(alloc, by_proxy, base, text)?));
    }
    let full = with_scheme(alloc, text)?;
    let found = resolved(alloc, by_proxy, base, full.as_str())?;
    drop(full);
    Ok(unless_robots(found))
}

// What a line names.
#[tactic(auto, unfolding(crate::specs::Lists::line_start))]
fn line_start(
    alloc: Global,
    by_proxy: bool,
    base: Option<&Address>,
    line: &[u8],
) -> Result<Option<Address>, AllocError>
    ensures { IfOk result (λ start. start ≡ line_start by_proxy (option_map (λ b. b.now) base.entry) line.now) }
{
    match str::from_utf8(line) {
        Ok(text) => named(alloc, by_proxy, base, text),
        Err(_) => Ok(None),
    }
}

// A line without the white at both ends.
fn trimmed(line: &[u8]) -> &[u8]
    ensures { result.now ≡ trimmed line.now }
{
    line.trim_ascii()
}

// Adds the start that a line names, if it names one.
fn push_start(starts: &mut Vec<Address>, named: Option<Address>) -> Result<(), StartFault>
    ensures good { OnOk result (Adds (option_map (λ start. start ∷ []) named) starts.old.items starts.new.items) }
    ensures bad { IfErr result (λ wrong. (named ≡ None) ⊎ (wrong ≡ line_fault.Memory)) }
{
    match named {
        Some(start) => match starts.push(start) {
            Ok(()) => Ok(()),
            Err(_) => Err(StartFault::Memory),
        },
        None => Err(StartFault::Bad),
    }
}

// Adds the start of a line, if it has one.
fn push_line(
    alloc: Global,
    starts: &mut Vec<Address>,
    by_proxy: bool,
    base: Option<&Address>,
    line: &[u8],
) -> Result<(), StartFault>
    ensures good { OnOk result (Adds (starts_of_line by_proxy (option_map (λ b. b.now) base.entry) line.now) starts.old.items starts.new.items) }
    ensures bad { IfErr result (λ wrong. (starts_of_line by_proxy (option_map (λ b. b.now) base.entry) line.now ≡ None) ⊎ (wrong ≡ line_fault.Memory)) }
{
    let line = trimmed(line);
    if is_passed(line) {
        return Ok(());
    }
    match line_start(alloc, by_proxy, base, line) {
        Ok(named) => push_start(starts, named),
        Err(_) => Err(StartFault::Memory),
    }
}

// Whether the line of this number is beyond those that a list may have, and isn't empty.
fn is_long(number: usize, line: &[u8]) -> bool
    ensures long { IsTrue result → (line.now ≢ []) × (MAX_LINES < number) }
    ensures short { result ≡ false → MAX_LINES < number → line.now ≡ [] }
{
    number > MAX_LINES && !line.is_empty()
}

/// The starts of a list, in the order of its lines. White at both ends of a line is no part of it; empty lines and those that begin
/// with `#` are passed over. Without a base a line is read as START is; with one it is an absolute URL, or what it gives below the
/// base. The error names the first line that is no address, or says that there are too many lines, or that memory ran out.
pub fn starts_of_list(
    alloc: Global,
    text: &[u8],
    by_proxy: bool,
    base: Option<&Address>,
) -> Result<Vec<Address>, ListFault>
    ensures list { IfOk result (λ starts. IsList by_proxy (option_map (λ b. b.now) base.entry) text.now starts.items) }
    ensures fault { IfErr result (IsNoList by_proxy (option_map (λ b. b.now) base.entry) text.now) }
{
    let mut starts = Vec::new(alloc);
    let mut number = 0;
    for line in text.split(|byte| *byte == b'\n') {
        number += 1;
        if is_long(number, line) {
            drop(starts);
            return Err(ListFault::Long);
        }
        if let Err(fault) = push_line(alloc, &mut starts, by_proxy, base, line) {
            // By a call, since what an exit drops is proved anew at each exit.
            drop(starts);
            return Err(fault.at(number));
        }
    }
    Ok(starts)
}
