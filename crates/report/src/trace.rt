//! The trace as it is printed: a line for each event of a frontier, in order.
ghost use Rattle.std.specs.Prelude.{◌≡◌, ◌++◌, OnOk, codes, string_bytes};
ghost use Rattle.std.specs.Fmt.{decimal};
ghost use Rattle.report.specs.Trace.{cause_word, event_text, trace_text};

use frontier_core::{Cause, Event};
use std::alloc::AllocError;

/// The word for why a frontier stopped.
pub fn cause_word(cause: Cause) -> &'static str
    ensures { result.now ≡ cause_word cause }
{
    match cause {
        Cause::Full => "full",
        Cause::Memory => "memory",
        Cause::Mismatch => "mismatch",
        Cause::Quota => "quota",
    }
}

// Adds a line of a word and a text.
fn push_word(text: &mut String, word: &str, of: &str) -> Result<(), AllocError>
    ensures ok { OnOk result (string_bytes text.new ≡ string_bytes text.old ++ (word.now ++ codes " " ++ of.now ++ codes "\n")) }
{
    writeln!(text, "{word} {of}")
}

// Adds a line of what a worker did, to which address or origin.
fn push_worker_event(
    text: &mut String,
    word: &str,
    worker: u32,
    target: &str,
) -> Result<(), AllocError>
    ensures ok { OnOk result (string_bytes text.new ≡ string_bytes text.old ++ (word.now ++ codes " " ++ decimal worker ++ codes " " ++ target.now ++ codes "\n")) }
{
    writeln!(text, "{word} {worker} {target}")
}

// Adds a line of how many edges of an address were gone through.
fn push_edges(
    text: &mut String,
    word: &str,
    depth: u32,
    address: &str,
    count: usize,
) -> Result<(), AllocError>
    ensures ok { OnOk result (string_bytes text.new ≡ string_bytes text.old ++ (word.now ++ codes " " ++ decimal depth ++ codes " " ++ address.now ++ codes " " ++ decimal count ++ codes "\n")) }
{
    writeln!(text, "{word} {depth} {address} {count}")
}

// Adds the line of one event.
fn push_event(text: &mut String, event: &Event) -> Result<(), AllocError>
    ensures ok { OnOk result (string_bytes text.new ≡ string_bytes text.old ++ event_text event.now) }
{
    match event {
        Event::Opened(start) => push_word(text, "opened", start.as_str()),
        Event::Page(worker, address) => push_worker_event(text, "page", *worker, address.as_str()),
        Event::Rules(worker, origin) => push_worker_event(text, "rules", *worker, origin.as_str()),
        Event::Answer(worker, address) => push_worker_event(
            text,
            "answer",
            *worker,
            address.as_str(),
        ),
        Event::Ruled(worker, origin) => push_worker_event(text, "ruled", *worker, origin.as_str()),
        Event::Spread(depth, address, count) => push_edges(
            text,
            "spread",
            *depth,
            address.as_str(),
            *count,
        ),
        Event::Part(depth, address, count) => push_edges(
            text,
            "part",
            *depth,
            address.as_str(),
            *count,
        ),
        Event::Abandon(worker, address) => push_worker_event(
            text,
            "abandon",
            *worker,
            address.as_str(),
        ),
        Event::AbandonRules(worker, origin) => push_worker_event(
            text,
            "abandon",
            *worker,
            origin.as_str(),
        ),
        Event::Stop(cause) => push_word(text, "stop", cause_word(*cause)),
    }
}

/// Adds the lines of a trace.
pub fn push_trace(text: &mut String, trace: &[Event]) -> Result<(), AllocError>
    ensures ok { OnOk result (string_bytes text.new ≡ string_bytes text.old ++ trace_text trace.now) }
{
    for event in trace {
        push_event(text, event)?;
    }
    Ok(())
}
