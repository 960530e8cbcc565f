//! The text on a retrieval: its report, or the line of the cause for which it stopped.
ghost use Rattle.std.specs.Prelude.{◌≡◌, ◌++◌, ◌&&◌, IfOk, OnOk, length, map, string_bytes};
ghost use Rattle.harvest.specs.Gathered.{ArePages};
ghost use Rattle.local_names.specs.Names.{AreDistinct};
ghost use Rattle.report.specs.Entries.{harvest_lines_of};
ghost use Rattle.report.specs.Report.{report_text};
ghost use Rattle.retriever.specs.Parts.{shown_of};
ghost use Rattle.retriever.specs.inner.Parts.{IsRead, IsRetrievalWritten, is_borne_out};
ghost use Rattle.retriever.specs.Retrieved.{Stopped};
ghost use Rattle.retriever.specs.Run.{finish_text};
ghost use Rattle.retriever.specs.Keeping.{kinds_of};
ghost use Rattle.retriever.specs.Site.{AreNamesOf};
ghost use Rattle.report.specs.Trace.{trace_text};

use frontier_core::{Cause, Event};
use kept_bodies::{Body, BodyKind};
use local_names::{names, names_with_endings};
use local_tree::HasKind;
use options::PageNames;
use report::{cause_word, exit_status, push_trace, report_text};
use std::alloc::{AllocError, Global};
use workers::{Halt, Harvest};

/// What a run has to write, and the status with which it ends.
#[derive(Drop)]
pub(crate) struct RunOutput {
    pub(crate) text: String,
    pub(crate) status: u8,
    /// The log of rejected links, if there is one.
    pub(crate) rejected: Option<Result<String, AllocError>>,
}

/// The names of a harvest's kept pages, and the text on it.
#[derive(Drop)]
pub(crate) struct Rendered {
    pub(crate) names: Vec<String>,
    pub(crate) text: String,
}

// Adds the trace, if it is to be shown.
fn push_shown(text: &mut String, with_trace: bool, trace: &[Event]) -> Result<(), AllocError>
    ensures ok { OnOk result (string_bytes text.new ≡ string_bytes text.old ++ trace_text (shown_of with_trace trace.now)) }
{
    if with_trace {
        return push_trace(text, trace);
    }
    Ok(())
}

// The kinds of a harvest's kept bodies, in their places.
fn kinds_of<B: HasKind + Drop>(
    alloc: Global,
    harvest: &Harvest<B>,
) -> Result<Vec<BodyKind>, AllocError>
    requires { length harvest.now.bodies ≡ length harvest.now.kept }
    ensures { IfOk result (λ kinds. kinds.items ≡ kinds_of B.kind_of harvest.now.bodies) }
{
    let mut kinds = Vec::new(alloc);
    for i in 0..harvest.kept().len() {
        kinds.push(harvest.kept_body(i).kind_of())?;
    }
    Ok(kinds)
}

// The names of a harvest's kept pages by these rules.
fn names_of<B: HasKind + Drop>(
    alloc: Global,
    naming: &PageNames,
    harvest: &Harvest<B>,
) -> Result<Vec<String>, AllocError>
    ensures naming { IfOk result (λ names. AreNamesOf naming.now harvest.now.kept (kinds_of B.kind_of harvest.now.bodies) (map string_bytes names.items)) }
    ensures count { IfOk result (λ names. length names.items ≡ length harvest.now.kept) }
    ensures distinct { IfOk result (λ names. AreDistinct (map string_bytes names.items)) }
    ensures pages { ArePages harvest.now }
{
    let pages = harvest.kept();
    if naming.has_endings {
        let kinds = kinds_of(alloc, harvest)?;
        return names_with_endings(alloc, &naming.rules, pages, &kinds);
    }
    names(alloc, &naming.rules, pages)
}

/// The names of a harvest's kept pages by these rules, and its text: its trace, if it is to be shown, and its report, in which
/// these pages have their names.
pub(crate) fn render_harvest<B: HasKind + Drop>(
    alloc: Global,
    naming: &PageNames,
    with_trace: bool,
    harvest: &Harvest<B>,
) -> Result<Rendered, AllocError>
    ensures naming { IfOk result (λ telling. AreNamesOf naming.now harvest.now.kept (kinds_of B.kind_of harvest.now.bodies) (map string_bytes telling.names.items)) }
    ensures count { IfOk result (λ telling. length telling.names.items ≡ length harvest.now.kept) }
    ensures distinct { IfOk result (λ telling. AreDistinct (map string_bytes telling.names.items)) }
    ensures text { IfOk result (λ telling. string_bytes telling.text
        ≡ trace_text (shown_of with_trace harvest.now.trace) ++ report_text (harvest_lines_of harvest.now (map string_bytes telling.names.items))) }
    ensures read { IfOk result (λ telling. IsRead harvest.now) }
{
    let trace = harvest.trace();
    let names = names_of(alloc, naming, harvest)?;
    let report = report_text(alloc, harvest, names.as_slice())?;
    let mut text = String::new(alloc);
    push_shown(&mut text, with_trace, trace)?;
    text.push_str(report.as_str())?;
    Ok(Rendered { names, text })
}

// Whether the checks of a retrieval that stopped for this cause bear out what it found.
fn is_borne_out(cause: Cause) -> bool
    ensures { result ≡ is_borne_out cause }
{
    match cause {
        Cause::Full | Cause::Memory | Cause::Quota => true,
        Cause::Mismatch => false,
    }
}

/// The text of a retrieval that stopped: its trace, if it is to be shown and no check failed, and the line of the cause.
pub(crate) fn halt_text<B: Drop>(
    alloc: Global,
    with_trace: bool,
    halt: &Halt<B>,
) -> Result<String, AllocError>
    ensures { IfOk result (λ text. string_bytes text ≡ trace_text (shown_of (is_borne_out halt.now.cause && with_trace) halt.now.harvest.trace) ++ finish_text (Stopped halt.now.cause)) }
{
    let mut text = String::new(alloc);
    let with_trace = is_borne_out(halt.cause) && with_trace;
    push_shown(&mut text, with_trace, halt.harvest.trace())?;
    let word = cause_word(halt.cause);
    writeln!(text, "stopped {word}")?;
    Ok(text)
}

/// The text on what was retrieved, whose kept pages have their names by these rules, beside this log of rejected links.
pub(crate) fn render_retrieval(
    alloc: Global,
    naming: &PageNames,
    with_trace: bool,
    retrieved: &Result<Harvest<Body>, Halt<Body>>,
    rejected: Option<Result<String, AllocError>>,
) -> Result<RunOutput, AllocError>
    ensures told { IfOk result (λ output. IsRetrievalWritten naming.now with_trace retrieved.now (string_bytes output.text) output.status) }
    ensures rejected { IfOk result (λ output. output.rejected ≡ rejected) }
{
    match retrieved {
        Ok(harvest) => {
            let Rendered { names: _, text } = render_harvest(alloc, naming, with_trace, harvest)?;
            let status = exit_status(harvest);
            Ok(RunOutput {
                text,
                status,
                rejected,
            })
        }
        Err(halt) => {
            let text = halt_text(alloc, with_trace, halt)?;
            Ok(RunOutput {
                text,
                status: 1,
                rejected,
            })
        }
    }
}
