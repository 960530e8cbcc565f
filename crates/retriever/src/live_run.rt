//! A live retrieval: fetchers ask the site, its kept pages are put into a folder, and then the report is written.
ghost use Rattle.std.specs.Prelude.{◌≡◌, ◌<◌, ◌≤◌, ◌++◌, IfOk, IfErr, Ok, OnOk, true, length, map, string_bytes, vec_len};
ghost use Rattle.report.specs.ExitStatus.{exit_status};
ghost use Rattle.local_tree.specs.Folders.{holding};
ghost use Rattle.local_names.specs.Names.{AreDistinct};
ghost use Rattle.retriever.specs.Found.{Finds, outside, torn_line, unchanged_line};
ghost use Rattle.retriever.specs.Keeping.{kept_as};
ghost use Rattle.retriever.specs.Live.{LiveRun};
ghost use Rattle.retriever.specs.Mirrored.{IsPutAs, kept_as_named};
ghost use Rattle.retriever.specs.inner.Live.{IsTornWritten};
ghost use Rattle.retriever.specs.inner.Parts.{IsWrittenAs, last_status};
ghost use Rattle.retriever.specs.inner.Puts.{IsHalfPutBy, IsHaltWritten, IsHarvestPut, IsPutAndWritten, IsPutOf, IsPutWritten, IsStopPut, bare_cause, files_whole};
ghost use Rattle.retriever.specs.Retrieved.{Stopped};
ghost use Rattle.retriever.specs.Rejecting.{IsRetrievedBy};
ghost use Rattle.retriever.specs.Run.{finish_text};

use crate::link_change::{LinkChange, LinkThreads};
use crate::quota::ByLength;
use crate::render::{halt_text, render_harvest};
use fetcher::Fetcher;
use frontier_core::Cause;
use local_tree::{HasKind, Shelf, WriteFault, write_changed_site, write_site};
use observer::{NoObserver, Observer};
use options::{Order, PageNames};
use report::exit_status;
use std::alloc::{AllocError, Global};
use std::io::Write;
use std::sync::Wait;
use std::thread::Threads;
use streams::{WriteFailed, write_text};
use workers::{Halt, Harvest};

/// The line that says that links of some files weren't changed.
const UNCHANGED: &str = "links not changed\n";

// The line for a cause if there is no memory for more.
fn bare_line(cause: Cause) -> &'static str
    ensures { result.now ≡ finish_text (Stopped (bare_cause cause)) }
{
    match cause {
        Cause::Full | Cause::Memory | Cause::Quota => "stopped memory\n",
        Cause::Mismatch => "stopped mismatch\n",
    }
}

// Writes a text, and gives the status of a run that has nothing more to write. The error is that the writer failed: then nothing
// more is written.
fn write_ending<W: Write>(writer: &mut W, text: &[u8], status: u8) -> Result<u8, WriteFailed>
    ensures { IsWrittenAs (W.contents writer.old) (W.contents writer.new) result text.now status }
{
    write_text(writer, text)?;
    Ok(status)
}

// Writes how a retrieval stopped.
fn write_halt<B: Drop, W: Write>(
    alloc: Global,
    with_trace: bool,
    halt: &Halt<B>,
    writer: &mut W,
) -> Result<u8, WriteFailed>
    ensures { IsHaltWritten (IsWrittenAs (W.contents writer.old) (W.contents writer.new) result) with_trace halt.now }
{
    match halt_text(alloc, with_trace, halt) {
        Ok(text) => write_ending(writer, text.as_bytes(), 1),
        Err(_) => write_ending(writer, bare_line(halt.cause).as_bytes(), 1),
    }
}

// Writes a harvest's text, and gives the status of its report.
fn write_report<B: Drop, W: Write>(
    harvest: &Harvest<B>,
    text: &str,
    writer: &mut W,
) -> Result<u8, WriteFailed>
    ensures { IsWrittenAs (W.contents writer.old) (W.contents writer.new) result text.now (exit_status (map (λ recorded. recorded.1) harvest.now.records)) }
{
    write_ending(writer, text.as_bytes(), exit_status(harvest))
}

// Writes one text after another, and gives this status.
fn write_both<W: Write>(
    writer: &mut W,
    first: &str,
    second: &str,
    status: u8,
) -> Result<u8, WriteFailed>
    ensures { IsWrittenAs (W.contents writer.old) (W.contents writer.new) result (first.now ++ second.now) status }
{
    match write_text(writer, first.as_bytes()) {
        Ok(()) => write_ending(writer, second.as_bytes(), status),
        Err(failed) => Err(failed),
    }
}

// The line that says how many files were whole when a put failed.
fn torn_line(alloc: Global, whole: usize) -> Result<String, AllocError>
    ensures { IfOk result (λ line. string_bytes line ≡ torn_line whole) }
{
    format!(in alloc; "files written {whole}\n")
}

// Writes a harvest's text, and after it how many files were whole when a put failed. The text isn't copied for that line, since
// memory may be what failed.
fn write_torn<W: Write>(
    alloc: Global,
    text: &str,
    whole: usize,
    writer: &mut W,
) -> Result<u8, WriteFailed>
    ensures { IsTornWritten (IsWrittenAs (W.contents writer.old) (W.contents writer.new) result) text.now whole }
{
    match torn_line(alloc, whole) {
        Ok(line) => write_both(writer, text, line.as_str(), 3),
        Err(_) => write_ending(writer, b"stopped memory\n", 1),
    }
}

// How many files were whole when a put failed.
fn files_whole(fault: WriteFault) -> usize
    ensures { result ≡ files_whole fault }
{
    match fault {
        WriteFault::Device(whole) => whole,
    }
}

// Writes a harvest's text when its files were put; if links of some weren't changed, with the line that says so.
fn write_put<B: Drop, W: Write>(
    all: bool,
    harvest: &Harvest<B>,
    text: &str,
    writer: &mut W,
) -> Result<u8, WriteFailed>
    ensures { IsPutWritten (IsWrittenAs (W.contents writer.old) (W.contents writer.new) result) all (text.now, exit_status (map (λ recorded. recorded.1) harvest.now.records)) }
{
    if all {
        write_report(harvest, text, writer)
    } else {
        write_both(writer, text, UNCHANGED, 3)
    }
}

// Puts the kept pages of a harvest into the folder under these names, with their links changed. Whether all are that are to be.
fn put_changed<H: Threads, B: HasKind + Drop, D: Shelf<B>>(
    rt: &H,
    alloc: Global,
    names: &[String],
    harvest: &Harvest<B>,
    folder: &mut D,
) -> Result<bool, WriteFault>
    requires count { length names.now ≡ length harvest.now.kept }
    requires distinct { AreDistinct (map string_bytes names.now) }
    ensures whole { IfOk result (λ all. IsPutAs true all (kept_as B.kind_of B.len_of D.holds) (kept_as_named harvest.now (map string_bytes names.now)) harvest.now.bodies (holding D.files D.failed folder.old) (holding D.files D.failed folder.new)) }
    ensures torn { IfErr result (IsHalfPutBy true (kept_as B.kind_of B.len_of D.holds) (kept_as_named harvest.now (map string_bytes names.now)) harvest.now.bodies (holding D.files D.failed folder.old) (holding D.files D.failed folder.new)) }
    ensures quiet { OnOk result (D.failed folder.new ≡ D.failed folder.old) }
{
    let change = LinkChange::of(alloc, harvest, names);
    let crew = LinkThreads::new(rt, &change);
    let pages = harvest.kept();
    let bodies = harvest.bodies();
    write_changed_site(alloc, folder, names, pages, bodies, &change, &crew)
}

// Puts the kept pages of a harvest into the folder under these names, with their links changed or not. Whether all are that are to be.
fn put<H: Threads, B: HasKind + Drop, D: Shelf<B>>(
    rt: &H,
    alloc: Global,
    converts: bool,
    names: &[String],
    harvest: &Harvest<B>,
    folder: &mut D,
) -> Result<bool, WriteFault>
    requires count { length names.now ≡ length harvest.now.kept }
    requires distinct { AreDistinct (map string_bytes names.now) }
    ensures whole { IfOk result (λ all. IsPutAs converts all (kept_as B.kind_of B.len_of D.holds) (kept_as_named harvest.now (map string_bytes names.now)) harvest.now.bodies (holding D.files D.failed folder.old) (holding D.files D.failed folder.new)) }
    ensures torn { IfErr result (IsHalfPutBy converts (kept_as B.kind_of B.len_of D.holds) (kept_as_named harvest.now (map string_bytes names.now)) harvest.now.bodies (holding D.files D.failed folder.old) (holding D.files D.failed folder.new)) }
    ensures quiet { OnOk result (D.failed folder.new ≡ D.failed folder.old) }
{
    if converts {
        return put_changed(rt, alloc, names, harvest, folder);
    }
    match write_site(folder, names, harvest.kept(), harvest.bodies()) {
        Ok(()) => Ok(true),
        Err(fault) => Err(fault),
    }
}

// Puts the kept pages of a harvest into the folder under these names, and then writes its text.
fn put_and_write<H: Threads, B: HasKind + Drop, D: Shelf<B>, W: Write>(
    rt: &H,
    alloc: Global,
    converts: bool,
    names: &[String],
    text: &str,
    harvest: &Harvest<B>,
    folder: &mut D,
    writer: &mut W,
) -> Result<u8, WriteFailed>
    requires count { length names.now ≡ length harvest.now.kept }
    requires distinct { AreDistinct (map string_bytes names.now) }
    ensures { IsPutAndWritten converts (kept_as B.kind_of B.len_of D.holds) (IsWrittenAs (W.contents writer.old) (W.contents writer.new) result) (kept_as_named harvest.now (map string_bytes names.now)) harvest.now.bodies
        (text.now, exit_status (map (λ recorded. recorded.1) harvest.now.records)) (holding D.files D.failed folder.old) (holding D.files D.failed folder.new) }
{
    match put(rt, alloc, converts, names, harvest, folder) {
        Ok(all) => write_put(all, harvest, text, writer),
        Err(fault) => write_torn(alloc, text, files_whole(fault), writer),
    }
}

// Puts and writes a harvest, whose kept pages have their names by these rules; if there is no memory for its names and its text nothing is put.
fn finish_harvest<H: Threads, B: HasKind + Drop, D: Shelf<B>, W: Write>(
    rt: &H,
    alloc: Global,
    converts: bool,
    naming: &PageNames,
    with_trace: bool,
    harvest: &Harvest<B>,
    folder: &mut D,
    writer: &mut W,
) -> Result<u8, WriteFailed>
    ensures { IsHarvestPut converts (kept_as B.kind_of B.len_of D.holds) (IsWrittenAs (W.contents writer.old) (W.contents writer.new) result) naming.now with_trace harvest.now
        (holding D.files D.failed folder.old) (holding D.files D.failed folder.new) }
{
    match render_harvest(alloc, naming, with_trace, harvest) {
        Ok(telling) => put_and_write(
            rt,
            alloc,
            converts,
            telling.names.as_slice(),
            telling.text.as_str(),
            harvest,
            folder,
            writer,
        ),
        Err(_) => write_ending(writer, b"stopped memory\n", 1),
    }
}

// Puts and reports what was retrieved before a stop: a front that the quota ended as a harvest, and of any other stop the cause.
fn finish_halt<H: Threads, B: HasKind + Drop, D: Shelf<B>, W: Write>(
    rt: &H,
    alloc: Global,
    converts: bool,
    naming: &PageNames,
    with_trace: bool,
    halt: &Halt<B>,
    folder: &mut D,
    writer: &mut W,
) -> Result<u8, WriteFailed>
    ensures { IsStopPut converts (kept_as B.kind_of B.len_of D.holds) (IsWrittenAs (W.contents writer.old) (W.contents writer.new) result) naming.now with_trace halt.now.cause halt.now.harvest
        (holding D.files D.failed folder.old) (holding D.files D.failed folder.new) }
{
    match halt.cause {
        Cause::Quota => finish_harvest(
            rt,
            alloc,
            converts,
            naming,
            with_trace,
            &halt.harvest,
            folder,
            writer,
        ),
        Cause::Full => write_halt(alloc, with_trace, halt, writer),
        Cause::Memory => write_halt(alloc, with_trace, halt, writer),
        Cause::Mismatch => write_halt(alloc, with_trace, halt, writer),
    }
}

/// Puts and reports what was retrieved, whose kept pages have their names by these rules, with their links changed or not. The error is
/// that the writer failed.
pub(crate) fn finish<H: Threads, B: HasKind + Drop, D: Shelf<B>, W: Write>(
    rt: &H,
    alloc: Global,
    converts: bool,
    naming: &PageNames,
    with_trace: bool,
    retrieved: &Result<Harvest<B>, Halt<B>>,
    folder: &mut D,
    writer: &mut W,
) -> Result<u8, WriteFailed>
    ensures { IsPutOf converts (kept_as B.kind_of B.len_of D.holds) (IsWrittenAs (W.contents writer.old) (W.contents writer.new) result) naming.now with_trace retrieved.now
        (holding D.files D.failed folder.old) (holding D.files D.failed folder.new) }
{
    match retrieved {
        Ok(harvest) => finish_harvest(
            rt, alloc, converts, naming, with_trace, harvest, folder, writer,
        ),
        Err(halt) => finish_halt(
            rt, alloc, converts, naming, with_trace, halt, folder, writer,
        ),
    }
}

// The status of a run that has nothing more to write: 1 if the writer failed.
fn last_status(told: Result<u8, WriteFailed>) -> u8
    ensures { result ≡ last_status told }
{
    match told {
        Ok(status) => status,
        Err(_) => 1,
    }
}

/// Retrieves as [`live`] does, reports to the observer how many addresses wait, and gives what was retrieved beside the status.
pub(crate) fn live_shown<
    H: Threads + Wait + Sync,
    F: Fetcher + Send,
    D: Shelf<F::Body>,
    W: Write,
    O: Observer + Sync,
>(
    rt: &H,
    alloc: Global,
    order: &Order,
    fetchers: Vec<F>,
    folder: &mut D,
    writer: &mut W,
    observer: &O,
) -> (u8, Result<Harvest<F::Body>, Halt<F::Body>>)
where
    F::Body: HasKind + Send,
    requires some { 0 < vec_len fetchers }
    requires most { vec_len fetchers ≤ 64 }
    ensures lives { LiveRun F.Fetcher (kept_as F.Body.kind_of F.Body.len_of D.holds) order.now fetchers.items (outside (holding D.files D.failed folder.old) (W.contents writer.old))
        (outside (holding D.files D.failed folder.new) (W.contents writer.new)) result.0 }
    ensures retrieved { IfOk result.1 (IsRetrievedBy F.Fetcher order.now.plan fetchers.items) }
{
    let quota = ByLength::of(order);
    let (retrieved, left) = workers::retrieve_shown(
        rt,
        alloc,
        &order.plan,
        &quota,
        fetchers,
        observer,
    );
    // They are dropped before a report is made.
    drop(left);
    let told = finish(
        rt,
        alloc,
        order.converts,
        &order.names,
        order.trace,
        &retrieved,
        folder,
        writer,
    );
    let status = last_status(told);
    (status, retrieved)
}

/// Retrieves the live site that the order says by these fetchers, a worker for each, 1 to 64 of them: requests what its plan wants, puts the
/// kept pages into the folder, each whole and under its name by the order's rules, and then writes the report, after the trace if the order
/// wants one. Returns the status: that of [`exit_status`] for a report. If a put fails, no other is made, and the line `files written K`
/// follows the report, K being how many files are whole; the status is 3. If links are to lead from file to file, each file has its body with
/// its links changed; if some have their bodies as they came, the line `links not changed` follows the report, and the status is 3. If the
/// retrieval stopped, the line of its cause is in place of the report, nothing is put, and the status is 1; so it is if memory runs out. If the
/// order's quota ended it, what was retrieved until then is put and reported. If the writer fails the status is 1, and a front of the text may
/// have been written.
pub fn live<H: Threads + Wait + Sync, F: Fetcher + Send, D: Shelf<F::Body>, W: Write>(
    rt: &H,
    alloc: Global,
    order: &Order,
    fetchers: Vec<F>,
    folder: &mut D,
    writer: &mut W,
) -> u8
where
    F::Body: HasKind + Send,
    requires some { 0 < vec_len fetchers }
    requires most { vec_len fetchers ≤ 64 }
    // What was found and what resulted.
    ensures finds { Finds F.Fetcher (kept_as F.Body.kind_of F.Body.len_of D.holds) order.now fetchers.items (outside (holding D.files D.failed folder.old) (W.contents writer.old))
        (outside (holding D.files D.failed folder.new) (W.contents writer.new)) result }
    // And which events led there.
    ensures lives { LiveRun F.Fetcher (kept_as F.Body.kind_of F.Body.len_of D.holds) order.now fetchers.items (outside (holding D.files D.failed folder.old) (W.contents writer.old))
        (outside (holding D.files D.failed folder.new) (W.contents writer.new)) result }
{
    let (status, retrieved) = live_shown(rt, alloc, order, fetchers, folder, writer, &NoObserver);
    drop(retrieved);
    status
}
