//! A live retrieval that goes on from a record, and whose answers are saved as one.
ghost use Rattle.std.specs.Prelude.{◌≡◌, ◌≢◌, ◌<◌, ◌≤◌, ◌++◌, ℕ, List, Option, IfOk, flat_map, map, vec_len};
ghost use Rattle.site_records.specs.WrittenRecords.{all_noted, record_text};
ghost use Rattle.local_tree.specs.Folders.{holding};
ghost use Rattle.retriever.specs.Parts.{IsDelivered};
ghost use Rattle.retriever.specs.Rejecting.{IsRetrievedBy};
ghost use Rattle.retriever.specs.inner.Parts.{IsWrittenAs};
ghost use Rattle.retriever.specs.Saving.{IsSaved, ResumedRun, SavedRun, notes_of, outside_saved, resumes, resuming_of, save_status, save_text, unsaved_status};

use crate::input_run::deliver;
use crate::live_run::finish;
use crate::quota::ByLength;
use answer_notes::{Noted, Recording};
use kept_bodies::Body;
use local_tree::Folder;
use observer::{NoObserver, Observer};
use options::Order;
use site_records::{RecordFault, RecordedSite, Resumed, write_record};
use std::alloc::{AllocError, Global};
use std::io::Write;
use std::sync::Wait;
use std::thread::Threads;
use streams::WriteFailed;
use workers::{Halt, Harvest};

/// Fetchers that request from these what the record doesn't state, and report to the observer what it does.
pub(crate) fn resuming<'a, F: Recording, O: Observer>(
    alloc: Global,
    recorded: &RecordedSite,
    fetchers: Vec<F>,
    observer: &'a O,
) -> Result<Vec<Resumed<'a, F, O>>, AllocError>
    ensures count { IfOk result (λ all. vec_len all ≡ vec_len fetchers) }
    ensures resuming { IfOk result (λ all. all.items ≡ map (resuming_of F.log recorded.now) fetchers.items) }
{
    let mut all = Vec::new(alloc);
    for fetcher in fetchers {
        all.push(Resumed::new(alloc, recorded.try_clone()?, fetcher, observer))?;
    }
    Ok(all)
}

// The notes that are given, and after them those of each fetcher.
fn parts_of<'a, F: Recording>(
    alloc: Global,
    given: &'a [Noted],
    fetchers: &'a [F],
) -> Result<Vec<&'a [Noted]>, AllocError>
    ensures { IfOk result (λ parts. all_noted parts.items ≡ given.now ++ flat_map F.noted fetchers.now) }
{
    let mut parts = Vec::new(alloc);
    parts.push(given)?;
    for fetcher in fetchers {
        parts.push(fetcher.notes())?;
    }
    Ok(parts)
}

// Saves the notes that are given, and after them those of each fetcher.
fn save<F: Recording, V: Write>(
    alloc: Global,
    given: &[Noted],
    fetchers: &[F],
    saved: &mut V,
) -> Result<(), RecordFault>
    ensures { IsSaved result (V.contents saved.old) (V.contents saved.new) (record_text (given.now ++ flat_map F.noted fetchers.now)) }
{
    let parts = parts_of(alloc, given, fetchers)?;
    write_record(alloc, saved, parts.as_slice())
}

// The status of a run whose record isn't whole, by what it would be else.
fn unsaved_status(status: u8) -> u8
    ensures { result ≡ unsaved_status status }
{
    if status == 1 { 1 } else { 3 }
}

// Writes how the record was saved, and gives the status of the run that has this one without it.
fn write_saving<W: Write>(status: u8, saving: Result<(), RecordFault>, writer: &mut W) -> u8
    ensures { IsDelivered (W.contents writer.old) (W.contents writer.new) (save_text saving) (save_status saving status) result }
{
    match saving {
        Ok(()) => status,
        Err(RecordFault::Device) => {
            deliver(writer, b"record not written\n", unsaved_status(status))
        }
        Err(RecordFault::Memory) => deliver(writer, b"stopped memory\n", 1),
    }
}

// Writes it after what was written, unless the writer failed there.
fn write_saving_after<W: Write>(
    told: Result<u8, WriteFailed>,
    saving: Result<(), RecordFault>,
    writer: &mut W,
) -> u8
    ensures { (before : Option (List ℕ)) (text : List ℕ) (wanted : ℕ) → IsWrittenAs before (W.contents writer.old) told text wanted
        → IsDelivered before (W.contents writer.new) (text ++ save_text saving) (save_status saving wanted) result }
{
    match told {
        Ok(status) => write_saving(status, saving, writer),
        Err(_) => 1,
    }
}

/// Retrieves live, and saves what is given and what the fetchers note; gives what was retrieved beside the status. How many
/// addresses wait is reported to the observer.
pub(crate) fn live_saved<
    H: Threads + Wait + Sync,
    F: Recording + Send,
    D: Folder,
    W: Write,
    V: Write,
    O: Observer + Sync,
>(
    rt: &H,
    alloc: Global,
    order: &Order,
    given: &[Noted],
    fetchers: Vec<F>,
    folder: &mut D,
    writer: &mut W,
    saved: &mut V,
    observer: &O,
) -> (u8, Result<Harvest<Body>, Halt<Body>>)
    requires some { 0 < vec_len fetchers }
    requires most { vec_len fetchers ≤ 64 }
    ensures lives { SavedRun (notes_of F.Fetcher F.noted given.now) order.now fetchers.items (outside_saved (holding D.files D.failed folder.old) (W.contents writer.old) (V.contents saved.old))
        (outside_saved (holding D.files D.failed folder.new) (W.contents writer.new) (V.contents saved.new)) result.0 }
    ensures retrieved { IfOk result.1 (IsRetrievedBy F.Fetcher order.now.plan fetchers.items) }
{
    let quota = ByLength::of(order);
    let (retrieved, left) = workers::retrieve_shown(
        rt,
        alloc,
        &order.plan,
        &quota,
        fetchers,
        observer,
    );
    let saving = save(alloc, given, left.as_slice(), saved);
    // They are dropped before a report is made.
    drop(left);
    let told = finish(
        rt,
        alloc,
        order.converts,
        &order.names,
        order.trace,
        &retrieved,
        folder,
        writer,
    );
    (write_saving_after(told, saving, writer), retrieved)
}

/// Retrieves as [`live`](crate::live) does, except that nothing is requested that the record states, and saves the record's notes
/// and after them what the fetchers noted, however the retrieval ended. This is done before anything is put or written.
/// If the saved record's writer fails, the line `record not written` follows all else, and the status is 3 if it
/// would not be 1; if memory runs out for it, `stopped memory`, with status 1. If there is no memory to begin with,
/// nothing is saved.
pub fn live_resumed<H: Threads + Wait + Sync, F: Recording + Send, D: Folder, W: Write, V: Write>(
    rt: &H,
    alloc: Global,
    order: &Order,
    recorded: &RecordedSite,
    fetchers: Vec<F>,
    folder: &mut D,
    writer: &mut W,
    saved: &mut V,
) -> u8
    requires some { 0 < vec_len fetchers }
    requires most { vec_len fetchers ≤ 64 }
    ensures lives { ResumedRun (resumes F.Fetcher F.noted recorded.now) order.now fetchers.items (outside_saved (holding D.files D.failed folder.old) (W.contents writer.old) (V.contents saved.old))
        (outside_saved (holding D.files D.failed folder.new) (W.contents writer.new) (V.contents saved.new)) result }
{
    match resuming(alloc, recorded, fetchers, &NoObserver) {
        Ok(resuming) => {
            let (status, retrieved) = live_saved(
                rt,
                alloc,
                order,
                recorded.notes(),
                resuming,
                folder,
                writer,
                saved,
                &NoObserver,
            );
            drop(retrieved);
            status
        }
        Err(_) => deliver(writer, b"stopped memory\n", 1),
    }
}
