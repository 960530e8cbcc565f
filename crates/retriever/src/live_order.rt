//! A live order: what it names is taken from the system, a record is read and written if it says so, and its site is retrieved.
ghost use Rattle.std.specs.Prelude.{◌≡◌, ◌≢◌, ◌<◌, ◌≤◌, ◌⊎◌, ℕ, List, All, false, IfOk, IfErr, OnErr, codes, is_some, not, vec_len};
ghost use Rattle.site_records.specs.Records.{IsFault};
ghost use Rattle.local_tree.specs.Folders.{holding};
ghost use Rattle.retriever.specs.Found.{outside};
ghost use Rattle.retriever.specs.Keeping.{kept_as};
ghost use Rattle.retriever.specs.Live.{LiveRun};
ghost use Rattle.retriever.specs.Rejecting.{IsLogLive, IsLogOfCrew, IsLogTaken};
ghost use Rattle.retriever.specs.Resuming.{IsUnresumed};
ghost use Rattle.retriever.specs.Systems.{IsNotRead, IsNotResumed, IsRecordRead, IsRecordTaken, IsResumed, SystemRunResumed, SystemRunByOrder, OrderedRun, SystemRun, SystemRunSaved, SystemRunOnRecord, means, originals_of, settings_of};
ghost use Rattle.retriever.specs.inner.Systems.{AreResuming, is_plain};

use crate::input_run::{MAX_INPUT, deliver};
use crate::live_run::live_shown;
use crate::moves::report_moves;
use crate::quota::report_quota;
use crate::rejected::{hand_over, log_of};
use crate::resume_fault::{ResumeFault, resume_status, resume_text};
use crate::saved_run::{live_saved, resuming};
use early_names::EarlyRules;
use fetcher::Fetcher;
use live_system::{FetcherSettings, HoldFault, RejectedLog, System};
use local_tree::{HasKind, Originals, Shelf};
use options::Order;
use site_inputs::InputFault;
use site_records::{RecordParts, RecordedSite, Resumed};
use std::alloc::{AllocError, Global};
use std::io::Write;
use std::mem;
use std::sync::Wait;
use std::thread::Threads;
use streams::ReadInputFault;
use workers::{Halt, Harvest};

/// A record without entries.
const EMPTY: &[u8] = b"wgetr-record 2\n";

// How the fetcher of one of the order's workers makes its requests.
fn settings_of(
    alloc: Global,
    order: &Order,
    is_recording: bool,
) -> Result<FetcherSettings, AllocError>
    ensures { IfOk result (λ settings. settings ≡ settings_of order.now is_recording) }
{
    Ok(FetcherSettings {
        links: order.links,
        is_recording,
        kept: order.kept(),
        proxies: order.proxies()?,
        sends: order.sending(alloc)?,
        manner: order.manner,
        retries: order.retries.try_clone()?,
        takes_times: order.takes_times,
    })
}

// Fetchers for the order's workers.
fn fetchers_of<S: System>(
    alloc: Global,
    system: &S,
    order: &Order,
) -> Result<Vec<S::Fetcher>, AllocError>
    ensures count { IfOk result (λ fetchers. vec_len fetchers ≡ order.now.workers) }
    ensures made { IfOk result (λ fetchers. All (S.makes system.now (settings_of order.now false)) fetchers.items) }
{
    let mut fetchers = Vec::new(alloc);
    for _ in 0..order.workers {
        let settings = settings_of(alloc, order, false)?;
        let fetcher = system.fetcher(settings)?;
        fetchers.push(fetcher)?;
    }
    Ok(fetchers)
}

// The same, of fetchers that may note what they receive.
fn recorders_of<S: System>(
    alloc: Global,
    system: &S,
    order: &Order,
    is_recording: bool,
) -> Result<Vec<S::Recorder>, AllocError>
    ensures count { IfOk result (λ fetchers. vec_len fetchers ≡ order.now.workers) }
    ensures made { IfOk result (λ fetchers. All (S.makes_recorder system.now (settings_of order.now is_recording)) fetchers.items) }
{
    let mut fetchers = Vec::new(alloc);
    for _ in 0..order.workers {
        let settings = settings_of(alloc, order, is_recording)?;
        let recorder = system.recorder(settings)?;
        fetchers.push(recorder)?;
    }
    Ok(fetchers)
}

// Where the order keeps bodies as they came whose links change.
fn originals_of(order: &Order) -> Originals
    ensures { result ≡ originals_of order.now }
{
    let upkeep = order.upkeep;
    let takes_pages = upkeep.continues || (upkeep.timestamps || upkeep.skips);
    if order.backs_up {
        Originals::Beside
    } else if order.converts && takes_pages {
        Originals::Hidden
    } else {
        Originals::Nowhere
    }
}

// Keeps what was retrieved to the end. To give its memory back to the system, page by page, would take a tenth of a large
// run, and the process ends after it.
fn keep_to_the_end<B: Drop>(retrieved: Result<Harvest<B>, Halt<B>>) {
    mem::forget(retrieved);
}

// Tells the system that the run has ended, and with what.
fn end_index<S: System, B: Drop>(system: &S, retrieved: &Result<Harvest<B>, Halt<B>>) {
    match retrieved {
        Ok(harvest) => system.end_index(harvest, true),
        Err(halt) => system.end_index(&halt.harvest, false),
    }
}

// Retrieves the live site that the order says, by these fetchers, into a folder.
fn run_into<
    H: Threads + Wait + Sync,
    S: System,
    F: Fetcher + Send,
    D: Shelf<F::Body>,
    W: Write,
    L: RejectedLog,
>(
    rt: &H,
    alloc: Global,
    system: &S,
    order: &Order,
    fetchers: Vec<F>,
    folder: &mut D,
    writer: &mut W,
    log: &mut L,
) -> u8
where
    F::Body: HasKind + Send,
    requires some { 0 < vec_len fetchers }
    requires most { vec_len fetchers ≤ 64 }
    ensures lives { LiveRun F.Fetcher (kept_as F.Body.kind_of F.Body.len_of D.holds) order.now fetchers.items (outside (holding D.files D.failed folder.old) (W.contents writer.old))
        (outside (holding D.files D.failed folder.new) (W.contents writer.new)) result }
    ensures logged { IsLogTaken (IsLogOfCrew F.Fetcher order.now fetchers.items) (L.contents log.old) (L.contents log.new) }
{
    let observer = system.observer();
    let (status, retrieved) = live_shown(rt, alloc, order, fetchers, folder, writer, observer);
    report_moves(alloc, system, &retrieved);
    report_quota(system, &retrieved);
    hand_over(log_of(alloc, order, &retrieved), log);
    end_index(system, &retrieved);
    keep_to_the_end(retrieved);
    status
}

// Has the system name files early, by what the order says is kept and how it is named.
fn begin_naming<S: System>(alloc: Global, system: &S, order: &Order) -> Result<(), AllocError> {
    let names = &order.names;
    let rules = EarlyRules::of(alloc, &order.plan, &names.rules, names.has_endings)?;
    system.begin_naming(rules)
}

// Retrieves the live site that the order says, by fetchers of the system, into its folder.
fn run_plain<H: Threads + Wait + Sync, S: System, W: Write, L: RejectedLog>(
    rt: &H,
    alloc: Global,
    system: &S,
    order: &Order,
    writer: &mut W,
    log: &mut L,
) -> Result<u8, AllocError>
    ensures lives { IfOk result (SystemRun (means S.System system.now S.Fetcher.Fetcher S.Recorder.Fetcher S.Recorder.noted (kept_as S.Body.kind_of S.Body.len_of S.Folder.holds) S.Folder.Folder S.Record.Write) order.now (W.contents writer.old) (W.contents writer.new)) }
    ensures unwritten { OnErr result (writer.new ≡ writer.old) }
    ensures logged { IsLogTaken (IsLogLive (means S.System system.now S.Fetcher.Fetcher S.Recorder.Fetcher S.Recorder.noted (kept_as S.Body.kind_of S.Body.len_of S.Folder.holds) S.Folder.Folder S.Record.Write) order.now) (L.contents log.old) (L.contents log.new) }
{
    begin_naming(alloc, system, order)?;
    let fetchers = fetchers_of(alloc, system, order)?;
    let mut folder = system.folder(order.prefix.as_str(), originals_of(order))?;
    Ok(run_into(rt, alloc, system, order, fetchers, &mut folder, writer, log))
}

// Fetchers for the order's workers that ask those of the system for what the record doesn't state.
fn resumed_of<'a, S: System>(
    alloc: Global,
    system: &'a S,
    order: &Order,
    recorded: &RecordedSite,
    is_recording: bool,
) -> Result<Vec<Resumed<'a, S::Recorder, S::Observer>>, AllocError>
    ensures count { IfOk result (λ all. vec_len all ≡ order.now.workers) }
    ensures resumed { IfOk result (λ all. AreResuming (means S.System system.now S.Fetcher.Fetcher S.Recorder.Fetcher S.Recorder.noted (kept_as S.Body.kind_of S.Body.len_of S.Folder.holds) S.Folder.Folder S.Record.Write) order.now is_recording recorded.now all.items) }
{
    let fetchers = recorders_of(alloc, system, order, is_recording)?;
    resuming(alloc, recorded, fetchers, system.observer())
}

// The same by such fetchers.
fn run_recorded<H: Threads + Wait + Sync, S: System, W: Write, L: RejectedLog>(
    rt: &H,
    alloc: Global,
    system: &S,
    order: &Order,
    recorded: &RecordedSite,
    writer: &mut W,
    log: &mut L,
) -> Result<u8, AllocError>
    requires resumed { IsResumed (means S.System system.now S.Fetcher.Fetcher S.Recorder.Fetcher S.Recorder.noted (kept_as S.Body.kind_of S.Body.len_of S.Folder.holds) S.Folder.Folder S.Record.Write) order.now recorded.now }
    ensures lives { IfOk result (SystemRunResumed (means S.System system.now S.Fetcher.Fetcher S.Recorder.Fetcher S.Recorder.noted (kept_as S.Body.kind_of S.Body.len_of S.Folder.holds) S.Folder.Folder S.Record.Write) order.now (W.contents writer.old) (W.contents writer.new)) }
    ensures unwritten { OnErr result (writer.new ≡ writer.old) }
    ensures logged { IsLogTaken (IsLogLive (means S.System system.now S.Fetcher.Fetcher S.Recorder.Fetcher S.Recorder.noted (kept_as S.Body.kind_of S.Body.len_of S.Folder.holds) S.Folder.Folder S.Record.Write) order.now) (L.contents log.old) (L.contents log.new) }
{
    let resumed = resumed_of(alloc, system, order, recorded, false)?;
    let mut folder = system.folder(order.prefix.as_str(), originals_of(order))?;
    Ok(run_into(rt, alloc, system, order, resumed, &mut folder, writer, log))
}

// The same, and what the record says and these fetchers note is saved at the path.
fn run_saving<H: Threads + Wait + Sync, S: System, W: Write, L: RejectedLog>(
    rt: &H,
    alloc: Global,
    system: &S,
    order: &Order,
    recorded: &RecordedSite,
    path: &str,
    writer: &mut W,
    log: &mut L,
) -> Result<u8, AllocError>
    requires resumed { IsResumed (means S.System system.now S.Fetcher.Fetcher S.Recorder.Fetcher S.Recorder.noted (kept_as S.Body.kind_of S.Body.len_of S.Folder.holds) S.Folder.Folder S.Record.Write) order.now recorded.now }
    ensures lives { IfOk result (SystemRunSaved (means S.System system.now S.Fetcher.Fetcher S.Recorder.Fetcher S.Recorder.noted (kept_as S.Body.kind_of S.Body.len_of S.Folder.holds) S.Folder.Folder S.Record.Write) order.now path.now (W.contents writer.old) (W.contents writer.new)) }
    ensures unwritten { OnErr result (writer.new ≡ writer.old) }
    ensures logged { IsLogTaken (IsLogLive (means S.System system.now S.Fetcher.Fetcher S.Recorder.Fetcher S.Recorder.noted (kept_as S.Body.kind_of S.Body.len_of S.Folder.holds) S.Folder.Folder S.Record.Write) order.now) (L.contents log.old) (L.contents log.new) }
{
    let resumed = resumed_of(alloc, system, order, recorded, true)?;
    let mut folder = system.folder(order.prefix.as_str(), originals_of(order))?;
    let mut saved = system.record(path)?;
    let (status, retrieved) = live_saved(
        rt,
        alloc,
        order,
        recorded.notes(),
        resumed,
        &mut folder,
        writer,
        &mut saved,
        system.observer(),
    );
    report_moves(alloc, system, &retrieved);
    report_quota(system, &retrieved);
    hand_over(log_of(alloc, order, &retrieved), log);
    keep_to_the_end(retrieved);
    Ok(status)
}

// Reads a record, with notes of what it states if the order saves; without what failed unless that is taken too.
fn read_bytes(
    alloc: Global,
    bytes: &[u8],
    order: &Order,
    takes_failed: bool,
) -> Result<RecordedSite, InputFault>
    ensures ok { IfOk result (λ r. IsRecordTaken takes_failed (is_some order.now.save) order.now.links bytes.now r) }
    ensures err { IfErr result (IsFault order.now.links bytes.now) }
{
    let parts = RecordParts {
        notes: order.save.is_some(),
        failed: takes_failed,
    };
    RecordedSite::read_parts(alloc, bytes, order.links, parts)
}

// Reads the record at a path, without what failed if the order requests that again.
fn read_record<S: System>(
    alloc: Global,
    system: &S,
    path: &str,
    order: &Order,
) -> Result<RecordedSite, ResumeFault>
    ensures ok { IfOk result (λ r. (bytes : List ℕ) × S.holds system.now path.now bytes × IsRecordTaken (not order.now.retries_failed) (is_some order.now.save) order.now.links bytes r) }
    ensures err { IfErr result (IsNotRead (S.holds system.now path.now) order.now.links) }
{
    let bytes = system.read_file(alloc, path, MAX_INPUT)?;
    Ok(read_bytes(alloc, bytes.as_slice(), order, !order.retries_failed)?)
}

// A record without entries.
fn read_nothing(alloc: Global, order: &Order) -> Result<RecordedSite, AllocError>
    ensures { IfOk result (λ r. IsRecordRead (is_some order.now.save) order.now.links (codes "wgetr-record 2\n") r) }
{
    match read_bytes(alloc, EMPTY, order, true) {
        Ok(recorded) => Ok(recorded),
        Err(_) => Err(AllocError),
    }
}

// What the order resumes: a record without entries if it resumes none.
fn resumption_of<S: System>(
    alloc: Global,
    system: &S,
    order: &Order,
) -> Result<RecordedSite, ResumeFault>
    ensures ok { IfOk result (λ r. IsResumed (means S.System system.now S.Fetcher.Fetcher S.Recorder.Fetcher S.Recorder.noted (kept_as S.Body.kind_of S.Body.len_of S.Folder.holds) S.Folder.Folder S.Record.Write) order.now r) }
    ensures err { IfErr result (IsNotResumed (means S.System system.now S.Fetcher.Fetcher S.Recorder.Fetcher S.Recorder.noted (kept_as S.Body.kind_of S.Body.len_of S.Folder.holds) S.Folder.Folder S.Record.Write) order.now) }
{
    match &order.resume {
        Some(path) => read_record(alloc, system, path.as_str(), order),
        None => Ok(read_nothing(alloc, order)?),
    }
}

// Retrieves with what is recorded, and saves if the order says so.
fn run_on_record<H: Threads + Wait + Sync, S: System, W: Write, L: RejectedLog>(
    rt: &H,
    alloc: Global,
    system: &S,
    order: &Order,
    recorded: &RecordedSite,
    writer: &mut W,
    log: &mut L,
) -> Result<u8, AllocError>
    requires resumed { IsResumed (means S.System system.now S.Fetcher.Fetcher S.Recorder.Fetcher S.Recorder.noted (kept_as S.Body.kind_of S.Body.len_of S.Folder.holds) S.Folder.Folder S.Record.Write) order.now recorded.now }
    ensures lives { IfOk result (SystemRunOnRecord (means S.System system.now S.Fetcher.Fetcher S.Recorder.Fetcher S.Recorder.noted (kept_as S.Body.kind_of S.Body.len_of S.Folder.holds) S.Folder.Folder S.Record.Write) order.now.save order.now (W.contents writer.old) (W.contents writer.new)) }
    ensures unwritten { OnErr result (writer.new ≡ writer.old) }
    ensures logged { IsLogTaken (IsLogLive (means S.System system.now S.Fetcher.Fetcher S.Recorder.Fetcher S.Recorder.noted (kept_as S.Body.kind_of S.Body.len_of S.Folder.holds) S.Folder.Folder S.Record.Write) order.now) (L.contents log.old) (L.contents log.new) }
{
    match &order.save {
        Some(path) => run_saving(
            rt,
            alloc,
            system,
            order,
            recorded,
            path.as_str(),
            writer,
            log,
        ),
        None => run_recorded(rt, alloc, system, order, recorded, writer, log),
    }
}

// Holds the place where the order saves, if it does.
fn hold<S: System>(system: &S, order: &Order) -> Result<(), ResumeFault>
    ensures { IfErr result (IsNotResumed (means S.System system.now S.Fetcher.Fetcher S.Recorder.Fetcher S.Recorder.noted (kept_as S.Body.kind_of S.Body.len_of S.Folder.holds) S.Folder.Folder S.Record.Write) order.now) }
{
    let Some(path) = &order.save else {
        return Ok(());
    };
    let resumed = match &order.resume {
        Some(from) => Some(from.as_str()),
        None => None,
    };
    match system.hold(path.as_str(), resumed) {
        Ok(()) => Ok(()),
        Err(HoldFault::Refused) => Err(ResumeFault::Refused),
        Err(HoldFault::Memory) => Err(ResumeFault::Read(ReadInputFault::Memory)),
    }
}

// Whether the order neither resumes nor saves.
fn is_plain(order: &Order) -> bool
    ensures { result ≡ is_plain order.now.resume order.now.save }
{
    order.resume.is_none() && order.save.is_none()
}

// Has the system take what earlier runs left as the order says.
fn begin_index<S: System>(system: &S, order: &Order) -> Result<(), ResumeFault>
    ensures { IfErr result (IsNotResumed (means S.System system.now S.Fetcher.Fetcher S.Recorder.Fetcher S.Recorder.noted (kept_as S.Body.kind_of S.Body.len_of S.Folder.holds) S.Folder.Folder S.Record.Write) order.now) }
{
    match system.begin_index(order) {
        Ok(()) => Ok(()),
        Err(HoldFault::Refused) => Err(ResumeFault::Discontinued),
        Err(HoldFault::Memory) => Err(ResumeFault::Read(ReadInputFault::Memory)),
    }
}

// Retrieves as the order says. The error is why its record can't be resumed, or that memory ran out.
fn run_by_order<H: Threads + Wait + Sync, S: System, W: Write, L: RejectedLog>(
    rt: &H,
    alloc: Global,
    system: &S,
    order: &Order,
    writer: &mut W,
    log: &mut L,
) -> Result<u8, ResumeFault>
    ensures lives { IfOk result (SystemRunByOrder (means S.System system.now S.Fetcher.Fetcher S.Recorder.Fetcher S.Recorder.noted (kept_as S.Body.kind_of S.Body.len_of S.Folder.holds) S.Folder.Folder S.Record.Write) (order.now.resume, order.now.save) order.now (W.contents writer.old) (W.contents writer.new)) }
    ensures unresumed { IfErr result (IsNotResumed (means S.System system.now S.Fetcher.Fetcher S.Recorder.Fetcher S.Recorder.noted (kept_as S.Body.kind_of S.Body.len_of S.Folder.holds) S.Folder.Folder S.Record.Write) order.now) }
    ensures unwritten { OnErr result (writer.new ≡ writer.old) }
    ensures logged { IsLogTaken (IsLogLive (means S.System system.now S.Fetcher.Fetcher S.Recorder.Fetcher S.Recorder.noted (kept_as S.Body.kind_of S.Body.len_of S.Folder.holds) S.Folder.Folder S.Record.Write) order.now) (L.contents log.old) (L.contents log.new) }
{
    if is_plain(order) {
        begin_index(system, order)?;
        return Ok(run_plain(rt, alloc, system, order, writer, log)?);
    }
    hold(system, order)?;
    let recorded = resumption_of(alloc, system, order)?;
    let lived = run_on_record(rt, alloc, system, order, &recorded, writer, log);
    drop(recorded);
    Ok(lived?)
}

// Writes the line of a fault, and gives its status; if memory runs out, the line of that.
fn refuse_resume<W: Write>(alloc: Global, fault: ResumeFault, writer: &mut W) -> u8
    ensures { IsUnresumed (W.contents writer.old) (W.contents writer.new) fault result }
{
    match resume_text(alloc, fault) {
        Ok(text) => deliver(writer, text.as_bytes(), resume_status(fault)),
        Err(_) => deliver(writer, b"stopped memory\n", 1),
    }
}

/// Retrieves the live site that the order says, by fetchers of the system, into its folder: what the order resumes isn't
/// requested again, and what it saves is saved. If a record can't be resumed, its line replaces all else, and nothing is
/// requested or saved.
pub(crate) fn live_order<H: Threads + Wait + Sync, S: System, W: Write, L: RejectedLog>(
    rt: &H,
    alloc: Global,
    system: &S,
    order: &Order,
    writer: &mut W,
    log: &mut L,
) -> u8
    ensures lives { OrderedRun (means S.System system.now S.Fetcher.Fetcher S.Recorder.Fetcher S.Recorder.noted (kept_as S.Body.kind_of S.Body.len_of S.Folder.holds) S.Folder.Folder S.Record.Write) order.now (W.contents writer.old) (W.contents writer.new) result }
    ensures logged { IsLogTaken (IsLogLive (means S.System system.now S.Fetcher.Fetcher S.Recorder.Fetcher S.Recorder.noted (kept_as S.Body.kind_of S.Body.len_of S.Folder.holds) S.Folder.Folder S.Record.Write) order.now) (L.contents log.old) (L.contents log.new) }
{
    match run_by_order(rt, alloc, system, order, writer, log) {
        Ok(status) => status,
        Err(fault) => refuse_resume(alloc, fault, writer),
    }
}
