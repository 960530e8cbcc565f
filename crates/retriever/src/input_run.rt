//! A run: from the words and the input to what is written.
ghost use Rattle.std.specs.Prelude.{◌≡◌, ℕ, List, Ok, IfOk, IfErr, map, string_bytes};
ghost use Rattle.site_maps.specs.Maps.{says_of, IsFault as IsFaultOfMap};
ghost use Rattle.site_records.specs.Records.{says_of as record_says, IsFault as IsFaultOfRecord, RecordedAnswers};
ghost use Rattle.workers.specs.Sites.{Fits};
ghost use Rattle.options.specs.Order.{order_of, ordered_by};
ghost use Rattle.retriever.specs.Order.{AreForInput};
ghost use Rattle.retriever.specs.InputFound.{DescribesSite, EndsInFault, FindsIn, map_form, record_form};
ghost use Rattle.retriever.specs.Site.{IsMapOf, IsRecordOf, IsDescribedBy, whole_of, with_bare_bodies};
ghost use Rattle.retriever.specs.Parts.{IsDelivered, IsFaultDelivered};
ghost use Rattle.retriever.specs.inner.Parts.{HasKinds, IsOutput, IsOutputOf, IsUnfit};
ghost use Rattle.retriever.specs.Rejecting.{IfLog, IsLogOfInput, IsLogOfSite, IsLogTaken, IsLogDescribed};
ghost use Rattle.retriever.specs.Run.{Runs};

use crate::copies::{Copied, copies_of};
use crate::fault::{Fault, fault_text};
use crate::rejected::{hand_over, log_of};
use crate::render::{RunOutput, render_retrieval};
use html_links::LinkRules;
use live_system::RejectedLog;
use observer::NoObserver;
use options::{Order, Source, read_order};
use site_maps::MapSite;
use site_records::RecordedSite;
use std::alloc::{AllocError, Global};
use std::io::{Read, Write};
use std::sync::Wait;
use std::thread::Threads;
use streams::{read_input, write_text};
use workers::NoQuota;

/// The most bytes of an input.
pub(crate) const MAX_INPUT: usize = 1_073_741_824;

// The site of the map that is the input.
fn map_of<R: Read>(alloc: Global, reader: &mut R) -> Result<MapSite, Fault>
    ensures ok { IfOk result (λ site. DescribesSite IsMapOf (R.remaining reader.old) (with_bare_bodies (says_of site.answers site.rules))) }
    ensures err { IfErr result (EndsInFault IsFaultOfMap (R.remaining reader.old)) }
{
    let input = read_input(alloc, reader, MAX_INPUT)?;
    Ok(MapSite::read(alloc, input.as_slice())?)
}

// The site of the record that is the input, by whether robots are honoured. The record's own bytes are dropped.
fn record_of<R: Read>(
    alloc: Global,
    reader: &mut R,
    links: LinkRules,
) -> Result<RecordedSite, Fault>
    ensures ok { IfOk result (λ site. DescribesSite (IsRecordOf links) (R.remaining reader.old) (record_says site.answers site.rules)) }
    ensures err { IfErr result (EndsInFault (IsFaultOfRecord links) (R.remaining reader.old)) }
{
    let input = read_input(alloc, reader, MAX_INPUT)?;
    Ok(RecordedSite::read(alloc, input.as_slice(), links)?)
}

// The output of the retrieval of a site that gives each address one outcome, and each origin one rule set; each worker has a copy.
fn retrieve<H: Threads + Wait + Sync, F: Copied>(
    rt: &H,
    alloc: Global,
    order: &Order,
    site: &F,
) -> Result<RunOutput, AllocError>
    ensures { (told : RecordedAnswers) → Fits (F.says (F.site site.now)) (F.rules (F.site site.now)) (whole_of told) → HasKinds (F.says (F.site site.now)) told
        → IfOk result (λ output. IsOutputOf order.now told (string_bytes output.text) output.status × IfLog (IsLogOfSite order.now told) output.rejected) }
{
    let copies = copies_of(alloc, site, order.workers)?;
    let (retrieved, copies) = workers::retrieve_shown(
        rt,
        alloc,
        &order.plan,
        &NoQuota,
        copies,
        &NoObserver,
    );
    // They are dropped before a report is made.
    drop(copies);
    let rejected = log_of(alloc, order, &retrieved);
    let told = render_retrieval(alloc, &order.names, order.trace, &retrieved, rejected);
    drop(retrieved);
    told
}

// The output of the retrieval of the map that is the input.
fn output_of_map<H: Threads + Wait + Sync, R: Read>(
    rt: &H,
    alloc: Global,
    order: &Order,
    reader: &mut R,
) -> Result<RunOutput, Fault>
    ensures ok { IfOk result (λ output. IsOutput IsMapOf order.now (R.remaining reader.old) (string_bytes output.text) output.status) }
    ensures rejected { IfOk result (λ output. IfLog (IsLogDescribed IsMapOf order.now (R.remaining reader.old)) output.rejected) }
    ensures err { IfErr result (EndsInFault IsFaultOfMap (R.remaining reader.old)) }
{
    let site = map_of(alloc, reader)?;
    let told = retrieve(rt, alloc, order, &site);
    drop(site);
    Ok(told?)
}

// The output of the retrieval of the record that is the input.
fn output_of_record<H: Threads + Wait + Sync, R: Read>(
    rt: &H,
    alloc: Global,
    order: &Order,
    reader: &mut R,
) -> Result<RunOutput, Fault>
    ensures ok { IfOk result (λ output. IsOutput (IsRecordOf order.now.links) order.now (R.remaining reader.old) (string_bytes output.text) output.status) }
    ensures rejected { IfOk result (λ output. IfLog (IsLogDescribed (IsRecordOf order.now.links) order.now (R.remaining reader.old)) output.rejected) }
    ensures err { IfErr result (EndsInFault (IsFaultOfRecord order.now.links) (R.remaining reader.old)) }
{
    let site = record_of(alloc, reader, order.links)?;
    let told = retrieve(rt, alloc, order, &site);
    drop(site);
    Ok(told?)
}

// The output of the retrieval of the input, which is what the order's source says. No byte is read for a site on the network.
fn output_of<H: Threads + Wait + Sync, R: Read>(
    rt: &H,
    alloc: Global,
    order: &Order,
    reader: &mut R,
) -> Result<RunOutput, Fault>
    ensures ok { IfOk result (λ output. IsOutput (IsDescribedBy order.now.source order.now.links) order.now (R.remaining reader.old) (string_bytes output.text) output.status) }
    ensures rejected { IfOk result (λ output. IfLog (IsLogOfInput order.now (R.remaining reader.old)) output.rejected) }
    ensures err { IfErr result (IsUnfit order.now (R.remaining reader.old)) }
    ensures unread { order.now.source ≡ Source.Live → reader.new ≡ reader.old }
{
    match order.source {
        Source::Map => output_of_map(rt, alloc, order, reader),
        Source::Recorded => output_of_record(rt, alloc, order, reader),
        Source::Live => Err(Fault::NoSite),
    }
}

/// Writes a text, and gives the status of the run: this one, or 1 if the writer fails.
pub(crate) fn deliver<W: Write>(writer: &mut W, text: &[u8], status: u8) -> u8
    ensures { IsDelivered (W.contents writer.old) (W.contents writer.new) text.now status result }
{
    match write_text(writer, text) {
        Ok(()) => status,
        Err(_) => 1,
    }
}

/// Writes the line of a fault, or what the words request, and gives its status; if memory runs out, the line of that.
pub(crate) fn refuse<W: Write>(alloc: Global, fault: Fault, writer: &mut W) -> u8
    ensures { IsFaultDelivered (W.contents writer.old) (W.contents writer.new) fault result }
{
    match fault_text(alloc, fault) {
        Ok(text) => deliver(writer, text.as_bytes(), fault.status()),
        Err(_) => deliver(writer, b"stopped memory\n", 1),
    }
}

/// Runs by an order: reads the whole input as a map, or as a record if the order says so, retrieves what the order's plan says
/// with as many workers as the order has, and writes the report or one line of words; the first fault ends it. The report is the
/// same for each number of workers. If the order requests the trace, its lines are before the report, or before the line of a
/// retrieval that stopped. Returns the status: that of [`exit_status`] for a report, 2 if the input is wrong or the site is on
/// the network, 1 if the reader or the writer fails, more addresses are found than may be held, memory runs out, or a check of
/// several workers fails. If the writer fails, a front of the text may be written. No byte is read for a site on the network.
pub fn run_of_order<H: Threads + Wait + Sync, R: Read, W: Write>(
    rt: &H,
    alloc: Global,
    order: &Order,
    reader: &mut R,
    writer: &mut W,
) -> u8
    // What is found and what results, by the order.
    ensures of_map { order.now.source ≡ Source.Map
        → FindsIn map_form order.now (R.remaining reader.old) (W.contents writer.old) (W.contents writer.new) result }
    ensures of_record { order.now.source ≡ Source.Recorded
        → FindsIn (record_form order.now.links) order.now (R.remaining reader.old) (W.contents writer.old) (W.contents writer.new) result }

    // By the words that order it, with the events that led there.
    ensures runs { (words : List (List ℕ)) → order_of words ≡ Ok (ordered_by order.now)
        → Runs words (R.remaining reader.old) (W.contents writer.old) (W.contents writer.new) result }
    ensures unread { order.now.source ≡ Source.Live → reader.new ≡ reader.old }
{
    match output_of(rt, alloc, order, reader) {
        Ok(output) => deliver(writer, output.text.as_bytes(), output.status),
        Err(fault) => refuse(alloc, fault, writer),
    }
}

/// Runs by an order likewise, and then hands over the log of rejected links, if the order names a file for it.
pub(crate) fn run_and_log<H: Threads + Wait + Sync, R: Read, W: Write, L: RejectedLog>(
    rt: &H,
    alloc: Global,
    order: &Order,
    reader: &mut R,
    writer: &mut W,
    log: &mut L,
) -> u8
    ensures runs { (words : List (List ℕ)) → order_of words ≡ Ok (ordered_by order.now)
        → Runs words (R.remaining reader.old) (W.contents writer.old) (W.contents writer.new) result }
    ensures unread { order.now.source ≡ Source.Live → reader.new ≡ reader.old }
    ensures logged { IsLogTaken (IsLogOfInput order.now (R.remaining reader.old)) (L.contents log.old) (L.contents log.new) }
{
    match output_of(rt, alloc, order, reader) {
        Ok(output) => {
            let RunOutput {
                text,
                status,
                rejected,
            } = output;
            let status = deliver(writer, text.as_bytes(), status);
            drop(text);
            hand_over(rejected, log);
            status
        }
        Err(fault) => refuse(alloc, fault, writer),
    }
}

/// Runs on words: reads them as an order, and runs by that. Of several faults of the words the lowest is named, except that memory may
/// run out before any. Words that order no site of an input end the run before the first byte is read.
pub fn run<H: Threads + Wait + Sync, R: Read, W: Write>(
    rt: &H,
    alloc: Global,
    words: &[&str],
    reader: &mut R,
    writer: &mut W,
) -> u8
    ensures runs { Runs (map (λ word. word.now) words.now) (R.remaining reader.old) (W.contents writer.old) (W.contents writer.new) result }
    ensures unread { ¬ AreForInput (map (λ word. word.now) words.now) → reader.new ≡ reader.old }
{
    match read_order(alloc, words) {
        Ok(order) => {
            let status = run_of_order(rt, alloc, &order, reader, writer);
            drop(order);
            status
        }
        Err(wrong) => refuse(alloc, Fault::Line(wrong), writer),
    }
}
