//! The program on its words, its three streams and the system: what a person reads, and the run, or the live retrieval.
ghost use Rattle.std.specs.Prelude.{◌≡◌, ◌≢◌, ◌⊎◌, ℕ, List, [], IfOk, IfErr, Ok, drop, map, string_bytes};
ghost use Rattle.std.specs.IoError.{error_kind};
ghost use Rattle.std.specs.Vec.Iter.{into_iter_items};
ghost use Rattle.options.specs.Order.{order_of, ordered_by};
ghost use Rattle.retriever.specs.Advice.{said_of};
ghost use Rattle.retriever.specs.Finding.{ProgramFinds};
ghost use Rattle.retriever.specs.Order.{AreForInput, AreForLive};
ghost use Rattle.retriever.specs.Keeping.{kept_as};
ghost use Rattle.retriever.specs.Program.{IsExplained, IsFaultReported, IsQuietFor, ProgramRun, outputs, words_behind, words_fault};
ghost use Rattle.retriever.specs.Rejecting.{IsLogBy, IsLogFor, IsLogTaken};
ghost use Rattle.retriever.specs.inner.Program.{Starts, all_streams};
ghost use Rattle.retriever.specs.Run.{Runs, fault_text};
ghost use Rattle.retriever.specs.Systems.{means};
ghost use Rattle.streams.specs.Streams.{AppendsFront};

use crate::fault::{Fault, fault_text};
use crate::input_run::{deliver, refuse, run_and_log};
use crate::live_order::live_order;
use live_system::{RejectedLog, System};
use options::{Order, Source, advice_text, no_text_advice, read_order};
use std::alloc::{AllocError, Global};
use std::env::Args;
use std::io;
use std::io::{ErrorKind, Read, Write};
use std::sync::Wait;
use std::thread::Threads;
use streams::write_text;

/// All words of the command line, the program's name first.
pub(crate) fn all_words(alloc: Global, args: Args) -> Result<Vec<String>, AllocError>
    ensures { IfOk result (λ all. all.items ≡ into_iter_items args) }
{
    let mut all = Vec::new(alloc);
    for word in args {
        all.push(word)?;
    }
    Ok(all)
}

/// The texts of the words after the program's name.
pub(crate) fn texts_behind(alloc: Global, all: &[String]) -> Result<Vec<&str>, AllocError>
    ensures { IfOk result (λ texts. map (λ text. text.now) texts.items ≡ map string_bytes (drop 1 all.now)) }
{
    let mut texts = Vec::new(alloc);
    let [_name, words @ ..] = all else {
        return Ok(texts);
    };
    for word in words {
        texts.push(word.as_str())?;
    }
    Ok(texts)
}

// Why the program has no words: one of them is no text, or memory ran out.
fn words_fault(error: &io::Error) -> Fault
    ensures { result ≡ words_fault (error_kind error.now) }
{
    match error.kind() {
        ErrorKind::OutOfMemory => Fault::Memory,
        _ => Fault::NotText,
    }
}

// What is written if words are refused.
#[derive(Drop)]
struct Refusal {
    // For a person; empty if there is nothing to report.
    advice: String,
    // In place of a report.
    text: String,
}

// What a person reads about a fault of these words. It is empty for other faults.
fn advice_for(alloc: Global, fault: Fault, words: &[&str]) -> Result<String, AllocError>
    ensures { IfOk result (λ text. string_bytes text ≡ said_of (map (λ word. word.now) words.now) fault) }
{
    match fault {
        Fault::Line(wrong) if wrong.asks() => Ok(String::new(alloc)),
        Fault::Line(wrong) => advice_text(alloc, wrong, words),
        Fault::NotText => no_text_advice(alloc, words),
        Fault::NoSite | Fault::Read(_) | Fault::Input(_) | Fault::Memory => Ok(String::new(alloc)),
    }
}

// Both texts for a fault of these words.
fn refusal_of(alloc: Global, fault: Fault, words: &[&str]) -> Result<Refusal, AllocError>
    ensures advice { IfOk result (λ refusal. string_bytes refusal.advice ≡ said_of (map (λ word. word.now) words.now) fault) }
    ensures text { IfOk result (λ refusal. string_bytes refusal.text ≡ fault_text fault) }
{
    let advice = advice_for(alloc, fault, words)?;
    let text = fault_text(alloc, fault)?;
    Ok(Refusal { advice, text })
}

// Writes this for a person, if not empty. If the writer fails the run goes on: its line and its status say what went wrong,
// whether or not anybody reads more.
fn write_advice<E: Write>(advice: &str, errors: &mut E)
    ensures told { AppendsFront (E.contents errors.old) (E.contents errors.new) advice.now }
    ensures quiet { advice.now ≡ [] → errors.new ≡ errors.old }
{
    if advice.is_empty() {
        return;
    }
    let _ = write_text(errors, advice.as_bytes());
}

/// Reports to a person what is wrong with the words, and nothing of other faults, and writes the line of it, or what the words request.
/// Answers the status. Both
/// texts are made before either is written, so that nothing is reported of words whose line is that memory ran out.
pub(crate) fn explain<W: Write, E: Write>(
    alloc: Global,
    fault: Fault,
    words: &[&str],
    writer: &mut W,
    errors: &mut E,
) -> u8
    ensures explained { IsExplained (map (λ word. word.now) words.now) fault (outputs E.contents (W.contents writer.old) errors.old)
        (outputs E.contents (W.contents writer.new) errors.new) result }
    ensures quiet { said_of (map (λ word. word.now) words.now) fault ≡ [] → errors.new ≡ errors.old }
{
    match refusal_of(alloc, fault, words) {
        Ok(refusal) => {
            write_advice(refusal.advice.as_str(), errors);
            deliver(writer, refusal.text.as_bytes(), fault.status())
        }
        Err(_) => deliver(writer, b"stopped memory\n", 1),
    }
}

// Retrieves the site on the network that the words order by the system, and runs on those for an input.
fn run_order<H: Threads + Wait + Sync, S: System, R: Read, W: Write, L: RejectedLog>(
    rt: &H,
    alloc: Global,
    system: &S,
    order: &Order,
    reader: &mut R,
    writer: &mut W,
    log: &mut L,
) -> u8
    ensures runs { order.now.source ≢ Source.Live → (words : List (List ℕ)) → order_of words ≡ Ok (ordered_by order.now)
        → Runs words (R.remaining reader.old) (W.contents writer.old) (W.contents writer.new) result }
    ensures lives { order.now.source ≡ Source.Live → (words : List (List ℕ)) → order_of words ≡ Ok (ordered_by order.now)
        → ProgramRun (means S.System system.now S.Fetcher.Fetcher S.Recorder.Fetcher S.Recorder.noted (kept_as S.Body.kind_of S.Body.len_of S.Folder.holds) S.Folder.Folder S.Record.Write) (W.contents writer.old) (W.contents writer.new) result words }
    ensures unread { order.now.source ≡ Source.Live → reader.new ≡ reader.old }
    ensures logged { IsLogTaken (IsLogBy (means S.System system.now S.Fetcher.Fetcher S.Recorder.Fetcher S.Recorder.noted (kept_as S.Body.kind_of S.Body.len_of S.Folder.holds) S.Folder.Folder S.Record.Write) order.now (R.remaining reader.old)) (L.contents log.old) (L.contents log.new) }
{
    match order.source {
        Source::Live => live_order(rt, alloc, system, order, writer, log),
        Source::Map => run_and_log(rt, alloc, order, reader, writer, log),
        Source::Recorded => run_and_log(rt, alloc, order, reader, writer, log),
    }
}

// Runs on these words: of a site on the network by the system, of another by the input.
fn run_texts<H: Threads + Wait + Sync, S: System, R: Read, W: Write, E: Write, L: RejectedLog>(
    rt: &H,
    alloc: Global,
    system: &S,
    words: &[&str],
    reader: &mut R,
    writer: &mut W,
    errors: &mut E,
    log: &mut L,
) -> u8
    ensures starts { Starts (ProgramRun (means S.System system.now S.Fetcher.Fetcher S.Recorder.Fetcher S.Recorder.noted (kept_as S.Body.kind_of S.Body.len_of S.Folder.holds) S.Folder.Folder S.Record.Write) (W.contents writer.old) (W.contents writer.new) result)
        (all_streams R.remaining reader.old (outputs E.contents (W.contents writer.old) errors.old)) (all_streams R.remaining reader.new (outputs E.contents (W.contents writer.new) errors.new)) result
        (map (λ word. word.now) words.now) }
    ensures logged { IsLogTaken (IsLogFor (means S.System system.now S.Fetcher.Fetcher S.Recorder.Fetcher S.Recorder.noted (kept_as S.Body.kind_of S.Body.len_of S.Folder.holds) S.Folder.Folder S.Record.Write) (R.remaining reader.old) (map (λ word. word.now) words.now)) (L.contents log.old) (L.contents log.new) }
{
    match read_order(alloc, words) {
        Ok(order) => {
            let status = run_order(rt, alloc, system, &order, reader, writer, log);
            drop(order);
            status
        }
        Err(wrong) => explain(alloc, Fault::Line(wrong), words, writer, errors),
    }
}

// Runs on these words, the program's name first.
fn run_words<H: Threads + Wait + Sync, S: System, R: Read, W: Write, E: Write, L: RejectedLog>(
    rt: &H,
    alloc: Global,
    system: &S,
    all: &[String],
    reader: &mut R,
    writer: &mut W,
    errors: &mut E,
    log: &mut L,
) -> u8
    ensures starts { Starts (ProgramRun (means S.System system.now S.Fetcher.Fetcher S.Recorder.Fetcher S.Recorder.noted (kept_as S.Body.kind_of S.Body.len_of S.Folder.holds) S.Folder.Folder S.Record.Write) (W.contents writer.old) (W.contents writer.new) result)
        (all_streams R.remaining reader.old (outputs E.contents (W.contents writer.old) errors.old)) (all_streams R.remaining reader.new (outputs E.contents (W.contents writer.new) errors.new)) result
        (words_behind all.now) }
    ensures logged { IsLogTaken (IsLogFor (means S.System system.now S.Fetcher.Fetcher S.Recorder.Fetcher S.Recorder.noted (kept_as S.Body.kind_of S.Body.len_of S.Folder.holds) S.Folder.Folder S.Record.Write) (R.remaining reader.old) (words_behind all.now)) (L.contents log.old) (L.contents log.new) }
{
    match texts_behind(alloc, all) {
        Ok(words) => run_texts(
            rt,
            alloc,
            system,
            words.as_slice(),
            reader,
            writer,
            errors,
            log,
        ),
        Err(_) => refuse(alloc, Fault::Memory, writer),
    }
}

// Runs on the arguments of the program.
fn run_args<H: Threads + Wait + Sync, S: System, R: Read, W: Write, E: Write, L: RejectedLog>(
    rt: &H,
    alloc: Global,
    system: &S,
    args: Args,
    reader: &mut R,
    writer: &mut W,
    errors: &mut E,
    log: &mut L,
) -> u8
    ensures starts { Starts (ProgramRun (means S.System system.now S.Fetcher.Fetcher S.Recorder.Fetcher S.Recorder.noted (kept_as S.Body.kind_of S.Body.len_of S.Folder.holds) S.Folder.Folder S.Record.Write) (W.contents writer.old) (W.contents writer.new) result)
        (all_streams R.remaining reader.old (outputs E.contents (W.contents writer.old) errors.old)) (all_streams R.remaining reader.new (outputs E.contents (W.contents writer.new) errors.new)) result
        (words_behind (into_iter_items args)) }
    ensures logged { IsLogTaken (IsLogFor (means S.System system.now S.Fetcher.Fetcher S.Recorder.Fetcher S.Recorder.noted (kept_as S.Body.kind_of S.Body.len_of S.Folder.holds) S.Folder.Folder S.Record.Write) (R.remaining reader.old) (words_behind (into_iter_items args))) (L.contents log.old) (L.contents log.new) }
{
    match all_words(alloc, args) {
        Ok(all) => run_words(
            rt,
            alloc,
            system,
            all.as_slice(),
            reader,
            writer,
            errors,
            log,
        ),
        Err(_) => refuse(alloc, Fault::Memory, writer),
    }
}

/// Runs the program on its arguments, the program's name first, and its three streams. Words that order a site on the network
/// are retrieved by [`live`](crate::live), with as many fetchers of the system as they order workers, into its folder at their
/// prefix. If they resume a record, that is read first, and nothing that it states is requested; a record that can't be resumed
/// ends the run with its line. If they save one, it is done by [`live_resumed`](crate::live_resumed);
/// `run` gets all others after that name. What is wrong with words that order nothing is written for a person to `errors`; if
/// the writer of that fails, a front of it may be written, and nothing is written there of other words, except that an expression would cost
/// too much, nor if memory runs out for it: then the line says that. Arguments that can't
/// be had, since one isn't text or memory ran out, end the program as refused words do, with no byte read. If the words name a file for
/// the log of rejected links, `log` takes that of what was found, after the report. Answers the status.
pub fn run_program<
    H: Threads + Wait + Sync,
    S: System,
    R: Read,
    W: Write,
    E: Write,
    L: RejectedLog,
>(
    rt: &H,
    alloc: Global,
    system: &S,
    args: io::Result<Args>,
    reader: &mut R,
    writer: &mut W,
    errors: &mut E,
    log: &mut L,
) -> u8
    // What a live run found, by its words, what is recorded already and what the system's fetchers may answer.
    ensures finds { IfOk args (λ all. AreForLive (words_behind (into_iter_items all))
        → ProgramFinds (means S.System system.now S.Fetcher.Fetcher S.Recorder.Fetcher S.Recorder.noted (kept_as S.Body.kind_of S.Body.len_of S.Folder.holds) S.Folder.Folder S.Record.Write) (W.contents writer.old) (W.contents writer.new) result (words_behind (into_iter_items all))) }
    ensures runs { IfOk args (λ all. ¬ AreForLive (words_behind (into_iter_items all))
        → Runs (words_behind (into_iter_items all)) (R.remaining reader.old) (W.contents writer.old) (W.contents writer.new) result) }
    // And which events led there.
    ensures lives { IfOk args (λ all. AreForLive (words_behind (into_iter_items all))
        → ProgramRun (means S.System system.now S.Fetcher.Fetcher S.Recorder.Fetcher S.Recorder.noted (kept_as S.Body.kind_of S.Body.len_of S.Folder.holds) S.Folder.Folder S.Record.Write) (W.contents writer.old) (W.contents writer.new) result (words_behind (into_iter_items all))) }
    ensures unread { IfOk args (λ all. ¬ AreForInput (words_behind (into_iter_items all)) → reader.new ≡ reader.old) }
    ensures told { IfOk args (λ all. ¬ AreForInput (words_behind (into_iter_items all)) → ¬ AreForLive (words_behind (into_iter_items all))
        → IsFaultReported (words_behind (into_iter_items all)) (outputs E.contents (W.contents writer.old) errors.old) (outputs E.contents (W.contents writer.new) errors.new) result) }
    ensures quiet { IfOk args (λ all. AreForInput (words_behind (into_iter_items all)) ⊎ AreForLive (words_behind (into_iter_items all))
        → IsQuietFor (words_behind (into_iter_items all)) (outputs E.contents (W.contents writer.old) errors.old) (outputs E.contents (W.contents writer.new) errors.new)) }
    ensures refused { IfErr args (λ error. IsExplained [] (words_fault (error_kind error)) (outputs E.contents (W.contents writer.old) errors.old)
        (outputs E.contents (W.contents writer.new) errors.new) result) }
    ensures untouched { IfErr args (λ error. reader.new ≡ reader.old) }
    ensures logged { IfOk args (λ all. IsLogTaken (IsLogFor (means S.System system.now S.Fetcher.Fetcher S.Recorder.Fetcher S.Recorder.noted (kept_as S.Body.kind_of S.Body.len_of S.Folder.holds) S.Folder.Folder S.Record.Write) (R.remaining reader.old) (words_behind (into_iter_items all))) (L.contents log.old) (L.contents log.new)) }
    ensures unlogged { IfErr args (λ error. log.new ≡ log.old) }
{
    match args {
        Ok(args) => run_args(rt, alloc, system, args, reader, writer, errors, log),
        Err(error) => explain(alloc, words_fault(&error), &[], writer, errors),
    }
}
