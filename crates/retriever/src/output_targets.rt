//! Where a run writes its output: to standard output and standard error, nowhere, or into a file.
ghost use Rattle.std.specs.Prelude.{◌≡◌, ◌≢◌, None, IfErr, IfOk, false, map, option_map, string_bytes};
ghost use Rattle.std.specs.Vec.Iter.{into_iter_items};
ghost use Rattle.options.specs.Listed.{are_quiet};
ghost use Rattle.options.specs.Order.{log_by};
ghost use Rattle.options.specs.declared.fault.LineFault.TheVariants as fault;
ghost use Rattle.retriever.specs.Program.{words_behind};
ghost use Rattle.retriever.specs.OutputTargets.{GoesTo, IsRejectedPath, AreTargets};

use crate::program::{all_words, texts_behind};
use options::{LineFault, Log, Order, are_quiet, read_order};
use std::alloc::{AllocError, Global};
use std::env::Args;
use std::io;

/// Where a run writes its output.
#[derive(Drop)]
pub struct OutputTargets {
    /// Nothing is written.
    pub is_quiet: bool,
    /// The file that takes the report and what failed; without one they go to standard output and standard error.
    pub log: Option<Log>,
    /// The path of the file that takes the log of rejected links.
    pub rejected: Option<String>,
}

impl OutputTargets {
    ghost use Rattle.std.specs.Prelude.{◌≡◌};

    /// The path of that file, and whether it keeps what it has. Takes no memory.
    pub fn file(&self) -> Option<(&str, bool)> {
        match &self.log {
            Some(log) => Some((log.path.as_str(), log.appends)),
            None => None,
        }
    }

    /// The path of the file that takes the log of rejected links. Takes no memory.
    pub fn into_rejected(self) -> Option<String>
        ensures { result ≡ self.rejected }
    {
        let OutputTargets { rejected, .. } = self;
        rejected
    }
}

// The output for refused words goes to standard output and standard error, or to the latter alone.
fn standard(is_quiet: bool) -> OutputTargets
    ensures quiet { result.is_quiet ≡ is_quiet }
    ensures log { option_map log_by result.log ≡ None }
    ensures rejected { option_map string_bytes result.rejected ≡ None }
{
    OutputTargets {
        is_quiet,
        log: None,
        rejected: None,
    }
}

// The path of the file that takes the log of rejected links.
fn rejected_path(alloc: Global, order: &Order) -> Result<Option<String>, AllocError>
    ensures { IfOk result (λ path. option_map string_bytes path ≡ order.now.rejected_log) }
{
    match &order.rejected_log {
        Some(file) => Ok(Some(String::from_str(alloc, file.as_str())?)),
        None => Ok(None),
    }
}

// By an order.
fn targets_of_order(alloc: Global, order: Order) -> Result<OutputTargets, AllocError>
    ensures targets { IfOk result (λ t. GoesTo (t.is_quiet, option_map log_by t.log) (order.quiet, option_map log_by order.log)) }
    ensures rejected { IfOk result (λ t. option_map string_bytes t.rejected ≡ order.rejected_log) }
{
    let Ok(rejected) = rejected_path(alloc, &order) else {
        drop(order);
        return Err(AllocError);
    };
    Ok(OutputTargets {
        is_quiet: order.quiet,
        log: order.into_log(),
        rejected,
    })
}

// By words that are refused for this fault.
fn targets_of_refused(
    alloc: Global,
    wrong: LineFault,
    words: &[&str],
) -> Result<OutputTargets, AllocError>
    ensures memory { IfOk result (λ t. wrong ≢ fault.Memory) }
    ensures targets { IfOk result (λ t. GoesTo (t.is_quiet, option_map log_by t.log) (are_quiet (map (λ word. word.now) words.now), None)) }
    ensures rejected { IfOk result (λ t. option_map string_bytes t.rejected ≡ None) }
{
    match wrong {
        LineFault::Memory => Err(AllocError),
        _ => Ok(standard(are_quiet(alloc, words)?)),
    }
}

// By these words.
fn targets_of_words(alloc: Global, words: &[&str]) -> Result<OutputTargets, AllocError>
    ensures targets { IfOk result (λ t. AreTargets (map (λ word. word.now) words.now) (t.is_quiet, option_map log_by t.log)) }
    ensures rejected { IfOk result (λ t. IsRejectedPath (map (λ word. word.now) words.now) (option_map string_bytes t.rejected)) }
{
    match read_order(alloc, words) {
        Ok(order) => targets_of_order(alloc, order),
        Err(wrong) => targets_of_refused(alloc, wrong, words),
    }
}

// By these words, the program's name first.
fn targets_of_all(alloc: Global, all: &[String]) -> Result<OutputTargets, AllocError>
    ensures targets { IfOk result (λ t. AreTargets (words_behind all.now) (t.is_quiet, option_map log_by t.log)) }
    ensures rejected { IfOk result (λ t. IsRejectedPath (words_behind all.now) (option_map string_bytes t.rejected)) }
{
    let words = texts_behind(alloc, all)?;
    targets_of_words(alloc, words.as_slice())
}

/// Where the program writes its output, by its arguments, the program's name first: what they order says it. The output for
/// refused words goes to standard output and standard error, or to the latter alone if they say that nothing is to be printed. The
/// error is that memory ran out.
pub fn targets_of(alloc: Global, args: io::Result<Args>) -> Result<OutputTargets, AllocError>
    ensures ordered { IfOk args (λ all. IfOk result (λ t. AreTargets (words_behind (into_iter_items all)) (t.is_quiet, option_map log_by t.log))) }
    ensures rejected { IfOk args (λ all. IfOk result (λ t. IsRejectedPath (words_behind (into_iter_items all)) (option_map string_bytes t.rejected))) }
    ensures refused { IfErr args (λ error. IfOk result (λ t. (t.is_quiet ≡ false) × (option_map log_by t.log ≡ None) × (option_map string_bytes t.rejected ≡ None))) }
{
    match args {
        Ok(args) => {
            let all = all_words(alloc, args)?;
            targets_of_all(alloc, all.as_slice())
        }
        Err(_) => Ok(standard(false)),
    }
}
