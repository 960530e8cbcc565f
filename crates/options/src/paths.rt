//! The paths of words: the folder, records and logs.
ghost use Rattle.std.specs.Prelude.{◌≡◌, codes, option_map, IfOk};
ghost use Rattle.clap.specs.Words.{found_of, rows_of, first_of};
ghost use Rattle.options.specs.Order.{folder_of, prefix_of, log_by, log_of};

use crate::given::given;
use crate::order::{FilePath, Log, Prefix};
use clap::ArgMatches;
use std::alloc::{AllocError, Global};

/// The folder for the files, the records that are resumed and saved, and the files that take the text of the run and the log of rejected links.
#[derive(Drop)]
pub(crate) struct Paths {
    pub(crate) prefix: Prefix,
    pub(crate) resume: Option<FilePath>,
    pub(crate) save: Option<FilePath>,
    pub(crate) log: Option<Log>,
    pub(crate) rejected_log: Option<FilePath>,
}

// The folder below which files are put.
fn prefix(alloc: Global, matches: &ArgMatches) -> Result<Prefix, AllocError>
    ensures { IfOk result (λ p. p ≡ prefix_of (rows_of (found_of matches.now))) }
{
    Prefix::of(alloc, folder_of(given(matches, "directory-prefix")))
}

// The folder that a value names.
fn folder_of(value: Option<&str>) -> &str
    ensures { result.now ≡ folder_of (option_map (λ s. s.now) value.entry) }
{
    match value {
        Some(path) if !path.is_empty() => path,
        _ => ".",
    }
}

// The file that an option names.
fn file(alloc: Global, matches: &ArgMatches, id: &str) -> Result<Option<FilePath>, AllocError>
    ensures { IfOk result (λ file. file ≡ first_of id.now (rows_of (found_of matches.now))) }
{
    match given(matches, id) {
        Some(path) => Ok(Some(FilePath::of(alloc, path)?)),
        None => Ok(None),
    }
}

// The file that takes the text of the run.
#[tactic(auto, unfolding(crate::specs::Order::log_of))]
fn log(alloc: Global, matches: &ArgMatches) -> Result<Option<Log>, AllocError>
    ensures { IfOk result (λ log. option_map log_by log ≡ log_of (rows_of (found_of matches.now))) }
{
    let appends = given(matches, "append-output").is_some();
    match file(alloc, matches, "output-file")? {
        Some(path) => Ok(Some(Log { path, appends })),
        None => Ok(None),
    }
}

/// The folder and the files that the words name.
pub(crate) fn read_paths(alloc: Global, matches: &ArgMatches) -> Result<Paths, AllocError>
    ensures prefix { IfOk result (λ p. p.prefix ≡ prefix_of (rows_of (found_of matches.now))) }
    ensures resume { IfOk result (λ p. p.resume ≡ first_of (codes "resume") (rows_of (found_of matches.now))) }
    ensures save { IfOk result (λ p. p.save ≡ first_of (codes "save") (rows_of (found_of matches.now))) }
    ensures log { IfOk result (λ p. option_map log_by p.log ≡ log_of (rows_of (found_of matches.now))) }
    ensures rejected { IfOk result (λ p. p.rejected_log ≡ first_of (codes "rejected-log") (rows_of (found_of matches.now))) }
{
    let prefix = prefix(alloc, matches)?;
    let resume = file(alloc, matches, "resume")?;
    let save = file(alloc, matches, "save")?;
    let log = log(alloc, matches)?;
    let rejected_log = file(alloc, matches, "rejected-log")?;
    Ok(Paths {
        prefix,
        resume,
        save,
        log,
        rejected_log,
    })
}
