//! What earlier runs left in the folder, by the index and the journal that are there, and what this one leaves.
ghost use Rattle.std.specs.Prelude.{◌≡◌, ◌||◌, Err, length, not, true};
ghost use Rattle.address.specs.AddressOrder.{IsAscending};
ghost use Rattle.run_index.specs.declared.index_run.BeginFault.TheVariants.{Unfit};

use crate::index_end::IndexEnd;
use crate::index_file::{INDEX, IndexSight, index_of, own_path, sight_of, tell};
use crate::index_starts::says_starts;
use crate::journal::{JOURNAL, LeftJournal, LeftRun, SharedJournal, left_at, text_of};
use crate::removed_files::remove_all;
use address::Address;
use earlier_answers::EarlierAnswers;
use earlier_pages::EarlierPages;
use earlier_runs::Earlier;
use fetcher::{FaultClass, Outcome};
use harvest::Harvest;
use local_names::ORIGINAL;
use mirror_index::{Entry, MirrorIndex};
use mirror_upkeep::{
    first_line, gone, in_way, is_sure, joined, named_pages, outdated, places_by_name,
};
use options::{Order, Upkeep};
use part_keeper::KeptPart;
use program_io::SharedFailures;
use run_journal::Journal;
use std::alloc::{AllocError, Global};
use std::fs::Files;
use std::io::Write;
use std::sync::{Arc, Mutex, Wait};
use std::{io, mem};
use streams::{Close, Lock};

/// Why a run isn't begun.
#[derive(Clone, Copy)]
pub enum BeginFault {
    /// It is to go on from what can't be gone on with.
    Unfit,
    /// Memory ran out.
    Memory,
}

impl From<AllocError> for BeginFault {
    ghost use Rattle.std.specs.Prelude.{◌≡◌};
    ghost use Rattle.run_index.specs.declared.index_run.BeginFault.TheVariants.{Memory};

    ghost from_gives = { λ e fault. fault ≡ Memory };

    fn from(_error: AllocError) -> BeginFault {
        BeginFault::Memory
    }
}

// What is known of earlier runs' pages.
struct KnownPages {
    // The last of each.
    pages: MirrorIndex,
    // What the index says, if a run that was stopped says more.
    before: MirrorIndex,
    // Whether the index that is there says just what is known.
    is_index_there: bool,
    // Whether the index that is there was used.
    uses_index: bool,
    // Whether all of them are of runs of this one's STARTs.
    is_ours: bool,
}

impl KnownPages {
    // These pages of runs of the same STARTs, which no index has.
    fn just(alloc: Global, pages: MirrorIndex) -> KnownPages {
        KnownPages {
            pages,
            before: MirrorIndex::new(alloc),
            is_index_there: false,
            uses_index: false,
            is_ours: true,
        }
    }
}

/// What a run was begun with.
#[derive(Drop)]
pub(crate) struct BegunRun {
    /// The folder of its pages.
    pub(crate) folder: String,
    upkeep: Upkeep,
    // Whether bodies are kept beside files whose links change.
    backs_up: bool,
    // The same, and links do change, so that no page has the name of such a body.
    has_originals: bool,
    /// What is known of earlier runs' pages.
    pub(crate) earlier: Arc<Earlier>,
    /// What the index said of them before pages of a run that was stopped took the places of some.
    pub(crate) before: MirrorIndex,
    /// The places of the earlier pages' entries, in the order of their names.
    pub(crate) by_name: Vec<usize>,
    /// Whether the index that is there says just what is known of earlier pages.
    pub(crate) is_index_there: bool,
    // Whether bodies whose links change are kept in the program's own directory only until the run is whole.
    hides_bodies: bool,
    /// What was seen of the index before it was read. None if there was none.
    pub(crate) sight: Option<IndexSight>,
    /// Whether it was used.
    pub(crate) uses_index: bool,
    /// The line that names the STARTs.
    pub(crate) starts: Vec<u8>,
    /// Whether all that is known of earlier pages is of runs of these.
    pub(crate) is_ours: bool,
}

impl BegunRun {
    /// Whether an index is kept.
    pub(crate) fn keeps_index(&self) -> bool {
        keeps_index(self.upkeep)
    }

    /// Whether pages are noted until the end, for an index or for a journal that is gone on with.
    pub(crate) fn notes_pages(&self) -> bool {
        !takes_nothing(self.upkeep)
    }
}

// Whether an index is kept.
fn keeps_index(upkeep: Upkeep) -> bool
    ensures { result ≡ (upkeep.timestamps || upkeep.skips) }
{
    upkeep.timestamps || upkeep.skips
}

// Whether nothing of what earlier runs left is taken.
fn takes_nothing(upkeep: Upkeep) -> bool
    ensures { result ≡ not (upkeep.continues || upkeep.timestamps || upkeep.skips) }
{
    !upkeep.continues && !keeps_index(upkeep)
}

// What is taken of what was left at the place of the journal.
enum Usable<F> {
    // This, perhaps nothing, and the file that it is in.
    Run(LeftRun, Option<F>),
    // Nothing: a run that is at work has its journal there, so this one has none.
    Theirs,
}

/// What a run put.
#[derive(Drop)]
pub(crate) struct Put {
    /// Its pages.
    pub(crate) pages: MirrorIndex,
    /// The names of the files of gone pages; none if no file is to be removed.
    pub(crate) gone: Vec<String>,
    /// The same of pages that the index had before pages of a run that was stopped took the places of some.
    pub(crate) gone_before: Vec<String>,
    // Whether all of them have their files.
    is_all: bool,
    // Whether a connection to some page was lost or not made. Not before that is known.
    is_cut_off: bool,
    /// Whether what it didn't put is gone. Not before that is known.
    pub(crate) is_sure: bool,
}

/// What a run knows of the pages that earlier ones kept, and what it notes of those that it keeps itself, for later ones. All its workers
/// share it.
pub struct IndexRun<F: Drop> {
    alloc: Global,
    // None before a run begins.
    begun: Mutex<Option<Arc<BegunRun>>>,
    // The pages of this run with the names that they have early, perhaps empty ones, if they are noted until the end.
    pages: Mutex<Vec<Entry>>,
    // The texts of what was received without a file, likewise.
    answers: Mutex<Vec<Vec<u8>>>,
    journal: Mutex<SharedJournal<F>>,
    // None before all files were put.
    put: Mutex<Option<Put>>,
}

// Written by hand: a user that drops one proves a call, and nothing about its fields.
impl<F: Drop> Drop for IndexRun<F> {
    fn drop(self) {
        let IndexRun {
            alloc: _alloc,
            begun: _begun,
            pages: _pages,
            answers: _answers,
            journal: _journal,
            put: _put,
        } = self;
    }
}

// These take `&mut` to the locked data, so that no early return of theirs drops the guard.

// This is known from now on.
fn set<T: Drop>(held: &mut Option<T>, value: T) {
    *held = Some(value);
}

// What is known. If there is no room to share it nothing is.
fn shared(held: &mut Option<Arc<BegunRun>>) -> Option<Arc<BegunRun>> {
    match held {
        Some(begun) => Arc::try_clone(begun).ok(),
        None => None,
    }
}

// A value that several have.
fn in_common<T: Drop>(alloc: Global, value: T) -> Result<Arc<T>, AllocError> {
    Ok(Arc::new(alloc, value)?)
}

// One more is noted.
fn push<T: Drop>(noted: &mut Vec<T>, one: T) -> Result<(), AllocError> {
    noted.push(one)?;
    Ok(())
}

// All that were noted, of which there are none from then on.
fn take<T: Drop>(alloc: Global, noted: &mut Vec<T>) -> Vec<T> {
    mem::replace(noted, Vec::new(alloc))
}

// These are noted from now on.
fn set_all<T: Drop>(noted: &mut Vec<T>, all: Vec<T>) {
    *noted = all;
}

// What was put, which nothing was from then on.
fn take_put(put: &mut Option<Put>) -> Option<Put> {
    mem::replace(put, None)
}

// It is known of what was put, if that is noted, whether all else is gone, and whether a connection failed.
fn set_known(put: &mut Option<Put>, is_sure: bool, is_cut_off: bool) {
    if let Some(put) = put {
        put.is_sure = is_sure;
        put.is_cut_off = is_cut_off;
    }
}

// Whether the connection to one of these addresses was lost or not made.
fn is_cut_off(records: &[(Address, Outcome)]) -> bool {
    for (_, outcome) in records {
        if let Outcome::Fault(kind) = outcome {
            if kind.class() == FaultClass::Network {
                return true;
            }
        }
    }
    false
}

// This is the journal from now on.
fn set_journal<F: Drop>(held: &mut SharedJournal<F>, journal: SharedJournal<F>) {
    *held = journal;
}

// The names of files that a run put, and those of the bodies that it may have kept beside them.
fn put_names(
    alloc: Global,
    names: &[String],
    has_originals: bool,
) -> Result<Vec<String>, AllocError> {
    let mut all = Vec::new(alloc);
    for name in names {
        let name = name.as_str();
        all.push(String::from_str(alloc, name)?)?;
        if has_originals {
            all.push(format!(in alloc; "{name}{ORIGINAL}")?)?;
        }
    }
    Ok(all)
}

// The names of the files of those of these pages that are gone, by the names that a run put; none if no file is to be removed.
fn gone_of(
    alloc: Global,
    begun: &BegunRun,
    pages: &MirrorIndex,
    names: &[String],
) -> Result<Vec<String>, AllocError> {
    if !begun.upkeep.deletes_gone {
        return Ok(Vec::new(alloc));
    }
    let put = put_names(alloc, names, begun.has_originals)?;
    gone(alloc, pages.entries(), put.as_slice(), begun.backs_up)
}

// The names of the bodies that are kept of these pages in the program's own directory.
fn hidden_names(alloc: Global, pages: &[Entry]) -> Result<Vec<String>, AllocError> {
    let mut names = Vec::new(alloc);
    for page in pages {
        let name = page.name();
        names.push(format!(in alloc; ".wgetr%orig/{name}")?)?;
    }
    Ok(names)
}

// Those of these names whose parts have bodies that were received.
fn renewed_names(
    alloc: Global,
    names: &[String],
    parts: &[KeptPart],
) -> Result<Vec<String>, AllocError>
    requires { length names.now ≡ length parts.now }
{
    let mut renewed = Vec::new(alloc);
    for (i, name) in names.iter().enumerate() {
        if parts[i].is_received {
            renewed.push(String::from_str(alloc, name.as_str())?)?;
        }
    }
    Ok(renewed)
}

impl<F: Drop> IndexRun<F> {
    /// No run has begun yet. Takes no memory.
    pub fn new(alloc: Global) -> IndexRun<F> {
        IndexRun {
            alloc,
            begun: Mutex::new(None),
            pages: Mutex::new(Vec::new(alloc)),
            answers: Mutex::new(Vec::new(alloc)),
            journal: Mutex::new(SharedJournal::none(alloc)),
            put: Mutex::new(None),
        }
    }

    // What of what was left at the place of the journal is taken, after a person was told if that is nothing.
    fn usable<R: Wait + Files<File = F>>(
        &self,
        rt: &R,
        failures: &SharedFailures,
        path: &str,
        left: LeftJournal<F>,
        upkeep: Upkeep,
    ) -> Result<Usable<F>, BeginFault>
        ensures { result ≡ Err Unfit → upkeep.continues ≡ true }
    {
        let why = match left {
            LeftJournal::Nothing => return Ok(Usable::Run(LeftRun::nothing(self.alloc), None)),
            LeftJournal::Run(left, file) => return Ok(Usable::Run(left, Some(file))),
            LeftJournal::Busy if !upkeep.continues => return Ok(Usable::Theirs),
            LeftJournal::Busy => String::from_str(self.alloc, "is of a run that is at work")?,
            LeftJournal::Unfit(why) => why,
        };
        if upkeep.continues {
            tell(
                rt,
                self.alloc,
                failures,
                path,
                why.as_str(),
                "nothing is requested",
            )?;
            return Err(BeginFault::Unfit);
        }
        tell(
            rt,
            self.alloc,
            failures,
            path,
            why.as_str(),
            "nothing of it is taken",
        )?;
        Ok(Usable::Run(LeftRun::nothing(self.alloc), None))
    }

    // Tells a person that a run left so many pages, and answers without a file, with which this one doesn't go on.
    fn tell_left<R: Wait>(
        &self,
        rt: &R,
        failures: &SharedFailures,
        path: &str,
        pages: usize,
        others: usize,
    ) -> Result<(), AllocError> {
        let why = format!(in self.alloc;
            "a run that was stopped left {pages} pages and {others} answers without a file"
        )?;
        tell(
            rt,
            self.alloc,
            failures,
            path,
            why.as_str(),
            "-c goes on with it",
        )
    }

    // What a stopped run left, if this one takes anything of it, after what is to be said of it was said to a person. Its own journal is kept
    // from now on, unless another run that is at work has one there. A run that requests all anew takes no answers.
    fn begin_journal<R: Wait + Files<File = F>>(
        &self,
        rt: &R,
        failures: &SharedFailures,
        folder: &str,
        order: &Order,
    ) -> Result<LeftRun, BeginFault>
    where
        F: Lock,
        ensures { result ≡ Err Unfit → order.now.upkeep.continues ≡ true }
    {
        let path = own_path(self.alloc, folder, JOURNAL)?;
        let plan = &order.plan;
        let first = first_line(self.alloc, &plan.start, plan.others.as_slice())?;
        let left = left_at(rt, self.alloc, path.as_str(), first.as_slice())?;
        let (stopped, left) = match self.usable(rt, failures, path.as_str(), left, order.upkeep)? {
            Usable::Run(stopped, file) => (stopped, file),
            Usable::Theirs => return Ok(LeftRun::nothing(self.alloc)),
        };
        let LeftRun {
            pages,
            answers,
            texts,
        } = stopped;
        let (answers, texts) = if order.upkeep.timestamps {
            (EarlierAnswers::new(self.alloc), Vec::new(self.alloc))
        } else {
            (answers, texts)
        };
        if left.is_some() && takes_nothing(order.upkeep) {
            let (count, others) = (pages.len(), answers.len());
            self.tell_left(rt, failures, path.as_str(), count, others)?;
        }
        let front = if takes_nothing(order.upkeep) {
            first.as_slice().to_vec(self.alloc)?
        } else {
            text_of(self.alloc, first.as_slice(), &pages, texts.as_slice())?
        };
        let journal = Journal::new(self.alloc, path, front, left);
        let folder = String::from_str(self.alloc, folder)?;
        let journal = SharedJournal::of(self.alloc, folder, first, journal);
        set_journal(&mut self.journal.lock(rt), journal);
        Ok(LeftRun {
            pages,
            answers,
            texts,
        })
    }

    // What is known of earlier runs' pages below a folder, by these of one that was stopped and by the index.
    fn known_of<R: Wait + Files<File = F>>(
        &self,
        rt: &R,
        failures: &SharedFailures,
        folder: &str,
        upkeep: Upkeep,
        starts: &[u8],
        stopped: MirrorIndex,
    ) -> Result<KnownPages, AllocError> {
        if !keeps_index(upkeep) {
            let pages = if upkeep.continues {
                stopped
            } else {
                MirrorIndex::new(self.alloc)
            };
            return Ok(KnownPages::just(self.alloc, pages));
        }
        let Some(index) = index_of(rt, self.alloc, failures, folder)? else {
            return Ok(KnownPages::just(self.alloc, stopped));
        };
        let is_ours = says_starts(rt, self.alloc, folder, starts);
        if stopped.len() == 0 {
            return Ok(KnownPages {
                pages: index,
                before: stopped,
                is_index_there: true,
                uses_index: true,
                is_ours,
            });
        }
        Ok(KnownPages {
            pages: joined(self.alloc, &index, &stopped)?,
            before: index,
            is_index_there: false,
            uses_index: true,
            is_ours,
        })
    }

    // These pages of earlier runs below a folder, and these answers.
    fn earlier_of(
        &self,
        folder: &str,
        order: &Order,
        known: MirrorIndex,
        answers: EarlierAnswers,
    ) -> Result<Arc<Earlier>, AllocError> {
        let upkeep = order.upkeep;
        let folder = String::from_str(self.alloc, folder)?;
        let earlier = Earlier {
            pages: EarlierPages::new(self.alloc, folder, known),
            answers,
            is_asked: upkeep.timestamps,
            needs_digests: keeps_index(upkeep) || order.converts,
        };
        in_common(self.alloc, earlier)
    }

    /// A run of this order begins. From now on a journal of it is kept below its folder. The pages of the one that is there, if the order
    /// goes on with it or keeps an index, and of the index, if it keeps one, are requested only to see if they changed, or not at all, as
    /// the order says, if their files are as they were. If the index can't be used a line for a person says so. What can't be gone on with
    /// is a fault only if the order goes on with it.
    pub fn begin<R: Wait + Files<File = F>>(
        &self,
        rt: &R,
        failures: &SharedFailures,
        order: &Order,
    ) -> Result<(), BeginFault>
    where
        F: Lock,
        ensures { result ≡ Err Unfit → order.now.upkeep.continues ≡ true }
    {
        let upkeep = order.upkeep;
        let folder = String::from_str(self.alloc, order.prefix.as_str())?;
        let left = self.begin_journal(rt, failures, folder.as_str(), order)?;
        let plan = &order.plan;
        let starts = first_line(self.alloc, &plan.start, plan.others.as_slice())?;
        let index = own_path(self.alloc, folder.as_str(), INDEX)?;
        let sight = sight_of(rt, index.as_str());
        let KnownPages {
            pages,
            before,
            is_index_there,
            uses_index,
            is_ours,
        } = self.known_of(
            rt,
            failures,
            folder.as_str(),
            upkeep,
            starts.as_slice(),
            left.pages,
        )?;
        let earlier = self.earlier_of(folder.as_str(), order, pages, left.answers)?;
        self.note_answers(rt, left.texts);
        let begun = BegunRun {
            folder,
            upkeep,
            backs_up: order.backs_up,
            has_originals: order.names.rules.has_originals,
            by_name: places_by_name(self.alloc, earlier.pages.index().entries())?,
            is_index_there,
            hides_bodies: order.converts && !order.backs_up && !keeps_index(upkeep),
            sight,
            uses_index,
            starts,
            is_ours,
            before,
            earlier,
        };
        let begun = in_common(self.alloc, begun)?;
        set(&mut self.begun.lock(rt), begun);
        Ok(())
    }

    /// What is known of earlier runs' pages, once a run began that takes of it. Without it no body is digested, which would cost a third of a
    /// run: its journal says when files were changed last.
    pub fn earlier<R: Wait>(&self, rt: &R) -> Option<Arc<Earlier>> {
        let begun = shared(&mut self.begun.lock(rt))?;
        if takes_nothing(begun.upkeep) {
            return None;
        }
        Arc::try_clone(&begun.earlier).ok()
    }

    /// What the run was begun with, once it was. None if there is no room to share it.
    pub(crate) fn begun<R: Wait>(&self, rt: &R) -> Option<Arc<BegunRun>> {
        shared(&mut self.begun.lock(rt))
    }

    /// Adds the line of a page that has its name to the journal, which is made if it is the first; `own` is the run's own directory.
    pub(crate) fn add_line<R: Wait + Files<File = F>>(
        &self,
        rt: &R,
        own: &str,
        line: &[u8],
    ) -> io::Result<()>
    where
        F: Write + Lock,
    {
        self.journal.lock(rt).add(rt, self.alloc, own, line)
    }

    /// Notes a page for the index.
    pub(crate) fn add_page<R: Wait>(&self, rt: &R, page: Entry) -> Result<(), AllocError> {
        push(&mut self.pages.lock(rt), page)
    }

    /// Notes what was received without a file, by its text, for a journal that is written anew.
    pub(crate) fn add_answer<R: Wait>(&self, rt: &R, answer: Vec<u8>) -> Result<(), AllocError> {
        push(&mut self.answers.lock(rt), answer)
    }

    // These texts are of an earlier run that this one goes on with.
    fn note_answers<R: Wait>(&self, rt: &R, answers: Vec<Vec<u8>>) {
        set_all(&mut self.answers.lock(rt), answers);
    }

    /// Pages, whose addresses are in order, are to be put under these names: files of earlier runs' pages give way, if any are known, and
    /// the bodies that were kept of pages whose files have others from now on.
    pub fn make_way<R: Wait + Files>(
        &self,
        rt: &R,
        failures: &SharedFailures,
        names: &[String],
        pages: &[Address],
        parts: &[KeptPart],
    ) -> Result<(), AllocError>
        requires order { IsAscending pages.now }
        requires count { length names.now ≡ length parts.now }
    {
        let Some(begun) = shared(&mut self.begun.lock(rt)) else {
            return Ok(());
        };
        let earlier = begun.earlier.pages.index().entries();
        if takes_nothing(begun.upkeep) || earlier.is_empty() {
            return Ok(());
        }
        let folder = begun.folder.as_str();
        for entries in [earlier, begun.before.entries()].as_slice() {
            let going = in_way(self.alloc, entries, names, pages, begun.backs_up)?;
            remove_all(rt, self.alloc, failures, folder, going.as_slice());
        }
        let renewed = renewed_names(self.alloc, names, parts)?;
        let copies = outdated(
            self.alloc,
            earlier,
            names,
            renewed.as_slice(),
            begun.backs_up,
        )?;
        remove_all(rt, self.alloc, failures, folder, copies.as_slice());
        Ok(())
    }

    /// These pages, whose addresses are in order, were put under these names: all of them, or some couldn't be put. If there is no memory to
    /// know, no index is written.
    pub fn note_put<R: Wait>(
        &self,
        rt: &R,
        names: &[String],
        pages: &[Address],
        is_all: bool,
    ) -> Result<(), AllocError>
        requires { IsAscending pages.now }
    {
        let Some(begun) = shared(&mut self.begun.lock(rt)) else {
            return Ok(());
        };
        let noted = take(self.alloc, &mut self.pages.lock(rt));
        let put = Put {
            pages: named_pages(self.alloc, noted.as_slice(), pages, names)?,
            gone: gone_of(self.alloc, &begun, begun.earlier.pages.index(), names)?,
            gone_before: gone_of(self.alloc, &begun, &begun.before, names)?,
            is_all,
            is_cut_off: false,
            is_sure: false,
        };
        set(&mut self.put.lock(rt), put);
        Ok(())
    }

    /// This is what was retrieved, which says whether what isn't in it is gone, and whether a connection failed.
    pub fn note_harvest<R: Wait, B: Drop>(&self, rt: &R, harvest: &Harvest<B>) {
        let Some(begun) = shared(&mut self.begun.lock(rt)) else {
            return;
        };
        let is_sure = begun.upkeep.deletes_gone && is_sure(harvest, begun.earlier.pages.index());
        let is_cut_off = is_cut_off(harvest.records());
        set_known(&mut self.put.lock(rt), is_sure, is_cut_off);
    }

    // Writes the index of what was put, after the files of gone pages were removed, if that is to be done.
    fn end_index<R: Wait + Files>(
        &self,
        rt: &R,
        failures: &SharedFailures,
        own: &str,
        begun: &BegunRun,
        put: &Put,
        is_whole: bool,
    ) -> io::Result<()>
    where
        R::File: Close,
    {
        let path = own_path(self.alloc, begun.folder.as_str(), INDEX)?;
        let end = IndexEnd {
            alloc: self.alloc,
            failures,
            begun,
            put,
            path: path.as_str(),
        };
        let removes = begun.upkeep.deletes_gone && is_whole && put.is_all;
        end.put(rt, own, removes)
    }

    // Has the journal say which pages there are under the names that they have in the end: others may have those that they had early.
    fn leave_journal<R: Wait + Files<File = F>>(
        &self,
        rt: &R,
        begun: &BegunRun,
        put: &Put,
    ) -> io::Result<()>
    where
        F: Write + Lock,
    {
        let pages = joined(self.alloc, begun.earlier.pages.index(), &put.pages)?;
        let answers = take(self.alloc, &mut self.answers.lock(rt));
        self.journal
            .lock(rt)
            .write_anew(rt, self.alloc, &pages, answers.as_slice())
    }

    // Removes the bodies in the program's own directory of the pages that were put, and of earlier ones: no run goes on with them.
    fn remove_hidden<R: Wait + Files>(
        &self,
        rt: &R,
        failures: &SharedFailures,
        begun: &BegunRun,
        put: &Put,
    ) -> Result<(), AllocError> {
        let folder = begun.folder.as_str();
        for pages in [&put.pages, begun.earlier.pages.index()].as_slice() {
            let names = hidden_names(self.alloc, pages.entries())?;
            remove_all(rt, self.alloc, failures, folder, names.as_slice());
        }
        Ok(())
    }

    /// The run has ended, and with all that was to be retrieved if that is said. If its files were put the index is written, if one is kept,
    /// also of those that couldn't be: their entries are no file's, so the next run requests them. `own` is the run's own directory. After all
    /// was retrieved the journal is removed, unless a file or an answer is missing that no index has. Failures are kept for a person.
    pub fn end<R: Wait + Files<File = F>>(
        &self,
        rt: &R,
        failures: &SharedFailures,
        own: &str,
        is_whole: bool,
    )
    where
        F: Close + Write + Lock,
    {
        let Some(put) = take_put(&mut self.put.lock(rt)) else {
            return;
        };
        let Some(begun) = shared(&mut self.begun.lock(rt)) else {
            return;
        };
        // Without a directory of its own the run has kept nothing, and what there was stays as it is.
        if begun.keeps_index() && !own.is_empty() {
            if let Err(error) = self.end_index(rt, failures, own, &begun, &put, is_whole) {
                failures.fail(rt, INDEX, &error);
            }
        }
        let is_done = is_whole && (begun.keeps_index() || (put.is_all && !put.is_cut_off));
        self.journal.lock(rt).end(rt, is_done);
        if is_done && begun.hides_bodies {
            if self.remove_hidden(rt, failures, &begun, &put).is_err() {
                failures.say(rt, "bodies in .wgetr%orig stay: out of memory\n");
            }
        }
        if !is_done && begun.notes_pages() {
            if let Err(error) = self.leave_journal(rt, &begun, &put) {
                failures.fail(rt, JOURNAL, &error);
            }
        }
    }
}
