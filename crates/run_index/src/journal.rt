//! The journal of each run, below its folder: the pages whose files are there already, and what was received without a file, so that
//! another run goes on if this one is stopped. Its first line has its version and the STARTs, and each further one is an entry as the index
//! has them, or a text of `earlier_answers`. How it is written is `run_journal`'s.
use earlier_answers::EarlierAnswers;
use mirror_index::{MAX_INDEX, MirrorIndex};
use mirror_upkeep::{StoppedRun, push_answer, push_entry, read_journal, reason};
use run_journal::Journal;
use std::alloc::{AllocError, Global};
use std::fs::{File, Files};
use std::io;
use std::io::{Error, ErrorKind, Write};
use streams::{Lock, ReadInputFault, read_input};
use system_disk::{SystemDisk, SystemFolder};

/// What it is called, directly below the folder. No page has a name that begins so.
pub(crate) const JOURNAL: &str = ".wgetr%journal";

/// What a journal says.
#[derive(Drop)]
pub(crate) struct LeftRun {
    /// Which pages have their files.
    pub(crate) pages: MirrorIndex,
    /// What was received without a file.
    pub(crate) answers: EarlierAnswers,
    /// The texts of that.
    pub(crate) texts: Vec<Vec<u8>>,
}

impl LeftRun {
    /// Nothing. Takes no memory.
    pub(crate) fn nothing(alloc: Global) -> LeftRun {
        LeftRun {
            pages: MirrorIndex::new(alloc),
            answers: EarlierAnswers::new(alloc),
            texts: Vec::new(alloc),
        }
    }
}

/// What an earlier run left at the place of a journal.
pub(crate) enum LeftJournal<F> {
    /// Nothing.
    Nothing,
    /// This, and the journal, which this run holds.
    Run(LeftRun, F),
    /// Nothing that can be gone on with, and why.
    Unfit(String),
    /// The journal of a run that is at work.
    Busy,
}

// Nothing that can be gone on with, for this reason.
fn unfit<F>(alloc: Global, why: &str) -> Result<LeftJournal<F>, AllocError> {
    Ok(LeftJournal::Unfit(String::from_str(alloc, why)?))
}

// What these texts say. None if one of them is no answer's.
fn answers_in(alloc: Global, texts: &[Vec<u8>]) -> Result<Option<EarlierAnswers>, AllocError> {
    let mut answers = EarlierAnswers::new(alloc);
    for text in texts {
        if !answers.add(text.as_slice())? {
            return Ok(None);
        }
    }
    Ok(Some(answers))
}

// What is said by a journal whose lines were read, and which this run holds.
fn left_run<F: Drop>(
    alloc: Global,
    stopped: StoppedRun,
    file: F,
) -> Result<LeftJournal<F>, AllocError> {
    let (pages, texts) = stopped.into_parts();
    match answers_in(alloc, texts.as_slice())? {
        Some(answers) => Ok(LeftJournal::Run(
            LeftRun {
                pages,
                answers,
                texts,
            },
            file,
        )),
        None => unfit(alloc, "has an answer that isn't written"),
    }
}

// What is said by an open journal that begins with this line, and which this run holds.
fn run_in<F: io::Read + Drop>(
    alloc: Global,
    file: F,
    first: &[u8],
) -> Result<LeftJournal<F>, AllocError> {
    let mut file = file;
    let bytes = match read_input(alloc, &mut file, MAX_INDEX) {
        Ok(bytes) => bytes,
        Err(ReadInputFault::Long) => return unfit(alloc, "is too long"),
        Err(ReadInputFault::Failed) => return unfit(alloc, "can't be read"),
        Err(ReadInputFault::Memory) => return Err(AllocError),
    };
    match read_journal(alloc, bytes.as_slice(), first) {
        Ok(stopped) => left_run(alloc, stopped, file),
        Err(fault) => Ok(LeftJournal::Unfit(reason(alloc, fault)?)),
    }
}

/// Whether an error says that nothing is at a path.
pub(crate) fn is_nothing(error: &io::Error) -> bool {
    matches!(error.kind(), ErrorKind::NotFound | ErrorKind::NotADirectory)
}

/// What an earlier run left at a path, for a run whose journal begins with this line.
pub(crate) fn left_at<R: Files>(
    rt: &R,
    alloc: Global,
    path: &str,
    first: &[u8],
) -> Result<LeftJournal<R::File>, AllocError>
where
    R::File: Lock,
{
    match rt.symlink_metadata(path) {
        Ok(found) if found.is_file() => {}
        Err(e) if is_nothing(&e) => return Ok(LeftJournal::Nothing),
        _ => return unfit(alloc, "isn't a file"),
    }
    let Ok(file) = File::open(rt, path) else {
        return unfit(alloc, "can't be read");
    };
    // A system without such locks has one run at a time there.
    if !file.hold().unwrap_or(true) {
        return Ok(LeftJournal::Busy);
    }
    run_in(alloc, file, first)
}

/// The text of a journal with this first line, these pages and these answers.
pub(crate) fn text_of(
    alloc: Global,
    first: &[u8],
    pages: &MirrorIndex,
    answers: &[Vec<u8>],
) -> Result<Vec<u8>, AllocError> {
    let mut text = first.to_vec(alloc)?;
    for entry in pages.entries() {
        push_entry(alloc, &mut text, entry)?;
    }
    for answer in answers {
        push_answer(alloc, &mut text, answer.as_slice())?;
    }
    Ok(text)
}

/// The journal of a run on the disk, to which its workers add under a lock.
#[derive(Drop)]
pub(crate) struct SharedJournal<F: Drop> {
    journal: Journal<F>,
    folder: SystemFolder<F>,
    // Its first line.
    first: Vec<u8>,
    // The path of the file that it begins as. Empty before the first page.
    part: String,
}

// What the system said of the call that failed.
fn error_of<F: Drop>(folder: &mut SystemFolder<F>) -> Error {
    folder.take_error().unwrap_or(Error::from(ErrorKind::Other))
}

impl<F: Drop> SharedJournal<F> {
    /// None is kept. Takes no memory.
    pub(crate) fn none(alloc: Global) -> SharedJournal<F> {
        SharedJournal {
            journal: Journal::none(alloc),
            folder: SystemFolder::new(String::new(alloc)),
            first: Vec::new(alloc),
            part: String::new(alloc),
        }
    }

    /// This one, which has this first line, at a path below a folder.
    pub(crate) fn of(
        alloc: Global,
        folder: String,
        first: Vec<u8>,
        journal: Journal<F>,
    ) -> SharedJournal<F> {
        SharedJournal {
            journal,
            folder: SystemFolder::new(folder),
            first,
            part: String::new(alloc),
        }
    }

    /// Adds the line of an entry, by way of the run's own directory if it is the first. After an error nothing more is added.
    pub(crate) fn add<R: Files<File = F>>(
        &mut self,
        rt: &R,
        alloc: Global,
        own: &str,
        line: &[u8],
    ) -> io::Result<()>
    where
        F: Write + Lock,
    {
        if self.part.is_empty() {
            self.part = format!(in alloc; "{own}/journal")?;
        }
        let mut disk = SystemDisk::new(rt, &mut self.folder);
        match self.journal.add(&mut disk, self.part.as_str(), line) {
            Ok(_) => Ok(()),
            Err(_) => Err(error_of(&mut self.folder)),
        }
    }

    /// Has it say just these pages and answers: the run has ended, and is gone on with by these. If that fails it stays as it is.
    pub(crate) fn write_anew<R: Files<File = F>>(
        &mut self,
        rt: &R,
        alloc: Global,
        pages: &MirrorIndex,
        answers: &[Vec<u8>],
    ) -> io::Result<()>
    where
        F: Write + Lock,
    {
        let text = text_of(alloc, self.first.as_slice(), pages, answers)?;
        let mut disk = SystemDisk::new(rt, &mut self.folder);
        match self
            .journal
            .renew(&mut disk, self.part.as_str(), text.as_slice())
        {
            Ok(_) => Ok(()),
            Err(_) => Err(error_of(&mut self.folder)),
        }
    }

    /// The run has ended. If it is whole its journal is removed, and the one that it goes on from.
    pub(crate) fn end<R: Files<File = F>>(&mut self, rt: &R, is_whole: bool)
    where
        F: Lock,
    {
        let mut disk = SystemDisk::new(rt, &mut self.folder);
        let _ = self.journal.end(&mut disk, is_whole);
    }
}
