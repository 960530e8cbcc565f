//! Where the keepers of a run put bodies until these get their names.
use crate::file_time::set_time;
use crate::own_dir::{OwnDir, make_own_dir};
use crate::part::{KeptPart, Standing};
use std::alloc::{AllocError, Global};
use std::fs::{File, Files};
use std::io::{ErrorKind, Write};
use std::sync::{Mutex, Wait};
use std::time::SystemTime;
use std::{fs, io, mem};
use streams::{Close, Lock};

// The system's numbers of what has no kind of its own: no descriptor for anybody, none for this process (errno(3), Linux).
const ENFILE: i32 = 23;

const EMFILE: i32 = 24;

/// Whether the system's error says that there is no descriptor.
pub fn lacks_descriptor(error: &io::Error) -> bool {
    match error.raw_os_error() {
        Some(number) => number == ENFILE || number == EMFILE,
        None => false,
    }
}

// A body for whose file there was no descriptor.
#[derive(Drop)]
struct Late {
    path: String,
    bytes: Vec<u8>,
    // When its page changed, if its file is to say so.
    changed: Option<SystemTime>,
}

// What a run has of its directory.
#[derive(Drop)]
struct RunDir<F> {
    // Below which folder it is to be.
    folder: String,
    // None before the first body.
    own: Option<OwnDir<F>>,
    // Whether the folder was made for it.
    is_folder_new: bool,
    // How many workers were to have a directory in it.
    workers: u32,
    late: Vec<Late>,
    // Why parts were lost, until that is reported.
    lost: Vec<Option<io::Error>>,
}

/// The directory of one worker's parts.
#[derive(Drop)]
pub(crate) struct WorkerDir {
    /// The path of the run's.
    pub(crate) dir: String,
    /// The worker's number.
    pub(crate) worker: u32,
}

/// A directory below a folder for the parts of a run, which all its workers share; no other run uses it. It is made when the first
/// body comes. Whoever drops it without [`PartsDir::remove`] leaves it to the next run in that folder, which removes it.
pub struct PartsDir<F: Drop> {
    alloc: Global,
    made: Mutex<RunDir<F>>,
}

// By hand: who drops one proves a call, and nothing of what it holds.
impl<F: Drop> Drop for PartsDir<F> {
    fn drop(self) {
        let PartsDir {
            alloc: _alloc,
            made: _made,
        } = self;
    }
}

// Finds or makes a folder. Whether it was made here.
fn find_folder<R: Files>(rt: &R, folder: &str) -> io::Result<bool> {
    let is_new = match rt.symlink_metadata(folder) {
        Err(e) => e.kind() == ErrorKind::NotFound,
        Ok(_) => false,
    };
    fs::create_dir_all(rt, folder)?;
    Ok(is_new)
}

// Makes the file of a part and writes it.
fn write_part<R: Files>(rt: &R, late: &Late) -> io::Result<()>
where
    R::File: Close,
{
    let path = late.path.as_str();
    let mut file = File::create_new(rt, path)?;
    if let Err(error) = file.write_all(late.bytes.as_slice()) {
        drop(file);
        let _ = rt.remove_file(path);
        return Err(error);
    }
    set_time(&file, late.changed);
    file.close()
}

// These functions take `&mut` to what is under the lock, so that no early return of theirs releases it.

// Makes the directory, unless it is there. Its path.
fn make<R: Files>(rt: &R, alloc: Global, made: &mut RunDir<R::File>) -> io::Result<String>
where
    R::File: Lock,
{
    if let Some(own) = &made.own {
        return Ok(String::from_str(alloc, own.path())?);
    }
    let is_new = find_folder(rt, made.folder.as_str())?;
    made.is_folder_new = made.is_folder_new || is_new;
    let own = make_own_dir(rt, alloc, made.folder.as_str())?;
    let path = String::from_str(alloc, own.path());
    made.own = Some(own);
    Ok(path?)
}

// A directory for one more worker.
fn enter<R: Files>(rt: &R, alloc: Global, made: &mut RunDir<R::File>) -> io::Result<WorkerDir>
where
    R::File: Lock,
{
    let dir = make(rt, alloc, made)?;
    let worker = made.workers;
    let path = format!(in alloc; "{dir}/{worker}")?;
    made.workers = worker.saturating_add(1);
    rt.create_dir(path.as_str())?;
    Ok(WorkerDir { dir, worker })
}

// It is to be below this folder.
fn set_folder<F: Drop>(made: &mut RunDir<F>, folder: &str) -> Result<(), AllocError> {
    made.folder.clear();
    made.folder
        .push_str(if folder.is_empty() { "." } else { folder })
}

// Below which folder it is to be.
fn folder_of<F: Drop>(alloc: Global, made: &mut RunDir<F>) -> Result<String, AllocError> {
    String::from_str(alloc, made.folder.as_str())
}

// Its path; empty if it wasn't made.
fn path_of<F: Drop>(alloc: Global, made: &mut RunDir<F>) -> Result<String, AllocError> {
    match &made.own {
        Some(own) => String::from_str(alloc, own.path()),
        None => Ok(String::new(alloc)),
    }
}

// Takes it away, and the folder if that was made for it and has nothing else.
fn remove<R: Files>(rt: &R, alloc: Global, made: &mut RunDir<R::File>) {
    let Some(own) = mem::replace(&mut made.own, None) else {
        return;
    };
    own.remove(rt, alloc);
    if made.is_folder_new {
        let _ = rt.remove_dir(made.folder.as_str());
    }
}

// One more body is to be written later.
fn push_late<F: Drop>(made: &mut RunDir<F>, late: Late) -> Result<(), AllocError> {
    made.late.push(late)?;
    Ok(())
}

// A part was lost for this reason. Gives its number among those.
fn lose<F: Drop>(made: &mut RunDir<F>, error: io::Error) -> Result<usize, AllocError> {
    let number = made.lost.len();
    made.lost.push(Some(error))?;
    Ok(number)
}

// Why the part of this number was lost; each reason is returned once.
fn take_reason<F: Drop>(made: &mut RunDir<F>, number: usize) -> Option<io::Error> {
    match made.lost.get_mut(number) {
        Some(reason) => mem::replace(reason, None),
        None => None,
    }
}

// Whether there are such bodies.
fn has_late<F: Drop>(made: &mut RunDir<F>) -> bool {
    !made.late.is_empty()
}

// These bodies, of which there are none from then on.
fn take_late<F: Drop>(alloc: Global, made: &mut RunDir<F>) -> Vec<Late> {
    mem::replace(&mut made.late, Vec::new(alloc))
}

impl<F: Lock + Close + Drop> PartsDir<F> {
    /// Nothing is made yet. Takes no memory.
    pub fn new(alloc: Global) -> PartsDir<F> {
        PartsDir {
            alloc,
            made: Mutex::new(RunDir {
                folder: String::new(alloc),
                own: None,
                is_folder_new: false,
                workers: 0,
                late: Vec::new(alloc),
                lost: Vec::new(alloc),
            }),
        }
    }

    /// It is to be below this folder, which is made too if it isn't there; the empty path is `.`.
    pub fn set_folder<R: Wait>(&self, rt: &R, folder: &str) -> Result<(), AllocError> {
        set_folder(&mut self.made.lock(rt), folder)
    }

    /// Below which folder it is to be.
    pub fn folder<R: Wait>(&self, rt: &R) -> Result<String, AllocError> {
        folder_of(self.alloc, &mut self.made.lock(rt))
    }

    // A directory for one more worker. The first makes the run's, and removes those that ended runs left. The error is the system's.
    pub(crate) fn enter<R: Files<File = F> + Wait>(&self, rt: &R) -> io::Result<WorkerDir> {
        enter(rt, self.alloc, &mut self.made.lock(rt))
    }

    /// Its path; empty if no body came.
    pub fn path<R: Wait>(&self, rt: &R) -> Result<String, AllocError> {
        path_of(self.alloc, &mut self.made.lock(rt))
    }

    // Has a body written once there is a descriptor, whose page changed at this time, if its file is to say so.
    pub(crate) fn put_off<R: Wait>(
        &self,
        rt: &R,
        path: String,
        bytes: Vec<u8>,
        changed: Option<SystemTime>,
    ) -> Result<(), AllocError> {
        let late = Late {
            path,
            bytes,
            changed,
        };
        push_late(&mut self.made.lock(rt), late)
    }

    // A part was lost for this reason. Gives its number among those.
    pub(crate) fn lose<R: Wait>(&self, rt: &R, error: io::Error) -> Result<usize, AllocError> {
        lose(&mut self.made.lock(rt), error)
    }

    /// Why this part was lost, if it was and nobody asked before.
    pub fn reason<R: Wait>(&self, rt: &R, part: &KeptPart) -> Option<io::Error> {
        match part.standing {
            Standing::Lost => take_reason(&mut self.made.lock(rt), part.number as usize),
            Standing::Whole | Standing::Named | Standing::Waiting | Standing::Absent => None,
        }
    }

    /// Whether there are bodies for whose files there was no descriptor.
    pub fn has_late<R: Wait>(&self, rt: &R) -> bool {
        has_late(&mut self.made.lock(rt))
    }

    /// Writes these bodies; those for which there is still no descriptor wait on. One that can't be written for another reason is lost.
    pub fn write_late<R: Files<File = F> + Wait>(&self, rt: &R) {
        let all = take_late(self.alloc, &mut self.made.lock(rt));
        for late in all {
            self.write_or_put_off(rt, late);
        }
    }

    // Writes one of them, unless there is no descriptor.
    fn write_or_put_off<R: Files<File = F> + Wait>(&self, rt: &R, late: Late) {
        match write_part(rt, &late) {
            Err(error) if lacks_descriptor(&error) => {
                let _ = push_late(&mut self.made.lock(rt), late);
            }
            _ => drop(late),
        }
    }

    /// Removes it, with the parts that have no name, and the folder if it was made for it and is empty.
    pub fn remove<R: Files<File = F> + Wait>(&self, rt: &R) {
        remove(rt, self.alloc, &mut self.made.lock(rt));
    }
}
