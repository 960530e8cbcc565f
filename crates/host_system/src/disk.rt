//! What is put on the disk: the pages' folder, and a record. What can't be put there is kept for a person.
ghost use Rattle.std.specs.Prelude.{◌≡◌, length};
ghost use Rattle.address.specs.AddressOrder.{IsAscending};

use crate::early_run::EarlyRun;
use crate::part_threads::PartThreads;
use address::Address;
use early_names::{EarlyRules, is_early};
use kept_bodies::Body;
use local_tree::{
    BodyChange, ChangeCrew, DiskFolder, FileToChange, Folder, FolderFault, NamesParts, Originals,
    Shelf, WriteFault, put_changed_parts, put_parts,
};
use mirror_upkeep::displaced;
use part_keeper::{KeptPart, PartsDir, Standing};
use program_io::SharedFailures;
use record_journal::SavedFile;
use run_index::{IndexRun, remove_all};
use std::alloc::{AllocError, Global};
use std::fs::Files;
use std::io;
use std::io::{Error, ErrorKind, Write};
use std::net::Net;
use std::sync::Wait;
use std::thread::Threads;
use streams::{Close, Lock};
use tcp_connect::KeptConnections;

/// The folder of a run's pages. Before one is put the connections that wait are ended, since a file needs a descriptor too. Bodies
/// in memory are made ready in threads; those in parts are renamed.
pub struct PageFolder<'a, R: Net + Files + Wait> {
    pub(crate) inner: DiskFolder<'a, R>,
    pub(crate) rt: &'a R,
    pub(crate) kept: &'a KeptConnections<R::Stream>,
    pub(crate) crew: &'a PartThreads<'a, R>,
    pub(crate) parts: &'a PartsDir<R::File>,
    pub(crate) alloc: Global,
    pub(crate) early: &'a EarlyRun,
    pub(crate) index: &'a IndexRun<R::File>,
    pub(crate) failures: &'a SharedFailures,
    // Where bodies are kept, as they came, of files whose links change.
    pub(crate) originals: Originals,
}

// Written by hand: a user that drops one proves a call, and nothing about its fields.
impl<'a, R: Net + Files + Wait> Drop for PageFolder<'a, R> {
    fn drop(self) {
        let PageFolder {
            inner: _inner,
            rt: _rt,
            kept: _kept,
            crew: _crew,
            parts: _parts,
            alloc: _alloc,
            early: _early,
            index: _index,
            failures: _failures,
            originals: _originals,
        } = self;
    }
}

// Moves the part of a page back from the name that it was given early, unless that is its name. If there is no memory to know, it
// isn't put.
fn take_back_from<R: Files>(
    alloc: Global,
    rules: &EarlyRules,
    folder: &mut DiskFolder<'_, R>,
    name: &str,
    page: &Address,
    part: &KeptPart,
)
where
    R::File: Close + Lock,
    ensures { folder.new ≡ folder.old }
{
    match rules.name_of(alloc, part.kind, page) {
        Ok(early) => {
            if early.as_str() != name {
                folder.take_back(early.as_str(), part);
            }
        }
        Err(_) => folder.give_up(part),
    }
}

// Adds the name that a part might have had early, if it has none and gets another.
fn push_alone(
    alloc: Global,
    rules: &EarlyRules,
    alone: &mut Vec<String>,
    name: &str,
    page: &Address,
    part: &KeptPart,
) -> Result<(), AllocError> {
    if !matches!(part.standing, Standing::Whole | Standing::Waiting) {
        return Ok(());
    }
    let early = rules.name_of(alloc, part.kind, page)?;
    if early.as_str() != name && is_early(early.as_str()) {
        alone.push(early)?;
    }
    Ok(())
}

// Whether each of these parts has a name that it was given early. Then no other name is needed: of claimed names none is another or a
// directory of it (`early_names::Claims::claim.clear`), and a page whose plain name is so in the way of no other page has that in the end
// (`local_names::names.naming`).
fn are_all_named(parts: &[KeptPart]) -> bool {
    for part in parts {
        if part.standing != Standing::Named {
            return false;
        }
    }
    true
}

// The line for a page whose links would be read otherwise if they were changed.
fn unread_line(alloc: Global, name: &str) -> Result<String, AllocError> {
    format!(in alloc;
        "the links of {name} stay as they were: changed ones wouldn't be read as they are to be\n"
    )
}

impl<'a, R: Net + Files + Wait> PageFolder<'a, R>
where
    R::File: Close + Lock,
{
    ghost use Rattle.std.specs.Prelude.{◌≡◌, length};

    // Keeps why the file of this name couldn't be put.
    fn note(&self, name: &str) {
        if let Some(error) = self.inner.error() {
            self.failures.fail(self.rt, name, error);
        }
    }

    // Keeps why the links of the file of this name couldn't be changed.
    fn note_unchanged(&self, name: &str, error: &Error) {
        if error.kind() == ErrorKind::InvalidData {
            if let Ok(text) = unread_line(self.alloc, name) {
                self.failures.say(self.rt, text.as_str());
            }
        } else {
            self.failures.fail(self.rt, name, error);
        }
    }

    // The same of the last file that was put.
    fn note_left(&self, name: &str) {
        if let Some(error) = self.inner.error() {
            self.note_unchanged(name, error);
        }
    }

    // Has all parts ready to get their names. No connection is in use any more.
    fn take_parts(&mut self)
        ensures { self.new.inner ≡ self.old.inner }
    {
        self.kept.end_waiting(self.rt);
        self.parts.write_late(self.rt);
        if let Ok(path) = self.parts.path(self.rt) {
            self.inner.take_from(path);
        }
    }

    // Has those of these parts ready to get their names that were given others early.
    fn take_back(&mut self, names: &[String], pages: &[Address], parts: &[KeptPart])
        requires count { length names.now ≡ length parts.now }
        requires pages { length pages.now ≡ length parts.now }
        ensures { self.new.inner ≡ self.old.inner }
    {
        if are_all_named(parts) {
            return;
        }
        let Some(rules) = self.early.rules(self.rt) else {
            return;
        };
        for (i, name) in names.iter().enumerate() {
            let part = &parts[i];
            if part.standing == Standing::Named {
                take_back_from(
                    self.alloc,
                    &rules,
                    &mut self.inner,
                    name.as_str(),
                    &pages[i],
                    part,
                );
            }
        }
    }

    // Has each file give way that is where a directory of these names is to be, if a page has the file's name by itself and gets another.
    // If its body had come first it would have had that name, in the file's place, until it was moved back: so files don't depend on
    // which came first.
    fn displace(&self, names: &[String], pages: &[Address], parts: &[KeptPart]) -> io::Result<()>
        requires count { length names.now ≡ length parts.now }
        requires pages { length pages.now ≡ length parts.now }
    {
        let Some(rules) = self.early.rules(self.rt) else {
            return Ok(());
        };
        let mut alone = Vec::new(self.alloc);
        for (i, name) in names.iter().enumerate() {
            push_alone(
                self.alloc,
                &rules,
                &mut alone,
                name.as_str(),
                &pages[i],
                &parts[i],
            )?;
        }
        if alone.is_empty() {
            return Ok(());
        }
        let going = displaced(self.alloc, alone.as_slice(), names)?;
        let folder = self.parts.folder(self.rt)?;
        remove_all(
            self.rt,
            self.alloc,
            self.failures,
            folder.as_str(),
            going.as_slice(),
        );
        Ok(())
    }

    // Has files that were there before give way to these names of pages, unless a body was lost, so that its page's earlier file stays. What
    // stays is in the way of a file.
    fn make_way(&self, names: &[String], pages: &[Address], parts: &[KeptPart])
        requires order { IsAscending pages.now }
        requires count { length names.now ≡ length parts.now }
        requires pages { length pages.now ≡ length parts.now }
    {
        if parts.iter().any(|part| part.standing == Standing::Lost) {
            return;
        }
        let _ = self
            .index
            .make_way(self.rt, self.failures, names, pages, parts);
        if !are_all_named(parts) {
            let _ = self.displace(names, pages, parts);
        }
    }

    // Notes for the index that these pages were put: all of them, or some couldn't be put.
    fn note_put(&self, names: &[String], pages: &[Address], is_all: bool)
        requires { IsAscending pages.now }
    {
        let _ = self.index.note_put(self.rt, names, pages, is_all);
    }

    // Keeps why the file of this name couldn't be put, whose bytes were to be this part: it was lost, or it got no name.
    fn note_part(&self, name: &str, part: &KeptPart) {
        match part.standing {
            Standing::Lost => {
                if let Some(error) = self.parts.reason(self.rt, part) {
                    self.failures.fail(self.rt, name, &error);
                }
            }
            Standing::Whole | Standing::Named | Standing::Waiting | Standing::Absent => {
                self.note(name)
            }
        }
    }
}

impl<'a, R: Net + Files + Wait + Threads> Folder for PageFolder<'a, R>
where
    R::File: Close + Lock,
{
    ghost use Rattle.std.specs.Prelude.{None};

    ghost files = { λ _. None };

    ghost failed = { λ d. d.inner.failed };

    fn put(&mut self, name: &str, bytes: &[u8]) -> Result<(), FolderFault> {
        self.kept.end_waiting(self.rt);
        let put = self.inner.put(name, bytes);
        if put.is_err() {
            self.note(name);
        }
        put
    }

    fn put_site(&mut self, names: &[String], bodies: &[Body]) -> Result<(), WriteFault> {
        self.kept.end_waiting(self.rt);
        let put = self.inner.put_site_by(self.crew, names, bodies);
        if let Err(WriteFault::Device(place)) = put {
            if let Some(name) = names.get(place) {
                self.note(name.as_str());
            }
        }
        put
    }

    fn failures(&self) -> u64 {
        self.inner.failures()
    }
}

impl<'a, R: Net + Files + Wait> NamesParts for PageFolder<'a, R>
where
    R::File: Close + Lock,
{
    ghost failed = { λ d. d.inner.failed };

    fn put_part(&mut self, name: &str, part: &KeptPart) -> Result<(), FolderFault> {
        let put = self.inner.put_kept(name, part);
        if put.is_err() {
            self.note_part(name, part);
        }
        put
    }

    fn change_parts<C: BodyChange, W: ChangeCrew>(
        &mut self,
        files: &[FileToChange<'_>],
        change: &C,
        crew: &W,
    ) -> bool {
        let disk = self.crew.disk();
        let unchanged = self.inner.change_files(disk, files, change, crew);
        for (name, error) in unchanged.reasons() {
            self.note_unchanged(name, error);
        }
        unchanged.is_empty()
    }
}

impl<'a, R: Net + Files + Wait + Threads> Shelf<KeptPart> for PageFolder<'a, R>
where
    R::File: Close + Lock,
{
    ghost use Rattle.std.specs.Prelude.{⊤};

    // Of what is on the disk nothing is known.
    ghost holds = { λ part body. ⊤ };

    fn put_kept(&mut self, name: &str, kept: &KeptPart) -> Result<(), FolderFault> {
        self.put_part(name, kept)
    }

    fn put_bodies(
        &mut self,
        names: &[String],
        pages: &[Address],
        bodies: &[KeptPart],
    ) -> Result<(), WriteFault> {
        self.take_parts();
        self.take_back(names, pages, bodies);
        self.make_way(names, pages, bodies);
        let put = put_parts(self, names, bodies);
        self.note_put(names, pages, put.is_ok());
        put
    }

    fn put_changed_kept<C: BodyChange>(
        &mut self,
        alloc: Global,
        place: usize,
        name: &str,
        kept: &KeptPart,
        change: &C,
    ) -> Result<bool, FolderFault> {
        let put = self
            .inner
            .put_changed_kept(alloc, place, name, kept, change);
        match put {
            Ok(true) => {}
            Ok(false) => self.note_left(name),
            Err(_) => self.note_part(name, kept),
        }
        put
    }

    fn put_changed_bodies<C: BodyChange, W: ChangeCrew>(
        &mut self,
        alloc: Global,
        names: &[String],
        pages: &[Address],
        bodies: &[KeptPart],
        change: &C,
        crew: &W,
    ) -> Result<bool, WriteFault> {
        self.take_parts();
        self.take_back(names, pages, bodies);
        self.make_way(names, pages, bodies);
        self.inner.keep_originals(self.originals, names);
        let put = put_changed_parts(alloc, self, names, bodies, change, crew);
        self.inner.end_puts();
        self.note_put(names, pages, put.is_ok());
        put
    }
}

/// The record of a run. Before it is written the connections that wait are ended, too.
pub struct Saved<'a, R: Net + Wait + Eprint + Files> {
    pub(crate) inner: SavedFile<'a, R>,
    pub(crate) rt: &'a R,
    pub(crate) kept: &'a KeptConnections<R::Stream>,
    pub(crate) failures: &'a SharedFailures,
    pub(crate) path: String,
    // Whether it is kept that it can't be put.
    pub(crate) is_lost: bool,
}

// Written by hand: a user that drops one proves a call, and nothing about its fields.
impl<'a, R: Net + Wait + Eprint + Files> Drop for Saved<'a, R> {
    fn drop(self) {
        let Saved {
            inner: _inner,
            rt: _rt,
            kept: _kept,
            failures: _failures,
            path: _path,
            is_lost: _is_lost,
        } = self;
    }
}

impl<'a, R: Net + Wait + Eprint + Files> Saved<'a, R> {
    // Keeps why it can't be put, once. An interrupted call may be made again.
    fn note<T>(&mut self, answer: &io::Result<T>) {
        let Err(error) = answer else {
            return;
        };
        if !self.is_lost && error.kind() != ErrorKind::Interrupted {
            self.is_lost = true;
            self.failures.fail(self.rt, self.path.as_str(), error);
        }
    }
}

impl<'a, R: Net + Wait + Eprint + Files> Write for Saved<'a, R>
where
    R::File: Close,
{
    ghost use Rattle.std.specs.Prelude.{None};

    ghost contents = { λ _. None };

    fn write(&mut self, bytes: &[u8]) -> io::Result<usize> {
        self.kept.end_waiting(self.rt);
        let answer = self.inner.write(bytes);
        self.note(&answer);
        answer
    }

    fn write_all(&mut self, bytes: &[u8]) -> io::Result<()> {
        self.kept.end_waiting(self.rt);
        let answer = self.inner.write_all(bytes);
        self.note(&answer);
        answer
    }

    fn flush(&mut self) -> io::Result<()> {
        let answer = self.inner.flush();
        self.note(&answer);
        answer
    }
}
