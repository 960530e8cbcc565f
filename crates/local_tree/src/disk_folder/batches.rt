//! The files of a site that a crew makes ready side by side, some at a time, while those before them get their names.
ghost use Rattle.std.specs.Prelude.{◌≡◌, IfErr, OnOk, length, map, string_bytes};
ghost use Rattle.local_tree.specs.Folders.{untold};
ghost use Rattle.local_tree.specs.SiteFiles.{IsTornBy};

use super::DiskFolder;
use super::places::{Known, find_place};
use crate::parts::{Batch, FilePart, Naming, PartCrew};
use crate::site_files::WriteFault;
use kept_bodies::Body;
use std::alloc::{AllocError, Global};
use std::fs::Files;
use std::io::ErrorKind;
use std::{io, mem};
use streams::{Close, Lock};

/// How many files of a site are made ready together, at most.
const BATCH: usize = 256;

/// Fewer files of a site than these are put one after another.
const FEW: usize = 16;

// Parts that are ready, and the names of their files, from that at a place on.
#[derive(Drop)]
struct InOrder<'s, 'h, R> {
    rt: &'s R,
    alloc: Global,
    prefix: &'s str,
    known: Known,
    ready: &'s [FilePart<'h>],
    names: &'s [String],
    from: usize,
    // How many have their names.
    named: usize,
}

impl<'s, 'h, R: Files> InOrder<'s, 'h, R> {
    // Gives the next part its name, if it is ready for that. Returns whether that ended well.
    fn give_name(&mut self, part: &FilePart<'_>, place: usize) -> bool {
        if !part.is_ready_for(place) {
            return false;
        }
        let Some(name) = self.names.get(place) else {
            return false;
        };
        match find_place(
            self.rt,
            self.alloc,
            self.prefix,
            &mut self.known,
            name.as_str(),
        ) {
            Ok(path) => part.rename(self.rt, path.as_str()).is_ok(),
            Err(_) => false,
        }
    }
}

impl<'s, 'h, R: Files> Naming for InOrder<'s, 'h, R> {
    fn give_names(&mut self) {
        let ready = self.ready;
        for (i, part) in ready.iter().enumerate() {
            if !self.give_name(part, self.from.saturating_add(i)) {
                return;
            }
            self.named = self.named.saturating_add(1);
        }
    }
}

// The path of the directory of a batch that begins at this place, in the run's own. It differs from those of the batches before and
// after it.
fn batch_path(alloc: Global, own: &str, from: usize) -> Result<String, AllocError> {
    let number = from / BATCH % 2;
    format!(in alloc; "{own}/{number}")
}

// Makes a new directory for a batch. One that couldn't be removed is removed first.
fn make_new_dir<R: Files>(rt: &R, alloc: Global, path: &str) -> io::Result<()> {
    match rt.create_dir(path) {
        Err(e) if e.kind() == ErrorKind::AlreadyExists => {
            rt.remove_dir_all(alloc, path)?;
            rt.create_dir(path)
        }
        made => made,
    }
}

// Whether a batch begins with the file at this place of so many. The first file is put alone, since it makes the folder.
fn begins_batch(place: usize, files: usize) -> bool {
    place % BATCH == 1 && files.saturating_sub(place) >= FEW
}

// The files from this place on, a batch at most, in a directory of the run's own.
fn batch_from<'h>(
    alloc: Global,
    own: &str,
    bodies: &'h [Body],
    from: usize,
) -> Result<Batch<'h>, AllocError> {
    let end = from.saturating_add(BATCH).min(bodies.len());
    let dir = batch_path(alloc, own, from)?;
    let mut parts = Vec::new(alloc);
    for i in from..end {
        let number = i - from;
        let path = format!(in alloc; "{dir}/{number}")?;
        parts.push(FilePart::new(i, path, bodies[i].as_slice()))?;
    }
    Ok(Batch { dir, parts })
}

// The next batch, from this place on, in a new directory; an empty one if none begins there, or there is no memory for it, or no
// directory.
fn next_batch<'h, R: Files>(
    rt: &R,
    alloc: Global,
    own: Option<&str>,
    bodies: &'h [Body],
    from: usize,
) -> Batch<'h> {
    let Some(own) = own else {
        return Batch::empty(alloc);
    };
    if !begins_batch(from, bodies.len()) {
        return Batch::empty(alloc);
    }
    match batch_from(alloc, own, bodies, from) {
        Ok(batch) if make_new_dir(rt, alloc, batch.dir.as_str()).is_ok() => batch,
        _ => Batch::empty(alloc),
    }
}

impl<'a, R: Files> DiskFolder<'a, R>
where
    R::File: Close + Lock,
{
    // Where parts are made, if the directory is there.
    fn own_path(&self) -> Option<&str> {
        match &self.own {
            Some(own) => Some(own.path()),
            None => None,
        }
    }

    // Has the crew write these parts, while these that are ready get the names of the files from this place on, until one doesn't.
    // Gives how many did.
    fn name_while_writing<C: PartCrew>(
        &mut self,
        crew: &C,
        ready: &[FilePart<'_>],
        names: &[String],
        from: usize,
        parts: &mut [FilePart<'_>],
    ) -> usize
        ensures { self.new ≡ self.old }
    {
        let mut naming = InOrder {
            rt: self.rt,
            alloc: self.alloc,
            prefix: self.prefix.as_str(),
            known: mem::replace(&mut self.known, Known::nothing(self.alloc)),
            ready,
            names,
            from,
            named: 0,
        };
        crew.write_parts(parts, &mut naming);
        let InOrder { known, named, .. } = naming;
        self.known = known;
        named
    }

    // Gives the files of a batch, which begins at this place, their names; if none is ready, they are made ready first. Those of
    // the next batch are made ready meanwhile. If one doesn't get its name all parts are taken away, so that its file has the
    // room that it would have without them. Returns the place after the last that got its name.
    fn name_batch<'h, C: PartCrew>(
        &mut self,
        crew: &C,
        ready: &mut Batch<'h>,
        names: &[String],
        bodies: &'h [Body],
        from: usize,
    ) -> usize
        ensures { self.new ≡ self.old }
    {
        if ready.parts.is_empty() {
            *ready = next_batch(self.rt, self.alloc, self.own_path(), bodies, from);
            self.name_while_writing(crew, &[], names, from, ready.parts.as_mut_slice());
        }
        let mut next = next_batch(
            self.rt,
            self.alloc,
            self.own_path(),
            bodies,
            from.saturating_add(BATCH),
        );
        let named = self.name_while_writing(
            crew,
            ready.parts.as_slice(),
            names,
            from,
            next.parts.as_mut_slice(),
        );
        if named < ready.parts.len() {
            ready.remove(self.rt);
            next.remove(self.rt);
            *ready = Batch::empty(self.alloc);
        } else {
            ready.remove_dir(self.rt);
            *ready = next;
        }
        from.saturating_add(named)
    }

    // Puts the files of a site. The directory for parts stays.
    fn put_all_by<C: PartCrew>(
        &mut self,
        crew: &C,
        names: &[String],
        bodies: &[Body],
    ) -> Result<(), WriteFault>
        requires { length names.now ≡ length bodies.now }
        ensures torn { IfErr result (IsTornBy (map string_bytes names.now) bodies.now (untold self.old.failed) (untold self.new.failed)) }
        ensures quiet { OnOk result (self.new.failed ≡ self.old.failed) }
    {
        let mut ready = Batch::empty(self.alloc);
        let mut named = 0usize;
        for (i, name) in names.iter().enumerate() {
            if begins_batch(i, names.len()) {
                named = self.name_batch(crew, &mut ready, names, bodies, i);
            }
            if i < named {
                continue;
            }
            if self
                .put_by_part(name.as_str(), bodies[i].as_slice())
                .is_err()
            {
                return Err(WriteFault::Device(i));
            }
        }
        Ok(())
    }

    /// As [`Folder::put_site`], with the same files put or not, the same directories made, and the same error kept, but this crew
    /// makes the files ready, up to 256 at a time in a directory of the run's own, while those before them get their names, in order.
    /// No part and no such directory stays, unless the disk fails to remove it. What a run that is killed leaves, the next run in this
    /// folder removes. The disk may need room for two batches beside the files that it replaces; if there is none, or no descriptor,
    /// the files are put one after another.
    pub fn put_site_by<C: PartCrew>(
        &mut self,
        crew: &C,
        names: &[String],
        bodies: &[Body],
    ) -> Result<(), WriteFault>
        requires { length names.now ≡ length bodies.now }
        ensures torn { IfErr result (IsTornBy (map string_bytes names.now) bodies.now (untold self.old.failed) (untold self.new.failed)) }
        ensures quiet { OnOk result (self.new.failed ≡ self.old.failed) }
    {
        let put = self.put_all_by(crew, names, bodies);
        self.remove_own();
        put
    }
}
