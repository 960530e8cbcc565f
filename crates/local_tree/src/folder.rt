//! What a folder is to do.
ghost use Rattle.std.specs.Prelude.{◌≡◌, ℕ, Option, OnOk, OnErr, IfErr, length, map, string_bytes};
ghost use Rattle.local_tree.specs.Folders.{Files, Puts, KeepsOthers, CountsRefusedPut, holding};
ghost use Rattle.local_names.specs.Names.{AreDistinct};
ghost use Rattle.local_tree.specs.SiteFiles.{IsWhole, IsTornBy};

use crate::site_files::WriteFault;
use kept_bodies::Body;
use thiserror::Error;

/// Why a file wasn't put.
#[derive(Clone, Copy, Debug, PartialEq, Eq, Error)]
pub enum FolderFault {
    /// The folder failed, or found no memory.
    #[error("the folder failed, or memory ran out")]
    Device,
}

/// A folder into which files are put, each whole.
///
/// The model may know a folder's files. Of one whose files others can change it knows nothing.
pub trait Folder {
    // What is under each name, if that is known.
    ghost files: { Self → Option Files };

    // How many puts answered an error.
    ghost failed: { Self → ℕ };

    /// Puts a file of this name below the folder, with these bytes. A file of that name is replaced.
    /// After an error this file may hold anything; every other file is as before.
    fn put(&mut self, name: &str, bytes: &[u8]) -> Result<(), FolderFault>
        ensures put { OnOk result (Puts (files self.old) (files self.new) name.now bytes.now) }
        ensures torn { OnErr result (KeepsOthers (files self.old) (files self.new) name.now) }
        ensures counted { CountsRefusedPut (failed self.old) (failed self.new) result };

    /// Puts the bodies of a site, in their order, each under its name. If a put fails, no other is made. A folder may make
    /// the files ready in another order, as long as nobody finds one under its name before its turn.
    fn put_site(&mut self, names: &[String], bodies: &[Body]) -> Result<(), WriteFault>
        requires count { length names.now ≡ length bodies.now }
        requires distinct { AreDistinct (map string_bytes names.now) }
        ensures whole { OnOk result (IsWhole (map string_bytes names.now) bodies.now (files self.old) (files self.new)) }
        ensures torn { IfErr result (IsTornBy (map string_bytes names.now) bodies.now (holding files failed self.old) (holding files failed self.new)) }
        ensures quiet { OnOk result (failed self.new ≡ failed self.old) }
    {
        for (i, name) in names.iter().enumerate() {
            if self.put(name.as_str(), bodies[i].as_slice()).is_err() {
                return Err(WriteFault::Device(i));
            }
        }
        Ok(())
    }

    /// How many puts answered an error; at the largest number it stays.
    fn failures(&self) -> u64
        ensures { result ≡ failed self.now };
}
