//! Folders: the bodies of a site are put into one, in memory or on a disk, under the names that are given
//! (`local_names`). It asks no site for anything.
//!
//! Its tests are in `retrieval_tests`.
#![tactic(auto)]

pub use crate::body_change::{BodyChange, ChangeFault};
pub use crate::disk_folder::{
    ChangeCrew, ChangeLane, DiskFolder, FileToChange, NamesParts, Originals, Unchanged,
    put_changed_parts, put_parts,
};
pub use crate::folder::{Folder, FolderFault};
pub use crate::memory_folder::MemoryFolder;
pub use crate::parts::{FilePart, Naming, PartCrew};
pub use crate::shelf::{HasKind, Shelf};
pub use crate::site_files::{WriteFault, write_changed_site, write_site};
pub use streams::{Close, Lock};

mod body_change;
mod disk_folder;
mod folder;
mod memory_folder;
mod parts;
mod shelf;
mod site_files;
