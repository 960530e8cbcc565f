//! Which bodies are kept as they came, of files that have others in their places, and where.
use std::alloc::{AllocError, Global};

/// What the name of a body that is kept beside its file has after that of the file.
pub(crate) const ORIGINAL: &str = ".orig";

/// Below which directory bodies are kept under the names of their files, directly below the folder. No page has a name that begins so.
pub(crate) const HIDDEN: &str = ".wgetr%orig";

/// Where bodies are kept as they came, if their files have others in their places.
#[derive(Clone, Copy, Debug, PartialEq, Eq)]
pub enum Originals {
    /// Nowhere.
    Nowhere,
    /// Beside their files, for whoever reads the folder.
    Beside,
    /// In a directory of the program's own, for later runs alone.
    Hidden,
}

/// Of which files the bodies are kept as they came, if they change, and where.
#[derive(Drop)]
pub(crate) enum Keeping {
    /// Of none.
    Nowhere,
    /// Of all, beside them, except for these, in order: there are pages whose files have the names of what would be kept.
    BesideExcept(Vec<String>),
    /// Of all, in the program's own directory, in which no page has a file.
    Hidden,
    /// Nobody knows, since memory ran out.
    Unknown,
}

// The names in whose place a body would be kept that came, without what it has after that of its file, in order.
fn taken_by(alloc: Global, names: &[String]) -> Result<Vec<String>, AllocError> {
    let mut taken = Vec::new(alloc);
    for name in names {
        if let Some(front) = name.as_str().strip_suffix(ORIGINAL) {
            taken.push(String::from_str(alloc, front)?)?;
        }
    }
    taken.sort_unstable();
    Ok(taken)
}

// Of all files with these names, beside them, if there is memory to know the exceptions.
fn beside(alloc: Global, names: &[String]) -> Keeping {
    match taken_by(alloc, names) {
        Ok(taken) => Keeping::BesideExcept(taken),
        Err(_) => Keeping::Unknown,
    }
}

impl Keeping {
    // Of all files with these names, where that is said.
    pub(crate) fn of(alloc: Global, originals: Originals, names: &[String]) -> Keeping {
        match originals {
            Originals::Nowhere => Keeping::Nowhere,
            Originals::Beside => beside(alloc, names),
            Originals::Hidden => Keeping::Hidden,
        }
    }

    // Where the body of the file of this name is kept. The error is out of memory.
    pub(crate) fn place_of(&self, name: &str) -> Result<Originals, AllocError> {
        match self {
            Keeping::Nowhere => Ok(Originals::Nowhere),
            Keeping::BesideExcept(taken) => {
                let found = taken
                    .as_slice()
                    .binary_search_by(|front| front.as_str().cmp(name));
                match found {
                    Ok(_) => Ok(Originals::Nowhere),
                    Err(_) => Ok(Originals::Beside),
                }
            }
            Keeping::Hidden => Ok(Originals::Hidden),
            Keeping::Unknown => Err(AllocError),
        }
    }
}
