//! Copies of a site, one for each worker.
ghost use Rattle.std.specs.Prelude.{◌≡◌, IfOk, replicate, vec_len};

use fetcher::Fetcher;
use kept_bodies::Body;
use site_maps::MapSite;
use site_records::RecordedSite;
use std::alloc::{AllocError, Global};

/// A site of which each worker can have a copy.
pub(crate) trait Copied: Fetcher<Body = Body> + Sized + Send {
    ghost use Rattle.std.specs.Prelude.{◌≡◌, IfOk};

    /// An equal site, or an error if memory ran out.
    fn copied(&self) -> Result<Self, AllocError>
        ensures { IfOk result (λ copy. copy ≡ self.now) };
}

impl Copied for MapSite {
    fn copied(&self) -> Result<MapSite, AllocError> {
        self.try_clone()
    }
}

impl Copied for RecordedSite {
    fn copied(&self) -> Result<RecordedSite, AllocError> {
        self.try_clone()
    }
}

/// So many copies of a site.
pub(crate) fn copies_of<F: Copied>(
    alloc: Global,
    site: &F,
    count: u32,
) -> Result<Vec<F>, AllocError>
    ensures count { IfOk result (λ copies. vec_len copies ≡ count) }
    ensures equal { IfOk result (λ copies. copies.items ≡ replicate count site.now) }
{
    let mut copies = Vec::new(alloc);
    for _ in 0..count {
        copies.push(site.copied()?)?;
    }
    Ok(copies)
}
