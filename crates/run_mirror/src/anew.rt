//! Bodies anew.
ghost use Rattle.std.specs.Prelude.{◌≡◌, [], IfOk, option_map, slice_index_or, string_bytes, vec_items};
ghost use Rattle.kept_bodies.specs.declared.body_kind.BodyKind.TheVariants as kinds;
ghost use Rattle.run_mirror.specs.Mirrors.{outcome_among};
ghost use Rattle.run_mirror.specs.Anew.{base_at, given, is_read, kind_if, IsAnswer};
ghost use Rattle.run_mirror.specs.inner.Answers.{IsAnswerAs};

use crate::kept_page::PageFile;
use crate::lookup::is_read;
use crate::reading::reading_of;
use crate::run_mirror::RunMirror;
use address::{Address, AddressFault};
use fetcher::{Edge, Outcome};
use kept_bodies::BodyKind;
use page_links::{rewrite, rewrite_sheet, stays};
use std::alloc::{AllocError, Global};

/// What becomes of a kept body.
#[derive(Drop)]
pub enum Anew {
    /// It stays: its links lead from its file where they led from its page, or the run looked for none in it.
    Same,
    /// These bytes are to be in its place.
    Changed(Vec<u8>),
    /// It stays as it came, though links of it may lead elsewhere: what would be written reads otherwise.
    Left,
}

/// What becomes of a body that is this one anew.
fn answer(body: &[u8], other: Option<Vec<u8>>) -> Anew
    ensures { given body.now result ≡ option_map vec_items other }
{
    match other {
        Some(other) => {
            if other.as_slice() == body {
                Anew::Same
            } else {
                Anew::Changed(other)
            }
        },
        None => Anew::Left,
    }
}

/// The base of a page at that address whose first `base` names this.
pub(crate) fn base_of(address: &Address, base: &Option<String>) -> Result<Address, AllocError>
    ensures { IfOk result (λ at. at ≡ base_at address.now (option_map string_bytes base.now)) }
{
    match base {
        Some(text) => match address.join(text.as_str()) {
            Ok(base) => Ok(base),
            Err(AddressFault::Memory) => Err(AllocError),
            Err(_) => address.try_clone(),
        },
        None => address.try_clone(),
    }
}

impl<'a> RunMirror<'a> {
    /// What a body is that was kept of that address, if links were looked for in it.
    fn kind_read(&self, address: &Address, kind: BodyKind) -> BodyKind
        ensures { result ≡ kind_if (is_read (outcome_among self.now.records address.now)) kind }
    {
        if is_read(self.outcome(address)) {
            kind
        } else {
            BodyKind::Other
        }
    }

    /// Where the page of that address leads.
    fn edges(&self, address: &Address) -> &[Edge] {
        match self.outcome(address) {
            Some(Outcome::Page(_, edges)) => edges.as_slice(),
            _ => &[],
        }
    }

    /// What becomes of a page. Whether it stays is looked at first: many pages have only links that do, and that is cheaper than writing.
    fn page_anew(
        &self,
        alloc: Global,
        address: &Address,
        file: &str,
        body: &[u8],
    ) -> Result<Anew, AllocError>
        ensures { IfOk result (λ anew. IsAnswerAs kinds.Html self.now address.now file.now body.now anew) }
    {
        let known = reading_of(alloc, address, self.edges(address), body)?;
        let Some(reading) = known else {
            return Ok(Anew::Left);
        };
        let base = base_of(address, &reading.found.base)?;
        let page = PageFile::new(alloc, self, file, &base);
        if stays(&page, &reading.found)? {
            return Ok(Anew::Same);
        }
        match rewrite(alloc, &page, reading.syntax, body, &reading.found) {
            Ok(other) => Ok(answer(body, other)),
            Err(_) => Err(AllocError),
        }
    }

    fn sheet_anew(
        &self,
        alloc: Global,
        address: &Address,
        file: &str,
        body: &[u8],
    ) -> Result<Anew, AllocError>
        ensures { IfOk result (λ anew. IsAnswerAs kinds.Sheet self.now address.now file.now body.now anew) }
    {
        let sheet = PageFile::new(alloc, self, file, address);
        match rewrite_sheet(alloc, &sheet, body) {
            Ok(other) => Ok(answer(body, other)),
            Err(_) => Err(AllocError),
        }
    }

    /// What becomes of the body that was kept of that address, as this file.
    fn body_anew(
        &self,
        alloc: Global,
        address: &Address,
        kind: BodyKind,
        file: &str,
        body: &[u8],
    ) -> Result<Anew, AllocError>
        ensures { IfOk result (λ anew. IsAnswer self.now address.now kind file.now body.now anew) }
    {
        match self.kind_read(address, kind) {
            BodyKind::Html => {
                let page = self.page_anew(alloc, address, file, body)?;
                Ok(page)
            },
            BodyKind::Sheet => {
                let sheet = self.sheet_anew(alloc, address, file, body)?;
                Ok(sheet)
            },
            BodyKind::Other => Ok(Anew::Same),
        }
    }

    /// What becomes of the body of the page at that place among those that were kept, counted from 0: the body with its links changed. Its
    /// kind is this. The bytes are to be those that came, not those that were changed before. It takes two or three times the memory of the
    /// body. At a place without a page it is left.
    ///
    /// # Errors
    /// Out of memory; then the file is to stay as it is.
    pub fn body_at(
        &self,
        alloc: Global,
        place: usize,
        kind: BodyKind,
        body: &[u8],
    ) -> Result<Anew, AllocError>
        ensures { IfOk result (λ anew. IsAnswer self.now (slice_index_or self.now.kept place []) kind (slice_index_or self.now.names place []) body.now anew) }
    {
        let Some(page) = self.kept.get(place) else {
            return Ok(Anew::Left);
        };
        let Some(name) = self.names.get(place) else {
            return Ok(Anew::Left);
        };
        self.body_anew(alloc, page, kind, name.as_str(), body)
    }
}
