//! What earlier runs kept and received, and notes of the pages that this one keeps.
use address::Address;
use earlier_answers::EarlierAnswers;
use earlier_pages::EarlierPages;
use mirror_index::{KeptHead, Mark};

/// What a run knows of earlier ones.
#[derive(Drop)]
pub struct Earlier {
    /// The pages, by the index of the folder.
    pub pages: EarlierPages,
    /// What a run that was stopped received without a file.
    pub answers: EarlierAnswers,
    /// Whether all that is requested, pages to see if they changed; if not, what is known isn't requested.
    pub is_asked: bool,
    /// Whether a page that is read again needs a digest, whatever it was known by: for an index, or since its file is to change.
    pub needs_digests: bool,
}

/// What an index gets of a page that was kept.
#[derive(Drop)]
pub struct IndexNote {
    /// Its address.
    pub at: Address,
    /// How many bytes its body has.
    pub len: u64,
    /// By what its file is known, if that is known already: else by when it is changed last.
    pub mark: Option<Mark>,
    /// What its head said.
    pub head: KeptHead,
}
