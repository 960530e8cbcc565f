//! A keeper that computes the digests of the bodies that it keeps.
ghost use Rattle.std.specs.Prelude.{◌≡◌, ◌++◌, ℕ, List, [], IfOk, OnOk};
ghost use Rattle.body_digests.specs.Digests.{HoldsDigested, IsDigested, known_digest};

use kept_bodies::{BodyKind, Keeper};
use sha2::{Digest, Sha256};
use std::alloc::AllocError;
use std::marker::Model;
use std::mem;

/// A body that was kept, with its SHA-256, if digests are computed and there is a body.
#[derive(Drop)]
pub struct Digested<T> {
    /// The body, as it is kept.
    pub kept: T,
    /// The SHA-256 of its bytes.
    pub digest: Option<[u8; 32]>,
}

/// Keeps bodies by another keeper, and computes their digests on the way if it is to.
#[derive(Drop)]
pub struct Digesting<K: Keeper> {
    inner: K,
    is_digesting: bool,
    hasher: Sha256,
}

impl<K: Keeper> Model for Digesting<K> {
    ghost use Rattle.body_digests.specs.Digests.{DigestState};

    ghost Value = { DigestState K };

    ghost view = { λ d. record { inner = d.inner; is_digesting = d.is_digesting; hasher = d.hasher } };
}

impl<K: Keeper> Digesting<K> {
    /// Keeps bodies by this keeper, and computes their digests if `is_digesting`.
    pub fn new(inner: K, is_digesting: bool) -> Digesting<K>
        ensures inner { result.inner ≡ inner }
        ensures is_digesting { result.is_digesting ≡ is_digesting }
    {
        Digesting {
            inner,
            is_digesting,
            hasher: Sha256::new(),
        }
    }

    /// The keeper.
    pub fn inner(&self) -> &K
        ensures { result.now ≡ self.now.inner }
    {
        &self.inner
    }
}

impl<K: Keeper> Keeper for Digesting<K> {
    type Kept = Digested<K::Kept>;

    // The digest, if there is one, is that of the body.
    ghost holds = { HoldsDigested K.holds };

    ghost begun = { λ keeper bytes. IsDigested K.begun keeper bytes };

    fn begin(&mut self)
        ensures begun { IsDigested K.begun self.new [] }
        ensures is_digesting { self.new.is_digesting ≡ self.old.is_digesting }
    {
        self.hasher = Sha256::new();
        self.inner.begin();
    }

    fn note_changed(&mut self, last_modified: Option<&[u8]>)
        ensures begun { (front : List ℕ) → IsDigested K.begun self.old front → IsDigested K.begun self.new front }
        ensures is_digesting { self.new.is_digesting ≡ self.old.is_digesting }
    {
        self.inner.note_changed(last_modified);
    }

    fn add(&mut self, piece: &[u8]) -> Result<(), AllocError>
        ensures begun { OnOk result ((front : List ℕ) → IsDigested K.begun self.old front → IsDigested K.begun self.new (front ++ piece.now)) }
        ensures is_digesting { self.new.is_digesting ≡ self.old.is_digesting }
    {
        if self.is_digesting {
            self.hasher.update(piece);
        }
        self.inner.add(piece)
    }

    fn finish(&mut self, kind: BodyKind) -> Result<Digested<K::Kept>, AllocError>
        ensures kept { IfOk result (λ d. (bytes : List ℕ) → IsDigested K.begun self.old bytes → HoldsDigested K.holds d (record { kind = kind; bytes = bytes })) }
        // The digest of what was added is known exactly if digests are computed.
        ensures digest { IfOk result (λ d. (bytes : List ℕ) → IsDigested K.begun self.old bytes → d.digest ≡ known_digest self.old.is_digesting bytes) }
        ensures is_digesting { self.new.is_digesting ≡ self.old.is_digesting }
    {
        let digest = if self.is_digesting {
            let hasher = mem::replace(&mut self.hasher, Sha256::new());
            Some(hasher.finalize())
        } else {
            None
        };
        let kept = self.inner.finish(kind)?;
        Ok(Digested { kept, digest })
    }

    fn empty(&mut self) -> Result<Digested<K::Kept>, AllocError> {
        let kept = self.inner.empty()?;
        Ok(Digested { kept, digest: None })
    }
}
