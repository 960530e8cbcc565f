//! What a journal does.
ghost use Rattle.std.specs.Prelude.{◌≡◌, ℕ, List, Option, true, false};
ghost use Rattle.std.specs.Io.KnownBytes.{Appends};
ghost use Rattle.streams.specs.Streams.{AppendsFront};

/// Takes entries of a record, each as it comes. Its contents may be known; those of one that others add to aren't.
pub trait Journal: Drop {
    // Its contents, if they are known.
    ghost contents: { Self → Option (List ℕ) };

    /// Adds an entry, and returns whether it is there whole. If it isn't, a front of it may be there, and it is to be
    /// kept elsewhere.
    fn append(&mut self, entry: &[u8]) -> bool
        ensures taken { result ≡ true → Appends (contents self.old) (contents self.new) entry.now }
        ensures refused { result ≡ false → AppendsFront (contents self.old) (contents self.new) entry.now };
}
