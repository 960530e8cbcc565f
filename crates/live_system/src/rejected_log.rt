//! What takes the log of rejected links.
ghost use Rattle.std.specs.Prelude.{◌≡◌, ℕ, List, Option};
ghost use Rattle.streams.specs.Streams.{AppendsFront};

/// Takes the log of the links that filters reject, at the end of a run.
pub trait RejectedLog {
    // What it has taken, if that is known.
    ghost contents: { Self → Option (List ℕ) };

    /// Takes the whole log. If that fails it may have a front of it.
    fn take(&mut self, text: &str)
        ensures { AppendsFront (contents self.old) (contents self.new) text.now };

    /// Learns that there was no memory for the log.
    fn lose(&mut self)
        ensures { contents self.new ≡ contents self.old };
}
