//! What a live run has of the system.
ghost use Rattle.std.specs.Prelude.{◌≡◌, ℕ, List, IfOk, Err, ⊤, true};
ghost use Rattle.live_system.specs.Settings.{Settings};
ghost use Rattle.local_tree.specs.declared.disk_folder.originals.Originals.{Originals};

use answer_notes::Recording;
use early_names::EarlyRules;
use fetcher::Fetcher;
use harvest::Harvest;
use html_links::LinkRules;
use local_tree::{HasKind, Originals, Shelf};
use observer::Observer;
use options::Order;
use pacing::{Manner, Retries};
use requests::{Proxies, Sending};
use std::alloc::{AllocError, Global};
use std::io::Write;
use std::marker::Model;
use streams::ReadInputFault;

/// Why a run may not save at a path, or go on from what is in a folder.
#[derive(Clone, Copy)]
pub enum HoldFault {
    /// Another run saves there, or answers that an earlier one left there would be lost; or what is there can't be gone on with.
    Refused,
    /// Memory ran out.
    Memory,
}

/// How a worker's fetcher makes its requests.
#[derive(Drop)]
pub struct FetcherSettings {
    /// Which links of pages are taken.
    pub links: LinkRules,
    /// Whether answers are noted. If not, no memory is taken for notes.
    pub is_recording: bool,
    /// How many connections to a server are kept at most, if they are kept.
    pub kept: Option<u32>,
    /// The proxies to which requests go in place of servers. Without one for https none is made for its addresses.
    pub proxies: Proxies,
    /// What each request says besides its address.
    pub sends: Sending,
    /// How servers are treated.
    pub manner: Manner,
    /// When a request is made again.
    pub retries: Retries,
    /// Whether the file of a page gets the time at which that changed, if the server says it.
    pub takes_times: bool,
}

// Contracts see what is said, and nothing of how it is kept.
impl Model for FetcherSettings {
    ghost use Rattle.live_system.specs.Settings.{Settings};
    ghost use Rattle.pacing.specs.Retries.{retries_by};

    ghost Value = { Settings };

    ghost view = { λ s. record { links = s.links; is_recording = s.is_recording; kept = s.kept; proxies = s.proxies; sends = s.sends; manner = s.manner; retries = retries_by s.retries; takes_times = s.takes_times } };
}

/// Makes a live run's fetchers, its folder and its records.
pub trait System {
    /// A body as the fetchers hand it out.
    type Body: HasKind + Send + Drop;

    /// What asks the site for one worker.
    type Fetcher: Fetcher<Body = Self::Body> + Send;

    /// What does so and may note what it receives. It keeps bodies in memory.
    type Recorder: Recording + Send;

    /// A folder that files are put into.
    type Folder: Shelf<Self::Body> + Drop;

    /// What the record of a run is written into.
    type Record: Write + Drop;

    /// Who hears how a run goes on.
    type Observer: Observer + Sync;

    // The fetchers that may be given for these settings.
    ghost makes: { Self → Settings → Self.Fetcher → Type 0 };

    // The same of those that may note what they receive.
    ghost makes_recorder: { Self → Settings → Self.Recorder → Type 0 };

    // The folders that may be given for a path, by where they keep bodies as they came.
    ghost opens: { Self → List ℕ → Originals → Self.Folder → Type 0 };

    // The bytes that the file at a path may have.
    ghost holds: { Self → List ℕ → List ℕ → Type 0 };

    // The paths of the folders in which what was left can't be gone on with.
    ghost discontinues: { Self → List ℕ → Type 0 } = { λ _ _. ⊤ };

    // The paths at which nothing may be saved.
    ghost refuses: { Self → List ℕ → Type 0 } = { λ _ _. ⊤ };

    // The writers that may be given for a path.
    ghost names: { Self → List ℕ → Self.Record → Type 0 };

    /// From now on the folder may name files while pages arrive, by these rules. The error is that memory ran out.
    fn begin_naming(&self, _rules: EarlyRules) -> Result<(), AllocError> {
        Ok(())
    }

    /// A run of this order begins, before anything is requested: what earlier ones left in its folder is taken as it says, and what it
    /// does so with is noted for later ones. Why a run isn't gone on with is reported to a person.
    fn begin_index(&self, _order: &Order) -> Result<(), HoldFault>
        ensures { result ≡ Err HoldFault.Refused → (_order.now.upkeep.continues ≡ true) × discontinues self.now _order.now.prefix }
    {
        Ok(())
    }

    /// The run has ended with this harvest, and with all that was to be retrieved if that is said: files of pages that are gone are removed
    /// then, if its order says so. Failures are reported to a person.
    fn end_index<B: Drop>(&self, _harvest: &Harvest<B>, _is_whole: bool) {}

    /// A fetcher for one more worker, with these settings. The error is that memory ran out.
    fn fetcher(&self, settings: FetcherSettings) -> Result<Self::Fetcher, AllocError>
        ensures { IfOk result (λ fetcher. makes self.now settings fetcher) };

    /// The same, of a run that goes on from a record or saves one.
    fn recorder(&self, settings: FetcherSettings) -> Result<Self::Recorder, AllocError>
        ensures { IfOk result (λ recorder. makes_recorder self.now settings recorder) };

    /// The folder at a path. Nothing is made there before the first put. Of files whose links change the bodies are kept as they came, in
    /// the place that is said. Fails only if memory runs out.
    fn folder(&self, path: &str, originals: Originals) -> Result<Self::Folder, AllocError>
        ensures { IfOk result (opens self.now path.now originals) };

    /// Holds the place at which a run saves, before anything is read or requested, so that no other saves there; `resumed` is the
    /// file that the run goes on from, if there is one. Why a path is refused is reported to a person.
    fn hold(&self, path: &str, resumed: Option<&str>) -> Result<(), HoldFault>
        ensures { result ≡ Err HoldFault.Refused → refuses self.now path.now };

    /// All bytes of the file at a path, at most so many. It is closed when they are read.
    fn read_file(&self, alloc: Global, path: &str, limit: usize) -> Result<Vec<u8>, ReadInputFault>
        ensures { IfOk result (λ bytes. holds self.now path.now bytes.items) };

    /// What takes the record that is to be saved at a path, and fails if none can be there. The file that is there is
    /// replaced by the whole record, or stays. Fails only if memory runs out.
    fn record(&self, path: &str) -> Result<Self::Record, AllocError>
        ensures { IfOk result (names self.now path.now) };

    /// Writes this for a person when the run has ended: lines, each with its end, or nothing.
    fn report(&self, _text: &str) {}

    /// Who hears how this run goes on.
    fn observer(&self) -> &Self::Observer;
}
