//! What a live run has of the system: fetchers over TCP, and folders and records on the disk.
use crate::asking::Asking;
use crate::disk::{PageFolder, Saved};
use crate::early_run::EarlyRun;
use crate::part_threads::PartThreads;
use crate::parts_asking::PartsAsking;
use early_names::EarlyRules;
use harvest::Harvest;
use live_system::{FetcherSettings, HoldFault, System};
use local_tree::{DiskFolder, Originals};
use options::Order;
use part_keeper::{KeptPart, PartsDir};
use program_io::SharedFailures;
use progress::ProgressLine;
use record_journal::{Journaled, Pen, SaveFault, SavedFile, Saving};
use requests::Jar;
use run_index::{BeginFault, IndexRun, PageNotes};
use std::alloc::{AllocError, Global};
use std::fs::Files;
use std::net::Net;
use std::sync::Wait;
use std::thread::Threads;
use std::time::Clock;
use streams::{Close, Lock, ReadInputFault};
use tcp_connect::{Hosts, KeptConnections};
use tcp_fetcher::{OverTcp, PartsOverTcp};

/// The network and the disk, by the program's handle.
#[derive(Drop)]
pub struct HostSystem<'a, R: Net + Wait + Files + Clock + Eprint> {
    rt: &'a R,
    alloc: Global,
    hosts: &'a Hosts,
    kept: &'a KeptConnections<R::Stream>,
    progress: &'a ProgressLine<'a, R>,
    saving: &'a Saving<R>,
    crew: &'a PartThreads<'a, R>,
    parts: &'a PartsDir<R::File>,
    early: &'a EarlyRun,
    index: &'a IndexRun<R::File>,
    failures: &'a SharedFailures,
    jar: Option<Jar>,
}

impl<'a, R: Net + Wait + Files + Clock + Eprint> HostSystem<'a, R> {
    ghost use Rattle.std.specs.Prelude.{◌≡◌, IfOk, Some, is_some};
    ghost use Rattle.response_reader.specs.Limits.{limits_of};

    /// By this handle, with what the run knows of hosts and keeps of connections, the line that counts them, where it saves, what
    /// writes bodies that are in memory, the directory of the others and the names that they get early, what keeps why something failed, and cookies of a file. Takes
    /// no memory.
    pub fn new(
        rt: &'a R,
        alloc: Global,
        hosts: &'a Hosts,
        kept: &'a KeptConnections<R::Stream>,
        progress: &'a ProgressLine<'a, R>,
        saving: &'a Saving<R>,
        crew: &'a PartThreads<'a, R>,
        parts: &'a PartsDir<R::File>,
        early: &'a EarlyRun,
        index: &'a IndexRun<R::File>,
        failures: &'a SharedFailures,
        jar: Option<Jar>,
    ) -> HostSystem<'a, R> {
        HostSystem {
            rt,
            alloc,
            hosts,
            kept,
            progress,
            saving,
            crew,
            parts,
            early,
            index,
            failures,
            jar,
        }
    }

    // The cookies of a file, if there are any. Takes no memory; the error is that 2^63 copies are there.
    fn jar(&self) -> Result<Option<Jar>, AllocError>
        ensures { IfOk result (λ jar. jar ≡ self.now.jar) }
    {
        match &self.jar {
            Some(jar) => Ok(Some(jar.try_clone()?)),
            None => Ok(None),
        }
    }

    // What asks over TCP for one worker, with these settings, and with the cookies of the run.
    fn over_tcp(&self, settings: FetcherSettings) -> Result<OverTcp<'a, R>, AllocError>
        ensures { IfOk result (λ fetcher. (fetcher.links ≡ settings.links) × (fetcher.keeps ≡ is_some settings.kept) × (fetcher.most ≡ settings.kept) × (fetcher.sends ≡ Some (record settings.sends { jar = self.now.jar })) × (fetcher.retries ≡ settings.retries) × (fetcher.limits ≡ limits_of settings.manner.body_limit) × (fetcher.takes_times ≡ settings.takes_times)) }
    {
        let jar = self.jar()?;
        let FetcherSettings {
            links,
            is_recording: _is_recording,
            kept,
            proxies,
            sends,
            manner,
            retries,
            takes_times,
        } = settings;
        Ok(OverTcp::new(
            self.rt,
            self.alloc,
            self.hosts,
            self.kept,
            self.progress,
            links,
            kept,
            proxies,
            sends.with_jar(jar),
            manner,
            retries,
            takes_times,
        ))
    }

    // The fetcher of one worker that may note what it receives.
    fn asking(&self, settings: FetcherSettings) -> Result<Asking<'a, R>, AllocError>
        ensures { IfOk result (λ asking. (asking.inner.inner.links ≡ settings.links) × (asking.inner.inner.keeps ≡ is_some settings.kept) × (asking.inner.inner.most ≡ settings.kept) × (asking.inner.inner.sends ≡ Some (record settings.sends { jar = self.now.jar })) × (asking.inner.inner.retries ≡ settings.retries) × (asking.inner.inner.limits ≡ limits_of settings.manner.body_limit) × (asking.inner.is_recording ≡ settings.is_recording)) }
    {
        let is_recording = settings.is_recording;
        let fetcher = self.over_tcp(settings)?;
        let pen = Pen::new(self.rt, self.saving);
        Ok(Asking {
            inner: Journaled::new(self.alloc, fetcher, pen, is_recording),
            rt: self.rt,
            failures: self.failures,
        })
    }
}

impl<'a, R: Net + Wait + Files + Clock + Eprint> HostSystem<'a, R>
where
    R::File: Close + Lock,
{
    ghost use Rattle.std.specs.Prelude.{◌≡◌, IfOk, Some, is_some};
    ghost use Rattle.response_reader.specs.Limits.{limits_of};

    // The fetcher of one worker that has bodies kept in parts.
    fn parts_asking(&self, settings: FetcherSettings) -> Result<PartsAsking<'a, R>, AllocError>
        ensures { IfOk result (λ asking. (asking.inner.links ≡ settings.links) × (asking.inner.keeps ≡ is_some settings.kept) × (asking.inner.most ≡ settings.kept) × (asking.inner.sends ≡ Some (record settings.sends { jar = self.now.jar })) × (asking.inner.retries ≡ settings.retries) × (asking.inner.limits ≡ limits_of settings.manner.body_limit) × (asking.inner.takes_times ≡ settings.takes_times)) }
    {
        let fetcher = self.over_tcp(settings)?;
        let kept = self.early.rules(self.rt);
        Ok(PartsAsking {
            inner: PartsOverTcp::new(
                self.rt,
                self.alloc,
                fetcher,
                self.kept,
                self.parts,
                kept,
                self.index.earlier(self.rt),
            ),
            rt: self.rt,
            alloc: self.alloc,
            failures: self.failures,
            parts: self.parts,
            own: String::new(self.alloc),
            early: self.early,
            notes: PageNotes::new(self.rt, self.alloc, self.index),
            rules: self.early.rules(self.rt),
            folder: None,
        })
    }
}

impl<'a, R: Net + Wait + Files + Clock + Eprint + Threads + Sync> System for HostSystem<'a, R>
where
    R::File: Close + Lock + Send + Sync,
    R::Stream: Send,
{
    ghost use Rattle.std.specs.Prelude.{◌≡◌, ⊤, Some, is_some};
    ghost use Rattle.response_reader.specs.Limits.{limits_of};
    ghost use Rattle.local_tree.specs.Folders.{opened_at};

    type Body = KeptPart;

    type Fetcher = PartsAsking<'a, R>;

    type Recorder = Asking<'a, R>;

    type Folder = PageFolder<'a, R>;

    type Record = Saved<'a, R>;

    type Observer = ProgressLine<'a, R>;

    ghost makes = { λ system settings fetcher. (fetcher.inner.links ≡ settings.links) × (fetcher.inner.keeps ≡ is_some settings.kept) × (fetcher.inner.most ≡ settings.kept) × (fetcher.inner.sends ≡ Some (record settings.sends { jar = system.jar })) × (fetcher.inner.retries ≡ settings.retries) × (fetcher.inner.limits ≡ limits_of settings.manner.body_limit) × (fetcher.inner.takes_times ≡ settings.takes_times) };

    ghost makes_recorder = { λ system settings fetcher. (fetcher.inner.inner.links ≡ settings.links) × (fetcher.inner.inner.keeps ≡ is_some settings.kept) × (fetcher.inner.inner.most ≡ settings.kept) × (fetcher.inner.inner.sends ≡ Some (record settings.sends { jar = system.jar })) × (fetcher.inner.inner.retries ≡ settings.retries) × (fetcher.inner.inner.limits ≡ limits_of settings.manner.body_limit) × (fetcher.inner.is_recording ≡ settings.is_recording) };

    ghost opens = { λ system path originals folder. (folder.inner ≡ opened_at path) × (folder.originals ≡ originals) };

    ghost holds = { λ system path bytes. ⊤ };

    ghost names = { λ system path saved. ⊤ };

    fn begin_naming(&self, rules: EarlyRules) -> Result<(), AllocError> {
        self.early.begin(self.rt, rules)
    }

    fn begin_index(&self, order: &Order) -> Result<(), HoldFault> {
        match self.index.begin(self.rt, self.failures, order) {
            Ok(()) => Ok(()),
            Err(BeginFault::Unfit) => Err(HoldFault::Refused),
            Err(BeginFault::Memory) => Err(HoldFault::Memory),
        }
    }

    fn end_index<B: Drop>(&self, harvest: &Harvest<B>, is_whole: bool) {
        self.index.note_harvest(self.rt, harvest);
        let own = self.parts.path(self.rt);
        if let Ok(own) = own {
            self.index
                .end(self.rt, self.failures, own.as_str(), is_whole);
        }
    }

    fn fetcher(&self, settings: FetcherSettings) -> Result<PartsAsking<'a, R>, AllocError> {
        self.parts_asking(settings)
    }

    fn recorder(&self, settings: FetcherSettings) -> Result<Asking<'a, R>, AllocError> {
        self.asking(settings)
    }

    fn report(&self, text: &str) {
        self.failures.say(self.rt, text);
    }

    fn observer(&self) -> &ProgressLine<'a, R> {
        self.progress
    }

    fn folder(&self, path: &str, originals: Originals) -> Result<PageFolder<'a, R>, AllocError> {
        self.parts.set_folder(self.rt, path)?;
        match DiskFolder::new(self.rt, self.alloc, path) {
            Ok(inner) => Ok(PageFolder {
                inner,
                rt: self.rt,
                kept: self.kept,
                crew: self.crew,
                parts: self.parts,
                alloc: self.alloc,
                early: self.early,
                index: self.index,
                failures: self.failures,
                originals,
            }),
            Err(_) => Err(AllocError),
        }
    }

    fn hold(&self, path: &str, resumed: Option<&str>) -> Result<(), HoldFault> {
        match self.saving.hold(self.rt, self.alloc, path, resumed) {
            Ok(()) => Ok(()),
            Err(SaveFault::Refused) => Err(HoldFault::Refused),
            Err(SaveFault::Memory) => Err(HoldFault::Memory),
        }
    }

    fn read_file(
        &self,
        alloc: Global,
        path: &str,
        limit: usize,
    ) -> Result<Vec<u8>, ReadInputFault> {
        self.saving.read(self.rt, alloc, path, limit)
    }

    fn record(&self, path: &str) -> Result<Saved<'a, R>, AllocError> {
        let journal = self.saving.journal();
        let inner = SavedFile::new(self.rt, self.alloc, path, journal)?;
        Ok(Saved {
            inner,
            rt: self.rt,
            kept: self.kept,
            failures: self.failures,
            path: String::from_str(self.alloc, path)?,
            is_lost: false,
        })
    }
}
