//! What asks the site for one worker and has bodies kept in parts while they arrive.
use crate::early_run::EarlyRun;
use address::{Address, Origin};
use earlier_runs::IndexNote;
use early_names::{EarlyRules, is_early};
use fetcher::{Answer, Ask, Fetcher};
use kept_bodies::BodyKind;
use local_tree::DiskFolder;
use part_keeper::{KeptPart, PartsDir, Standing, part_path};
use program_io::SharedFailures;
use robots_rules::RuleSet;
use run_index::PageNotes;
use std::alloc::{AllocError, Global};
use std::fs::Files;
use std::net::Net;
use std::sync::{Arc, Wait};
use std::time::Clock;
use streams::{Close, Lock};
use tcp_fetcher::PartsOverTcp;

/// Asks over TCP, has bodies kept in parts, of which it names those that may be named early, shows on the terminal what results,
/// and keeps why a connection was lost.
pub struct PartsAsking<'a, R: Net + Wait + Files + Clock + Eprint>
where
    R::File: Close + Lock,
{
    pub(crate) inner: PartsOverTcp<'a, R>,
    pub(crate) rt: &'a R,
    pub(crate) alloc: Global,
    pub(crate) failures: &'a SharedFailures,
    pub(crate) parts: &'a PartsDir<R::File>,
    // The path of the run's own directory; empty before a page was named.
    pub(crate) own: String,
    pub(crate) early: &'a EarlyRun,
    pub(crate) notes: PageNotes<'a, R::File>,
    pub(crate) rules: Option<Arc<EarlyRules>>,
    // None before a page was named.
    pub(crate) folder: Option<DiskFolder<'a, R>>,
}

// Written by hand: a user that drops one proves a call, and nothing about its fields.
impl<'a, R: Net + Wait + Files + Clock + Eprint> Drop for PartsAsking<'a, R>
where
    R::File: Close + Lock,
{
    fn drop(self) {
        let PartsAsking {
            inner: _inner,
            rt: _rt,
            alloc: _alloc,
            failures: _failures,
            parts: _parts,
            own: _own,
            early: _early,
            notes: _notes,
            rules: _rules,
            folder: _folder,
        } = self;
    }
}

impl<'a, R: Net + Wait + Files + Clock + Eprint> PartsAsking<'a, R>
where
    R::File: Close + Lock,
{
    ghost use Rattle.std.specs.Prelude.{◌≡◌, IfSome};
    ghost use Rattle.host_system.specs.EarlyParts.{HasWhole, NamedIfWhole};

    // Whether a page gets this name early, whatever its body is.
    fn is_lone(&self, at: &Address, name: &str) -> bool {
        let Some(rules) = &self.rules else {
            return false;
        };
        if rules.has_endings || !rules.keeps(at) || !is_early(name) {
            return false;
        }
        match rules.name_of(self.alloc, BodyKind::Other, at) {
            Ok(lone) => lone.as_str() == name,
            Err(_) => false,
        }
    }

    // Whether each directory of a name is there, and is no link.
    fn leads_to(&mut self, name: &str) -> bool
        ensures { self.new.inner ≡ self.old.inner }
    {
        self.have_folder();
        match &mut self.folder {
            Some(folder) => folder.leads_to(name),
            None => false,
        }
    }

    // The name that an earlier run gave a page, if the page gets it early, so that its file may stay there: it is claimed.
    fn stays_at(&mut self, at: &Address) -> Option<String>
        ensures { self.new.inner ≡ self.old.inner }
    {
        let name = self.notes.name_before(at)?;
        if !self.is_lone(at, name.as_str()) || !self.leads_to(name.as_str()) {
            return None;
        }
        if self.early.claim(self.rt, name.as_str()) {
            Some(name)
        } else {
            None
        }
    }

    // The name that a part may have early, which no other page has: it is claimed, or this one was.
    fn claim(&self, at: &Address, part: &KeptPart, claimed: &Option<String>) -> Option<String>
        ensures { IfSome result (λ name. HasWhole part.now) }
    {
        let Some(rules) = &self.rules else {
            return None;
        };
        if part.standing != Standing::Whole || !rules.keeps(at) {
            return None;
        }
        let Ok(name) = rules.name_of(self.alloc, part.kind, at) else {
            return None;
        };
        if claimed.as_deref() == Some(name.as_str()) {
            return Some(name);
        }
        if !is_early(name.as_str()) || !self.notes.may_name(at, name.as_str()) {
            return None;
        }
        if self.early.claim(self.rt, name.as_str()) {
            Some(name)
        } else {
            None
        }
    }

    // A folder of the worker's own. None if there is no memory for it.
    fn new_folder(&self) -> Option<DiskFolder<'a, R>> {
        let Ok(path) = self.parts.folder(self.rt) else {
            return None;
        };
        DiskFolder::new(self.rt, self.alloc, path.as_str()).ok()
    }

    // Has the worker have a folder, if there is memory for it.
    fn have_folder(&mut self)
        ensures { self.new.inner ≡ self.old.inner }
    {
        if self.folder.is_none() {
            self.folder = self.new_folder();
        }
    }

    // Has the worker know the run's own directory, if that was made.
    fn find_own(&mut self)
        ensures { self.new.inner ≡ self.old.inner }
    {
        if self.own.is_empty() {
            if let Ok(own) = self.parts.path(self.rt) {
                self.own = own;
            }
        }
    }

    // Has the worker know the run's own directory, which was made for a part, and have a folder. Whether it does: there may be no memory
    // for them.
    fn find_folder(&mut self) -> bool
        ensures { self.new.inner ≡ self.old.inner }
    {
        self.find_own();
        self.have_folder();
        !self.own.is_empty() && self.folder.is_some()
    }

    // Gives a part this name. Whether it has it then.
    fn give_name(&mut self, name: &str, part: &KeptPart) -> bool
        ensures { self.new.inner ≡ self.old.inner }
    {
        if !self.find_folder() {
            return false;
        }
        let is_named = match &mut self.folder {
            Some(folder) => folder.name_early(self.own.as_str(), name, part),
            None => false,
        };
        if is_named && !part.is_received {
            self.drop_link(part);
        }
        is_named
    }

    // Removes the name that a part still has if it is a further name of the file that has its new name already: renaming does nothing then.
    fn drop_link(&self, part: &KeptPart) {
        if let Ok(path) = part_path(self.alloc, self.own.as_str(), part.worker, part.number) {
            let _ = self.rt.remove_file(path.as_str());
        }
    }

    // Notes a page whose file stays under this name. Without memory to know where the journal is it has no line there.
    fn note_stayed(&mut self, note: Option<IndexNote>, name: Option<String>)
        ensures { self.new.inner ≡ self.old.inner }
    {
        self.find_own();
        if self.own.is_empty() {
            self.note_kept(note, None);
        } else {
            self.note_kept(note, name);
        }
    }

    // A page's part, which has its name from then on if nothing is in its way, or stays under the one that was claimed, and what was noted of
    // the page.
    fn named(
        &mut self,
        at: &Address,
        part: KeptPart,
        note: Option<IndexNote>,
        claimed: Option<String>,
    ) -> KeptPart
        ensures kind { result.kind ≡ part.kind }
        ensures len { result.len ≡ part.len }
        ensures received { result.is_received ≡ part.is_received }
        ensures whole { NamedIfWhole part result }
        ensures inner { self.new.inner ≡ self.old.inner }
    {
        if part.standing == Standing::Named {
            self.note_stayed(note, claimed);
            return part;
        }
        let Some(name) = self.claim(at, &part, &claimed) else {
            self.note_kept(note, None);
            return part;
        };
        if !self.give_name(name.as_str(), &part) {
            self.note_kept(note, None);
            return part;
        }
        self.note_kept(note, Some(name));
        KeptPart {
            standing: Standing::Named,
            ..part
        }
    }

    // Keeps that the last connection was lost, which was to request this address.
    fn note_page(&self, at: &Address) {
        if let Some(kind) = self.inner.loss() {
            self.failures.lose(self.rt, kind, at.try_clone());
        }
    }

    // What is noted of a page and its answer, the last one. If there is no memory for it, the next run requests the page, too.
    fn note_of(&self, at: &Address, answer: &Answer<KeptPart>) -> Option<IndexNote> {
        self.inner.note(at, answer).unwrap_or(None)
    }

    // Notes a page that has this name early, if it has one.
    fn note_kept(&mut self, note: Option<IndexNote>, name: Option<String>)
        ensures { self.new.inner ≡ self.old.inner }
    {
        if let Some(note) = note {
            self.notes
                .note(self.rt, self.failures, self.own.as_str(), note, name);
        }
    }

    // Notes what was received without a file, if anything was.
    fn note_text(&mut self, text: Option<Vec<u8>>)
        ensures { self.new.inner ≡ self.old.inner }
    {
        let Some(text) = text else {
            return;
        };
        self.find_own();
        self.notes
            .note_answer(self.rt, self.failures, self.own.as_str(), text);
    }

    // Notes the answer of a page, the last one, if it has no file. If there is no memory for it, the next run requests the page, too.
    fn note_answer(&mut self, at: &Address, answer: &Answer<KeptPart>)
        ensures { self.new.inner ≡ self.old.inner }
    {
        let text = self.inner.answer_text(at, answer).unwrap_or(None);
        self.note_text(text);
    }

    // Keeps that the last connection was lost, which was to request this origin's robots file.
    fn note_robots(&self, of: &Origin) {
        if let Some(kind) = self.inner.loss() {
            self.failures.lose(self.rt, kind, of.robots_file());
        }
    }
}

impl<'a, R: Net + Wait + Files + Clock + Eprint> Fetcher for PartsAsking<'a, R>
where
    R::File: Close + Lock,
{
    ghost use Rattle.tcp_fetcher.specs.PartsFetching.{MayAnswerIn, MayRuleIn, PartsSite, parts_site};

    type Body = KeptPart;

    ghost Site = { PartsSite };

    ghost site = { λ f. parts_site f.inner };

    ghost says = { MayAnswerIn };

    ghost rules = { MayRuleIn };

    ghost log = { λ f. f.inner.asks };

    fn ask(&mut self, at: &Address) -> Result<Answer<KeptPart>, AllocError> {
        let claimed = self.stays_at(at);
        self.inner.let_stay(claimed.is_some());
        let answer = self.inner.ask(at)?;
        self.note_page(at);
        let note = self.note_of(at, &answer);
        self.note_answer(at, &answer);
        let Answer { outcome, body } = answer;
        let body = self.named(at, body, note, claimed);
        Ok(Answer { outcome, body })
    }

    fn ask_robots(&mut self, of: &Origin) -> Result<RuleSet, AllocError> {
        let rules = self.inner.ask_robots(of)?;
        self.note_robots(of);
        let chain = self.inner.take_chain();
        self.note_text(chain);
        Ok(rules)
    }

    fn asks(&self) -> &[Ask] {
        self.inner.asks()
    }
}
