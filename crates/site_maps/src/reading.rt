//! A map in mid-read: the answers and the rule sets that the lines so far state.
ghost use Rattle.std.specs.Prelude.{[], OnOk};
ghost use Rattle.site_maps.specs.Lines.{page, edge, moved, leaf, fault, robots, closed, rule};
ghost use Rattle.site_maps.specs.inner.Said.{said};
ghost use Rattle.site_maps.specs.inner.Readings.{IsFresh, TellsAbove, Closes, Claims, ClaimsOrigin, Adds, Takes, Reads};
ghost use Rattle.site_inputs.specs.inner.Tables.{IsVacant};

use crate::known::KnownAddresses;
use crate::map_line::MapLine;
use crate::open_robots::OpenRobots;
use crate::rule_kind::RuleKind;
use address::{Address, Origin};
use fetcher::{Edge, EdgeKind, Edges, FaultKind, Outcome};
use indexmap::IndexMap;
use robots_rules::RuleSet;
use site_inputs::{InputLineFault, KeptRules, read_origin};
use std::alloc::{AllocError, Global};
use std::str;

/// A page whose edge lines may still follow.
#[derive(Drop)]
pub(crate) struct OpenPage {
    pub(crate) address: Address,
    pub(crate) status: u16,
    pub(crate) edges: Vec<Edge>,
}

/// What the line above may still be followed by.
#[derive(Drop)]
pub(crate) enum Open {
    /// Edge lines of this page.
    Page(OpenPage),
    /// Rule lines of this origin.
    Robots(OpenRobots),
}

/// What the lines read so far state.
#[derive(Drop)]
pub(crate) struct MapReading {
    pub(crate) alloc: Global,
    pub(crate) answers: IndexMap<Address, Outcome>,
    pub(crate) rules: IndexMap<Origin, KeptRules>,
    pub(crate) open: Option<Open>,
}

impl MapReading {
    // Before the first line.
    pub(crate) fn new(alloc: Global) -> Self
        ensures { TellsAbove result [] }
    {
        MapReading {
            alloc,
            answers: IndexMap::new(alloc),
            rules: IndexMap::new(alloc),
            open: None,
        }
    }

    // Keeps what the open page or the open origin has: no line of theirs follows any more.
    pub(crate) fn close(&mut self) -> Result<(), AllocError>
        ensures { IsFresh self.old → OnOk result (Closes self.old self.new) }
    {
        match self.open.take() {
            None => {}
            Some(Open::Page(page)) => {
                let OpenPage {
                    address,
                    status,
                    edges,
                } = page;
                let edges = Edges::new(edges)?;
                self.answers.insert(address, Outcome::Page(status, edges))?;
            }
            Some(Open::Robots(robots)) => {
                let rules = robots.rules(self.alloc)?;
                let OpenRobots { origin, file: _ } = robots;
                self.rules
                    .insert(origin, KeptRules::new(self.alloc, rules))?;
            }
        }
        Ok(())
    }

    // Closes what is open, and refuses an address for which an answer is stated.
    fn claim(&mut self, address: &Address) -> Result<(), InputLineFault>
        ensures { Claims self.old address.now result self.new }
    {
        self.close()?;
        self.unstated(address)
    }

    // Refuses an address for which an answer is kept. Takes no memory.
    fn unstated(&self, address: &Address) -> Result<(), InputLineFault>
        ensures { IsVacant self.now.answers.entries address.now result }
    {
        if self.answers.contains_key(address) {
            return Err(InputLineFault::Line);
        }
        Ok(())
    }

    // Closes what is open, and refuses an origin for which rules are stated.
    fn claim_origin(&mut self, origin: &Origin) -> Result<(), InputLineFault>
        ensures { ClaimsOrigin self.old origin.now result self.new }
    {
        self.close()?;
        self.unruled(origin)
    }

    // Refuses an origin for which rules are kept. Takes no memory.
    fn unruled(&self, origin: &Origin) -> Result<(), InputLineFault>
        ensures { IsVacant self.now.rules.entries origin.now result }
    {
        if self.rules.contains_key(origin) {
            return Err(InputLineFault::Line);
        }
        Ok(())
    }

    // Keeps an answer for an address for which none is stated.
    fn add_answer(&mut self, address: Address, outcome: Outcome) -> Result<(), InputLineFault>
        ensures { Adds self.old address outcome result self.new }
    {
        self.claim(&address)?;
        self.answers.insert(address, outcome)?;
        Ok(())
    }

    // Takes a page line.
    fn add_page<'a>(
        &mut self,
        known: &mut KnownAddresses<'a>,
        status: u16,
        text: &'a str,
    ) -> Result<(), InputLineFault>
        ensures { Takes self.old (page status text.now) result self.new }
    {
        let address = known.read(text)?;
        self.claim(&address)?;
        self.open = Some(Open::Page(OpenPage {
            address,
            status,
            edges: Vec::new(self.alloc),
        }));
        Ok(())
    }

    // Takes an edge line.
    fn add_edge<'a>(
        &mut self,
        known: &mut KnownAddresses<'a>,
        kind: EdgeKind,
        text: &'a str,
    ) -> Result<(), InputLineFault>
        ensures { Takes self.old (edge kind text.now) result self.new }
    {
        match &mut self.open {
            Some(Open::Page(above)) => {
                let target = known.read(text)?;
                above.edges.push(Edge { target, kind })?;
                Ok(())
            }
            _ => Err(InputLineFault::Line),
        }
    }

    // Takes a moved line.
    fn add_moved<'a>(
        &mut self,
        known: &mut KnownAddresses<'a>,
        status: u16,
        text: &'a str,
        target: &'a str,
    ) -> Result<(), InputLineFault>
        ensures { Takes self.old (moved status text.now target.now) result self.new }
    {
        let address = known.read(text)?;
        let target = known.read(target)?;
        self.add_answer(address, Outcome::Moved(status, target))
    }

    // Takes a leaf line.
    fn add_leaf<'a>(
        &mut self,
        known: &mut KnownAddresses<'a>,
        status: u16,
        text: &'a str,
    ) -> Result<(), InputLineFault>
        ensures { Takes self.old (leaf status text.now) result self.new }
    {
        let address = known.read(text)?;
        self.add_answer(address, Outcome::Leaf(status))
    }

    // Takes a fault line.
    fn add_fault<'a>(
        &mut self,
        known: &mut KnownAddresses<'a>,
        kind: FaultKind,
        text: &'a str,
    ) -> Result<(), InputLineFault>
        ensures { Takes self.old (fault kind text.now) result self.new }
    {
        let address = known.read(text)?;
        self.add_answer(address, Outcome::Fault(kind))
    }

    // Takes a robots line whose rules follow.
    fn add_robots(&mut self, text: &str) -> Result<(), InputLineFault>
        ensures { Takes self.old (robots text.now) result self.new }
    {
        let origin = read_origin(self.alloc, text)?;
        self.claim_origin(&origin)?;
        let robots = OpenRobots::new(self.alloc, origin)?;
        self.open = Some(Open::Robots(robots));
        Ok(())
    }

    // Takes a robots line of an origin of which nothing is allowed.
    fn add_closed(&mut self, text: &str) -> Result<(), InputLineFault>
        ensures { Takes self.old (closed text.now) result self.new }
    {
        let origin = read_origin(self.alloc, text)?;
        self.claim_origin(&origin)?;
        self.rules
            .insert(origin, KeptRules::new(self.alloc, RuleSet::none()))?;
        Ok(())
    }

    // Takes a rule line.
    fn add_rule(&mut self, kind: RuleKind, rest: &str) -> Result<(), InputLineFault>
        ensures { Takes self.old (rule kind rest.now) result self.new }
    {
        match &mut self.open {
            Some(Open::Robots(robots)) => Ok(robots.add(kind, rest)?),
            _ => Err(InputLineFault::Line),
        }
    }

    // Takes what a line says.
    fn add<'a>(
        &mut self,
        known: &mut KnownAddresses<'a>,
        line: MapLine<'a>,
    ) -> Result<(), InputLineFault>
        ensures { Takes self.old (said line.entry) result self.new }
    {
        match line {
            MapLine::Skipped => Ok(()),
            MapLine::Page(status, text) => self.add_page(known, status, text),
            MapLine::Edge(kind, text) => self.add_edge(known, kind, text),
            MapLine::Moved(status, text, target) => self.add_moved(known, status, text, target),
            MapLine::Leaf(status, text) => self.add_leaf(known, status, text),
            MapLine::Fault(kind, text) => self.add_fault(known, kind, text),
            MapLine::Robots(text) => self.add_robots(text),
            MapLine::Closed(text) => self.add_closed(text),
            MapLine::Rule(kind, rest) => self.add_rule(kind, rest),
        }
    }

    /// Takes one more line; the addresses that it names are read if no line above named them. An error says what is
    /// wrong with it; then nothing more may be read.
    pub(crate) fn read_line<'a>(
        &mut self,
        known: &mut KnownAddresses<'a>,
        line: &'a [u8],
    ) -> Result<(), InputLineFault>
        ensures { Reads self.old line.now result self.new }
    {
        let Ok(text) = str::from_utf8(line) else {
            return Err(InputLineFault::Line);
        };
        let Some(line) = MapLine::of(text) else {
            return Err(InputLineFault::Line);
        };
        self.add(known, line)
    }
}
