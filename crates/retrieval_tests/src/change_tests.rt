//! Files that have other bytes in place of their bodies, in a folder in memory.
use crate::rows::plan;
use fetcher::Body;
use harvest::Harvest;
use kept_bodies::BodyKind;
use local_names::{NameRules, names};
use local_tree::{
    BodyChange, ChangeCrew, ChangeFault, ChangeLane, MemoryFolder, WriteFault, write_changed_site,
};
use site_maps::MapSite;
use std::alloc::Global;
use std::process::Abort;
use workers::retrieve_in_order;

/// Five pages: `h/a`, `h/b`, `h/c`, `h/d` and `h/index.html`, which come before `h/a` as a start.
const MAP: &[u8] =
    b"page 200 http://h/\nlink http://h/a\nlink http://h/b\nlink http://h/c\nlink http://h/d\npage 200 http://h/a\npage 200 http://h/b\npage 200 http://h/c\npage 200 http://h/d\n";

/// A body of two bytes becomes its place's digit, except for that at place 1, which stays, and that at place 2, which can't be changed.
#[derive(Drop)]
struct Digits;

impl BodyChange for Digits {
    ghost use Rattle.std.specs.Prelude.{⊤};

    ghost becomes = { λ _ _ _ _. ⊤ };

    fn change(
        &self,
        alloc: Global,
        place: usize,
        _kind: BodyKind,
        _body: &[u8],
    ) -> Result<Option<Vec<u8>>, ChangeFault> {
        match place {
            1 => Ok(None),
            2 => Err(ChangeFault::Left),
            3 => Ok(Some(b"3".to_vec(alloc)?)),
            _ => Ok(Some(b"0".to_vec(alloc)?)),
        }
    }
}

/// Nobody: a folder in memory has no lanes.
#[derive(Drop)]
struct NoCrew;

impl ChangeCrew for NoCrew {
    fn run_lanes(&self, _lanes: &mut [ChangeLane<'_, '_>]) {}
}

/// What is kept of the map.
fn harvest_of(rt: &impl Abort, alloc: Global) -> Harvest<Body> {
    let mut site = MapSite::read(alloc, MAP).expect(rt, "a map");
    let plan = plan(rt, alloc, 1, 100);
    let Ok(harvest) = retrieve_in_order(alloc, &plan, &mut site) else {
        panic!(rt; "memory");
    };
    drop(plan);
    drop(site);
    harvest
}

/// Whether the file of this name has these bytes.
fn has(folder: &MemoryFolder, name: &str, bytes: &[u8]) -> bool {
    folder.file(name) == Some(bytes)
}

/// Puts the pages of the map into a folder.
fn put(rt: &impl Abort, alloc: Global, folder: &mut MemoryFolder) -> Result<bool, WriteFault> {
    let harvest = harvest_of(rt, alloc);
    let rules = NameRules::default();
    let names = names(alloc, &rules, harvest.kept()).expect(rt, "memory");
    let (pages, bodies) = (harvest.kept(), harvest.bodies());
    let put = write_changed_site(alloc, folder, &names, pages, bodies, &Digits, &NoCrew);
    drop(names);
    drop(harvest);
    put
}

#[test]
fn bodies_are_changed_or_stay(rt: HostRuntime) {
    let mut folder = MemoryFolder::new(rt.alloc());
    assert!(rt; put(&rt, rt.alloc(), &mut folder) == Ok(false));
    assert!(rt; has(&folder, "h/index.html", b"0"));
    assert!(rt; has(&folder, "h/a", b""));
    assert!(rt; has(&folder, "h/b", b""));
    assert!(rt; has(&folder, "h/c", b"3"));
    drop(folder);
}

#[test]
fn none_is_put_after_one_that_failed(rt: HostRuntime) {
    let mut folder = MemoryFolder::failing_at(rt.alloc(), 3);
    assert!(rt; put(&rt, rt.alloc(), &mut folder) == Err(WriteFault::Device(3)));
    assert!(rt; has(&folder, "h/index.html", b"0"));
    assert!(rt; folder.file("h/c").is_none());
    assert!(rt; folder.file("h/d").is_none());
    drop(folder);
}
