//! Sites that are put on a disk by a crew: as many files as one after another would be, with the same bytes, and no part stays.
use crate::disk::{FaultyDisk, Mishap};
use crate::rows::plan;
use address::{Address, Origin};
use fetcher::{Answer, Ask, Body, Fetcher};
use harvest::Harvest;
use local_names::{NameRules, names};
use local_tree::{Close, DiskFolder, FilePart, Folder, Lock, Naming, PartCrew, WriteFault};
use robots_rules::RuleSet;
use site_maps::MapSite;
use std::alloc::{AllocError, Global};
use std::fs;
use std::fs::Files;
use std::io::ErrorKind;
use std::process::Abort;
use std::thread::{Threads, join_mut};
use workers::retrieve_in_order;

/// In how many directories the pages of a site are.
const DIRECTORIES: u16 = 7;

/// Writes parts in a thread of their own.
#[derive(Drop)]
struct InThreads<'a, T> {
    threads: &'a T,
    disk: &'a FaultyDisk,
}

/// Writes these parts.
fn write_all<R: Files>(disk: &R, parts: &mut [FilePart<'_>])
where
    R::File: Close + Lock,
{
    for part in parts {
        part.write(disk);
    }
}

impl<'a, T: Threads> PartCrew for InThreads<'a, T> {
    fn write_parts<N: Naming>(&self, parts: &mut [FilePart<'_>], naming: &mut N) {
        write_in_another(self.threads, self.disk, parts, naming);
    }
}

/// Writes these parts in another thread, while names are given in this one.
fn write_in_another<T: Threads, N: Naming>(
    threads: &T,
    disk: &FaultyDisk,
    parts: &mut [FilePart<'_>],
    naming: &mut N,
) {
    join_mut(
        threads,
        &mut || write_all(disk, parts),
        &mut || naming.give_names(),
    );
}

/// Writes parts in turn.
#[derive(Drop)]
struct InTurn<'a, R> {
    disk: &'a R,
}

impl<'a, R: Files> PartCrew for InTurn<'a, R>
where
    R::File: Close + Lock,
{
    fn write_parts<N: Naming>(&self, parts: &mut [FilePart<'_>], naming: &mut N) {
        write_all(self.disk, parts);
        naming.give_names();
    }
}

/// Writes no part.
#[derive(Drop)]
struct Nobody;

impl PartCrew for Nobody {
    fn write_parts<N: Naming>(&self, _parts: &mut [FilePart<'_>], _naming: &mut N) {}
}

/// Writes parts in turn, and then moves them.
#[derive(Drop)]
struct Mover<'a, R> {
    disk: &'a R,
}

impl<'a, R: Files> PartCrew for Mover<'a, R>
where
    R::File: Close + Lock,
{
    fn write_parts<N: Naming>(&self, parts: &mut [FilePart<'_>], naming: &mut N) {
        naming.give_names();
        write_all(self.disk, parts);
        parts.reverse();
    }
}

/// A map's site, in which the body of each page is its path.
#[derive(Drop)]
struct Pages {
    alloc: Global,
    map: MapSite,
}

impl Fetcher for Pages {
    ghost use Rattle.std.specs.Prelude.{⊤};
    ghost use Rattle.site_maps.specs.Maps.{says_of};
    ghost use Rattle.fetcher.specs.Sites.{SiteAnswers, GivesRules};

    type Body = Body;

    ghost Site = { SiteAnswers };

    ghost site = { λ s. says_of s.map.answers s.map.rules };

    ghost says = { λ _ _ _ _. ⊤ };

    ghost rules = { GivesRules };

    ghost log = { λ s. s.map.asks };

    fn ask(&mut self, at: &Address) -> Result<Answer<Body>, AllocError> {
        let Answer { outcome, body } = self.map.ask(at)?;
        let path = at.path_query().as_bytes().to_vec(self.alloc)?;
        Ok(Answer {
            outcome,
            body: Body::new(body.kind(), path),
        })
    }

    fn ask_robots(&mut self, of: &Origin) -> Result<RuleSet, AllocError> {
        self.map.ask_robots(of)
    }

    fn asks(&self) -> &[Ask] {
        self.map.asks()
    }
}

/// Writes a line of a map for each page of a site except its start.
fn write_lines(rt: &impl Abort, map: &mut String, word: &str, pages: u16) {
    for page in 1..pages {
        let directory = page % DIRECTORIES;
        writeln!(map, "{word} http://h/{directory}/{page}").expect(rt, "memory");
    }
}

/// A site of a start and of pages to which that leads, so many in all.
fn site_of(rt: &impl Abort, alloc: Global, pages: u16) -> Pages {
    let mut map = String::from_str(alloc, "page 200 http://h/\n").expect(rt, "memory");
    write_lines(rt, &mut map, "link", pages);
    write_lines(rt, &mut map, "page 200", pages);
    Pages {
        alloc,
        map: MapSite::read(alloc, map.as_bytes()).expect(rt, "a map"),
    }
}

/// What is kept of such a site.
fn harvest_of(rt: &impl Abort, alloc: Global, pages: u16) -> Harvest<Body> {
    let mut site = site_of(rt, alloc, pages);
    let plan = plan(rt, alloc, 1, 1_000);
    let Ok(harvest) = retrieve_in_order(alloc, &plan, &mut site) else {
        panic!(rt; "memory");
    };
    drop(plan);
    drop(site);
    harvest
}

/// What is kept of a site, and the names of its files.
#[derive(Drop)]
struct KeptSite {
    harvest: Harvest<Body>,
    names: Vec<String>,
}

/// The names of a site's files. There are so many.
fn names_of(rt: &impl Abort, alloc: Global, harvest: &Harvest<Body>, files: u16) -> Vec<String> {
    let rules = NameRules::default();
    let names = names(alloc, &rules, harvest.kept()).expect(rt, "memory");
    assert_eq!(rt; names.len(), usize::from(files));
    names
}

/// Such a site with so many files.
fn kept_site(rt: &impl Abort, alloc: Global, files: u16) -> KeptSite {
    let harvest = harvest_of(rt, alloc, files);
    let names = names_of(rt, alloc, &harvest, files);
    KeptSite { harvest, names }
}

/// The folder `disk`, which isn't there yet.
fn clear(rt: &impl Files, alloc: Global) {
    let _ = rt.remove_dir_all(alloc, "disk");
}

/// Whether the file of this name is in the folder with these bytes, or none is if there are none.
fn stands<R: Abort + Files + AllocGlobal>(rt: &R, name: &str, bytes: Option<&[u8]>) -> bool {
    let path = format!(in rt.alloc(); "disk/{name}").expect(rt, "memory");
    match fs::read(rt, path.as_str()) {
        Ok(found) => bytes == Some(found.as_slice()),
        Err(_) => bytes.is_none(),
    }
}

/// The bytes of a site's file, if it is one of the first so many.
fn bytes_of(site: &KeptSite, file: usize, whole: usize) -> Option<&[u8]> {
    match site.harvest.bodies().get(file) {
        Some(body) if file < whole => Some(body.as_slice()),
        _ => None,
    }
}

/// Whether exactly the first so many files of a site are in the folder, each with its bytes.
fn are_put<R: Abort + Files + AllocGlobal>(rt: &R, site: &KeptSite, whole: usize) -> bool {
    for (i, name) in site.names.iter().enumerate() {
        if !stands(rt, name.as_str(), bytes_of(site, i, whole)) {
            return false;
        }
    }
    true
}

/// How many entries a directory has. The folder has that of the host, and parts that stay are beside it.
fn entries<R: Abort + Files + AllocGlobal + Clone + Drop>(rt: &R, path: &str) -> usize {
    let mut entries = 0usize;
    for entry in fs::read_dir(rt, path).expect(rt, "the disk") {
        entry.expect(rt, "the disk");
        entries = entries.wrapping_add(1);
    }
    entries
}

/// The folder `disk` on a disk.
fn folder<'a, R: Files>(rt: &impl Abort, alloc: Global, disk: &'a R) -> DiskFolder<'a, R>
where
    R::File: Close + Lock,
{
    DiskFolder::new(disk, alloc, "disk").expect(rt, "memory")
}

/// Puts a site by a crew into a folder. Returns how many files are whole, and the kind of the error, if any.
fn put_into<R: Files, C: PartCrew>(
    rt: &impl Abort,
    folder: &mut DiskFolder<'_, R>,
    crew: &C,
    site: &KeptSite,
) -> (usize, Option<ErrorKind>)
where
    R::File: Close + Lock,
{
    let bodies = site.harvest.bodies();
    if site.names.len() != bodies.len() {
        panic!(rt; "other names");
    }
    match folder.put_site_by(crew, &site.names, bodies) {
        Ok(()) => (site.names.len(), None),
        Err(WriteFault::Device(whole)) => {
            let error = folder.error().expect(rt, "an error");
            (whole, Some(error.kind()))
        }
    }
}

/// Puts a site by a crew into the folder `disk`. Returns the same.
fn put<R: Files, C: PartCrew>(
    rt: &impl Abort,
    alloc: Global,
    disk: &R,
    crew: &C,
    site: &KeptSite,
) -> (usize, Option<ErrorKind>)
where
    R::File: Close + Lock,
{
    let mut folder = folder(rt, alloc, disk);
    let ended = put_into(rt, &mut folder, crew, site);
    drop(folder);
    ended
}

/// Puts a site by threads into the folder `disk`. Returns the same.
fn put_by_threads<R: Abort + Threads + AllocGlobal>(
    rt: &R,
    disk: &FaultyDisk,
    site: &KeptSite,
) -> (usize, Option<ErrorKind>) {
    let crew = InThreads { threads: rt, disk };
    put(rt, rt.alloc(), disk, &crew, site)
}

/// Puts a site into a folder, one file after another. Returns how many files are whole.
fn put_all(folder: &mut impl Folder, site: &KeptSite) -> usize {
    let bodies = site.harvest.bodies();
    for (i, name) in site.names.iter().enumerate() {
        if i >= bodies.len() || folder.put(name.as_str(), bodies[i].as_slice()).is_err() {
            return i;
        }
    }
    site.names.len()
}

/// Does so in the folder `disk`.
fn put_in_turn(rt: &impl Abort, alloc: Global, disk: &FaultyDisk, site: &KeptSite) -> usize {
    let mut folder = folder(rt, alloc, disk);
    let whole = put_all(&mut folder, site);
    drop(folder);
    whole
}

/// A disk of the test to which something befalls.
fn disk(rt: HostRuntime, alloc: Global, mishap: Mishap) -> Result<FaultyDisk, AllocError> {
    clear(&rt, alloc);
    FaultyDisk::new(rt, alloc, mishap)
}

/// Whether a crew puts a site whole onto a disk.
fn is_put_by<R: Abort + Files + AllocGlobal, D: Files, C: PartCrew>(
    rt: &R,
    disk: &D,
    crew: &C,
    site: &KeptSite,
) -> bool
where
    D::File: Close + Lock,
{
    let count = site.names.len();
    put(rt, rt.alloc(), disk, crew, site) == (count, None) && are_put(rt, site, count)
}

/// Whether threads do, and no part stays.
fn is_put_by_threads<R: Abort + Threads + Files + AllocGlobal + Clone + Drop>(
    rt: &R,
    disk: &FaultyDisk,
    site: &KeptSite,
) -> bool {
    let crew = InThreads { threads: rt, disk };
    is_put_by(rt, disk, &crew, site) && entries(rt, "disk") == 1
}

/// Leaves what a killed run would.
fn leave_parts(rt: &(impl Abort + Files)) {
    fs::create_dir_all(rt, "disk/.wgetr%part0/0").expect(rt, "the disk");
    fs::write(rt, "disk/.wgetr%part0/lock", "").expect(rt, "the disk");
    fs::write(rt, "disk/.wgetr%part0/part", "left").expect(rt, "the disk");
    fs::write(rt, "disk/.wgetr%part0/0/0", "left").expect(rt, "the disk");
    fs::write(rt, "disk/.wgetr%part0/0/255", "left").expect(rt, "the disk");
    rt.symlink("../h", "disk/.wgetr%part0/1")
        .expect(rt, "the disk");
}

#[test]
fn a_site_is_put_by_threads(rt: HostRuntime) {
    let site = kept_site(&rt, rt.alloc(), 300);
    let disk = disk(rt, rt.alloc(), Mishap::Holds(u64::MAX)).expect(&rt, "memory");
    assert!(rt; is_put_by_threads(&rt, &disk, &site));
    // What a killed run left is in nobody's way.
    leave_parts(&rt);
    assert!(rt; is_put_by_threads(&rt, &disk, &site));
    drop(disk);
    drop(site);
}

/// Whether a crew puts a site whole into the folder `disk`, which is cleared before.
fn is_put_anew<R: Abort + Files + AllocGlobal, C: PartCrew>(
    rt: &R,
    crew: &C,
    site: &KeptSite,
) -> bool
where
    R::File: Close + Lock,
{
    clear(rt, rt.alloc());
    is_put_by(rt, rt, crew, site)
}

/// Whether a crew that leaves all parts out does, one that moves them, and one that does neither, and no part stays.
fn is_put_by_each<R: Abort + Files + AllocGlobal + Clone + Drop>(rt: &R, site: &KeptSite) -> bool
where
    R::File: Close + Lock,
{
    is_put_anew(rt, &Nobody, site)
        && is_put_anew(rt, &Mover { disk: rt }, site)
        && is_put_anew(rt, &InTurn { disk: rt }, site)
        && entries(rt, "disk") == 1
}

#[test]
fn what_a_crew_leaves_out_or_moves_is_put_all_the_same(rt: HostRuntime) {
    for files in [1u16, 2, 15, 16, 17, 257, 258, 272, 273] {
        let site = kept_site(&rt, rt.alloc(), files);
        assert!(rt; is_put_by_each(&rt, &site), "{files}");
        drop(site);
    }
}

/// How many bytes the files of a site have in all.
fn size_of(site: &KeptSite) -> u64 {
    let mut bytes = 0u64;
    for body in site.harvest.bodies() {
        bytes = bytes.wrapping_add(body.as_slice().len() as u64);
    }
    bytes
}

/// Whether a disk takes as many of 300 files by threads as in turn: all, or those that it has room for if it is full.
fn holds_as_many<R: Abort + Threads + Files + AllocGlobal + Clone + Drop>(
    rt: &R,
    disk: &FaultyDisk,
    site: &KeptSite,
    in_turn: usize,
    is_full: bool,
) -> bool {
    let (whole, error) = put_by_threads(rt, disk, site);
    whole == in_turn
        && (whole == 300) != is_full
        && (error == Some(ErrorKind::StorageFull)) == is_full
        && error.is_some() == is_full
        && are_put(rt, site, whole)
        && entries(rt, "disk") == 1
}

#[test]
fn a_full_disk_holds_as_many_files_as_in_turn(rt: HostRuntime) {
    let site = kept_site(&rt, rt.alloc(), 300);
    let all = size_of(&site);
    for room in [
        0,
        1,
        2,
        40,
        41,
        42,
        43,
        44,
        800,
        1_500,
        all.wrapping_sub(1),
        all,
    ] {
        let first = disk(rt, rt.alloc(), Mishap::Holds(room)).expect(&rt, "memory");
        let in_turn = put_in_turn(&rt, rt.alloc(), &first, &site);
        drop(first);
        let second = disk(rt, rt.alloc(), Mishap::Holds(room)).expect(&rt, "memory");
        assert!(rt;
            holds_as_many(&rt, &second, &site, in_turn, room < all),
            "{room}"
        );
        drop(second);
    }
    drop(site);
}

#[test]
fn files_are_replaced_where_a_disk_has_room_for_few(rt: HostRuntime) {
    let site = kept_site(&rt, rt.alloc(), 300);
    let room = size_of(&site).wrapping_add(10);
    let disk = disk(rt, rt.alloc(), Mishap::Holds(room)).expect(&rt, "memory");
    for _ in 0..2u8 {
        assert!(rt; is_put_by_threads(&rt, &disk, &site));
    }
    drop(disk);
    drop(site);
}

/// Whether the directory for parts has nothing except its lock and, empty, what is removed before that. It is removed.
fn is_bare(rt: &impl Files) -> bool {
    let _ = rt.remove_dir("disk/.wgetr%part0/parts");
    rt.remove_file("disk/.wgetr%part0/lock").is_ok() && rt.remove_dir("disk/.wgetr%part0").is_ok()
}

/// Whether whole files of a site of 20 are put onto a disk of which so many calls fail in turn.
fn are_put_whole<R: Abort + Threads + Files + AllocGlobal + Clone + Drop>(
    rt: &R,
    disk: &FaultyDisk,
    site: &KeptSite,
    lasting: u64,
) -> bool {
    let (whole, error) = put_by_threads(rt, disk, site);
    let is_all_or_nothing = whole == 0 || whole == 20;
    // One failure stops the first file, which is put alone, and costs a later one a second try. No part stays then, and no
    // directory for parts unless it was the call that removes it that failed.
    error.is_some() == (whole < 20)
        && are_put(rt, site, whole)
        && (lasting > 1 || is_all_or_nothing)
        && (lasting > 1 || whole == 0 || entries(rt, "disk") == 1 || is_bare(rt))
}

/// Whether they are, and all once the disk is mended.
fn leaves_whole_files<R: Abort + Threads + Files + AllocGlobal + Clone + Drop>(
    rt: &R,
    disk: &FaultyDisk,
    site: &KeptSite,
    lasting: u64,
) -> bool {
    let are_whole = are_put_whole(rt, disk, site, lasting);
    disk.log().mend();
    are_whole && is_put_by_threads(rt, disk, site)
}

#[test]
fn a_disk_that_fails_leaves_whole_files_of_a_site(rt: HostRuntime) {
    let site = kept_site(&rt, rt.alloc(), 20);
    for from in 0..210u64 {
        for lasting in [1, u64::MAX] {
            let disk = disk(rt, rt.alloc(), Mishap::Fails(from, lasting)).expect(&rt, "memory");
            assert!(rt;
                leaves_whole_files(&rt, &disk, &site, lasting),
                "{from} {lasting}"
            );
            drop(disk);
        }
    }
    drop(site);
}
