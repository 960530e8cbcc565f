//! Files on a disk: made with their directories, and replaced; a disk that fails, and one that another process uses. Names are in a
//! text with a blank between two.
use crate::disk::{DiskLog, FaultyDisk, Mishap};
use local_tree::{Close, DiskFolder, Folder, Lock};
use std::alloc::Global;
use std::fs;
use std::fs::Files;
use std::io::Error;
use std::process::Abort;

// Whether the file holds these bytes.
fn holds(rt: &(impl Files + AllocGlobal), path: &str, bytes: &[u8]) -> bool {
    match fs::read(rt, path) {
        Ok(found) => found.as_slice() == bytes,
        Err(_) => false,
    }
}

// Whether each of these names below a folder has a file with its own text.
fn hold_own<R: Abort + Files + AllocGlobal>(rt: &R, folder: &str, names: &str) -> bool {
    for name in names.split(' ') {
        if !holds_below(rt, folder, name, name.as_bytes()) {
            return false;
        }
    }
    true
}

// Whether the file of this name below a folder holds these bytes.
fn holds_below<R: Abort + Files + AllocGlobal>(
    rt: &R,
    folder: &str,
    name: &str,
    bytes: &[u8],
) -> bool {
    let path = format!(in rt.alloc(); "{folder}/{name}").expect(rt, "memory");
    holds(rt, path.as_str(), bytes)
}

// Whether nothing is there.
fn is_absent(rt: &impl Files, path: &str) -> bool {
    fs::metadata(rt, path).is_err()
}

// A file of this text.
fn write(rt: &(impl Abort + Files), path: &str, text: &str) {
    fs::write(rt, path, text).expect(rt, "the disk");
}

// A folder on the disk.
fn folder<'a, R: Abort + Files>(rt: &'a R, alloc: Global, path: &str) -> DiskFolder<'a, R>
where
    R::File: Close + Lock,
{
    DiskFolder::new(rt, alloc, path).expect(rt, "memory")
}

// Whether each of these names can be put, with its own text.
fn puts_all(folder: &mut impl Folder, names: &str) -> bool {
    for name in names.split(' ') {
        if folder.put(name, name.as_bytes()).is_err() {
            return false;
        }
    }
    true
}

// Whether none of these names can be put.
fn puts_none(folder: &mut impl Folder, names: &str) -> bool {
    for name in names.split(' ') {
        if folder.put(name, b"lost").is_ok() {
            return false;
        }
    }
    true
}

// Whether files are put into a folder that is `tree/of files` on the disk, of which nothing is there before.
fn is_filled<R: Abort + Files + AllocGlobal>(rt: &R, folder: &mut impl Folder) -> bool {
    // The third directory is named as the two before it are in one; the text of one begins with that of the next, twice.
    let names = "h/index.html h/a/b?c=%2F hh/a/d h:81/index.html m/a!/x m/a/y n.com/x n/y";
    is_absent(rt, "tree") && puts_all(folder, names) && hold_own(rt, "tree/of files", names)
}

// What a killed run leaves in a folder: a lock that nobody holds, and a part.
fn leave_parts(rt: &(impl Abort + Files)) {
    fs::create_dir(rt, "tree/of files/.wgetr%part0").expect(rt, "the disk");
    write(rt, "tree/of files/.wgetr%part0/lock", "");
    write(rt, "tree/of files/.wgetr%part0/part", "left");
}

// Whether a file of it is replaced, by a shorter one too, and what a killed run left is in nobody's way.
fn is_replaced<R: Abort + Files + AllocGlobal>(rt: &R, folder: &mut impl Folder) -> bool {
    leave_parts(rt);
    folder.put("h/index.html", b"4").is_ok()
        && holds(rt, "tree/of files/h/index.html", b"4")
        && folder.put("h/empty", b"").is_ok()
        && holds(rt, "tree/of files/h/empty", b"")
}

// Whether a name is refused if a directory is in the place of its file, or a file in that of a directory, and one that
// leads out or is empty, like the last.
fn refuses_odd_names(rt: &impl Files, folder: &mut impl Folder) -> bool {
    puts_none(folder, "h/a h/index.html/b ../x /x h//x h/./x ")
        && folder.failures() == 7
        && is_absent(rt, "tree/of files/.wgetr%part0")
        && is_absent(rt, "tree/x")
}

// Files are put below that folder.
fn put_below<R: Abort + Files + AllocGlobal>(rt: &R, folder: &mut impl Folder) {
    assert!(rt; is_filled(rt, folder));
    assert!(rt; is_replaced(rt, folder));
    assert!(rt; refuses_odd_names(rt, folder));
}

#[test]
fn files_are_put_below_the_folder(rt: HostRuntime) {
    put_below(&rt, &mut folder(&rt, rt.alloc(), "tree/of files"));
}

// The folder `disk` with a file and what a run has there whose disk has no locks, and another beside it.
fn lay_out(rt: &(impl Abort + Files), alloc: Global) {
    let _ = rt.remove_dir_all(alloc, "disk");
    fs::create_dir_all(rt, "disk/h").expect(rt, "the disk");
    fs::create_dir_all(rt, "outside").expect(rt, "the disk");
    write(rt, "disk/h/x", "as it was");
    fs::create_dir(rt, "disk/.wgetr%part0").expect(rt, "the disk");
    write(rt, "disk/.wgetr%part0/part", "of another run");
}

// That folder on a disk.
fn laid_out<'a, R: Abort + Files + AllocGlobal, D: Files>(rt: &R, disk: &'a D) -> DiskFolder<'a, D>
where
    D::File: Close + Lock,
{
    lay_out(rt, rt.alloc());
    DiskFolder::new(disk, rt.alloc(), "disk").expect(rt, "memory")
}

// Whether the file holds what was put, if that ended well, and else what was there, if anything.
fn is_whole(
    rt: &(impl Files + AllocGlobal),
    path: &str,
    is_put: bool,
    put: &[u8],
    before: &[u8],
) -> bool {
    match fs::read(rt, path) {
        Ok(found) => found.as_slice() == if is_put { put } else { before },
        Err(_) => !is_put && before.is_empty(),
    }
}

// The texts that are put over a file and into a new directory.
const REPLACED: &[u8] = b"replaced";

const NEW: &[u8] = b"new file";

// Puts both. Whether each ended well.
fn put_both(folder: &mut impl Folder) -> (bool, bool) {
    let replaced = folder.put("h/x", REPLACED).is_ok();
    (replaced, folder.put("k/y", NEW).is_ok())
}

// Whether both are put once the disk is mended, and no part stays except another run's.
fn is_mended<R: Files + AllocGlobal>(rt: &R, folder: &mut impl Folder) -> bool {
    put_both(folder) == (true, true)
        && holds(rt, "disk/h/x", REPLACED)
        && holds(rt, "disk/k/y", NEW)
        && is_absent(rt, "disk/.wgetr%part1")
        && holds(rt, "disk/.wgetr%part0/part", b"of another run")
}

// Whether both files hold what was put, if that ended well, and else what was there, and what failed once isn't seen.
fn are_whole<R: Files + AllocGlobal>(rt: &R, replaced: bool, new: bool, lasting: u64) -> bool {
    is_whole(rt, "disk/h/x", replaced, REPLACED, b"as it was")
        && is_whole(rt, "disk/k/y", new, NEW, b"")
        && (lasting > 1 || is_absent(rt, "disk/.wgetr%part1/part"))
}

// Whether the files of a disk are whole of which so many calls fail from this on: both puts end well if no call failed, and only if
// each write, close and rename did and each file was closed; and once the disk is mended both are put.
fn stays_whole<R: Abort + Files + AllocGlobal, D: Files>(
    rt: &R,
    disk: &D,
    log: &DiskLog,
    from: u64,
    lasting: u64,
) -> bool
where
    D::File: Close + Lock,
{
    let mut folder = laid_out(rt, disk);
    let (replaced, new) = put_both(&mut folder);
    let is_felt = log.calls() > from;
    let is_lost = log.lost() > 0;
    let is_closed = log.closed() >= u64::from(replaced).saturating_add(u64::from(new));
    let are_whole = are_whole(rt, replaced, new, lasting);
    log.mend();
    let is_mended = is_mended(rt, &mut folder);
    drop(folder);
    (is_felt || (replaced && new))
        && !(is_lost && replaced && new)
        && are_whole
        && is_closed
        && is_mended
}

#[test]
fn a_disk_that_fails_leaves_each_file_whole(rt: HostRuntime) {
    for lasting in [1, u64::MAX] {
        for from in 0..80u64 {
            let disk = FaultyDisk::new(rt, rt.alloc(), Mishap::Fails(from, lasting));
            let disk = disk.expect(&rt, "memory");
            assert!(rt;
                stays_whole(&rt, &disk, disk.log(), from, lasting),
                "{from} {lasting}"
            );
            drop(disk);
        }
    }
}

// What another process makes while a file is put, into a new directory or one that is there: which file, before which call, for
// which path, what; and how the put ends. A link that is made after the look for it isn't seen, as the folder says, nor one in a
// new directory.
const MEETINGS: &str = "k/y mkdir disk/k dir whole
k/y mkdir disk/k file refused
k/y mkdir disk/k link refused
k/y lstat disk/k file refused
k/y lstat disk/k link refused
h/y lstat disk/h/y dir refused
h/y lstat disk/h/y link refused
k/y open disk/.wgetr%part1/part file whole
k/y open disk/.wgetr%part1/part link whole
k/y mkdir disk/.wgetr%part1 dir whole
k/y mkdir disk/.wgetr%part1 file whole
k/y mkdir disk/.wgetr%part1 link whole
k/y lstat disk/.wgetr%part1/lock removed whole
k/y rename disk/k/y file whole
k/y rename disk/k/y link whole
k/y rename disk/k/y dir refused";

// Which file a line says is put, what befalls the disk, and how the put ends.
fn meeting_of(rt: &impl Abort, line: &'static str) -> (&'static str, Mishap, &'static str) {
    let mut words = line.split(' ');
    let file = words.next().expect(rt, "a file");
    let call = words.next().expect(rt, "a call");
    let path = words.next().expect(rt, "a path");
    let made = words.next().expect(rt, "a thing");
    let ends = words.next().expect(rt, "an end");
    (file, Mishap::Meets(call, path, made), ends)
}

// Whether this file can be put into a folder that is laid out.
fn puts_new<R: Abort + Files + AllocGlobal, D: Files>(rt: &R, disk: &D, file: &str) -> bool
where
    D::File: Close + Lock,
{
    let mut folder = laid_out(rt, disk);
    let is_put = folder.put(file, NEW).is_ok();
    drop(folder);
    is_put
}

// Whether the put ends as it is to, with the file whole if it ends well, and neither a part of it nor anything outside.
fn meets<R: Abort + Files + AllocGlobal>(
    rt: &R,
    disk: &FaultyDisk,
    file: &str,
    ends: &str,
) -> bool {
    let is_put = puts_new(rt, disk, file);
    is_put == (ends == "whole")
        && holds_below(rt, "disk", file, NEW) == is_put
        && is_absent(rt, "disk/.wgetr%part1/part")
        && is_absent(rt, "disk/.wgetr%part2")
        && is_absent(rt, "outside/y")
}

#[test]
fn what_another_process_makes_is_seen(rt: HostRuntime) {
    for line in MEETINGS.lines() {
        let (file, mishap, ends) = meeting_of(&rt, line);
        let disk = FaultyDisk::new(rt, rt.alloc(), mishap).expect(&rt, "memory");
        assert!(rt; meets(&rt, &disk, file, ends), "{line}");
        drop(disk);
    }
}

// Takes a directory away with the file in it.
fn take_away(rt: &(impl Abort + Files)) {
    rt.remove_file("gone/a/x").expect(rt, "the disk");
    rt.remove_dir("gone/a").expect(rt, "the disk");
}

// Whether a folder that is this directory misses one of its own that was taken away, and makes it again.
fn makes_again(rt: &(impl Abort + Files + AllocGlobal), folder: &mut impl Folder) -> bool {
    let is_made = puts_all(folder, "gone/a/x");
    take_away(rt);
    is_made
        && puts_none(folder, "gone/a/y")
        && is_absent(rt, "./.wgetr%part0")
        && puts_all(folder, "gone/a/y")
        && holds(rt, "./gone/a/y", b"gone/a/y")
}

#[test]
fn a_directory_that_went_is_made_again(rt: HostRuntime) {
    // The empty path is this directory.
    let mut folder = folder(&rt, rt.alloc(), "");
    assert!(rt; makes_again(&rt, &mut folder));
    drop(folder);
}

// Why each of these can't be put below a folder with `h/a/b` and `h/c`: the kind of the error.
const REASONS: &str = "h/a AlreadyExists
h/c/d NotADirectory
../x InvalidInput";

// Whether an error is of this kind.
fn is_kind(rt: &impl Abort, alloc: Global, error: &Error, kind: &str) -> bool {
    let text = format!(in alloc; "{:?}", error.kind()).expect(rt, "memory");
    text.as_str() == kind
}

// Whether a folder refuses a line's name for its reason, which isn't the system's.
fn refuses<R: Abort + Files + AllocGlobal>(
    rt: &R,
    folder: &mut DiskFolder<'_, R>,
    line: &str,
) -> bool
where
    R::File: Close + Lock,
{
    let (name, kind) = line.split_once(' ').expect(rt, "a row");
    if !puts_none(folder, name) {
        return false;
    }
    let error = folder.error().expect(rt, "an error");
    error.raw_os_error().is_none() && is_kind(rt, rt.alloc(), error, kind)
}

// Whether a folder takes those files, and has no error then.
fn takes_both<R: Files>(folder: &mut DiskFolder<'_, R>) -> bool
where
    R::File: Close + Lock,
{
    puts_all(folder, "h/a/b h/c") && folder.error().is_none()
}

// A folder with those files refuses each of the names for its reason.
fn refuse_all<R: Abort + Files + AllocGlobal>(rt: &R, folder: &mut DiskFolder<'_, R>)
where
    R::File: Close + Lock,
{
    assert!(rt; takes_both(folder));
    for line in REASONS.lines() {
        assert!(rt; refuses(rt, folder, line), "{line}");
    }
}

// The system's number of the error by which a folder refuses a name.
fn number_of_refusal<R: Abort + Files>(rt: &R, folder: &mut DiskFolder<'_, R>) -> Option<i32>
where
    R::File: Close + Lock,
{
    if !puts_none(folder, "h/x") {
        return None;
    }
    folder.error().expect(rt, "an error").raw_os_error()
}

#[test]
fn a_folder_says_why_a_put_failed(rt: HostRuntime) {
    refuse_all(&rt, &mut folder(&rt, rt.alloc(), "reasons"));
    // What the system says has its number (errno(3), Linux: not a directory).
    let number = number_of_refusal(&rt, &mut folder(&rt, rt.alloc(), "reasons/h/c/d"));
    assert!(rt; number == Some(20));
}

// Whether what another run has in a folder stays while it holds its lock.
fn spares_others(rt: &(impl Abort + Files), folder: &mut impl Folder) -> bool {
    folder.put("h/x", b"1").is_ok() && !is_absent(rt, "shared/.wgetr%part0/part")
}

// Whether it is removed once nobody does.
fn removes_left(rt: &(impl Abort + Files), folder: &mut impl Folder) -> bool {
    folder.put("h/y", b"2").is_ok() && is_absent(rt, "shared/.wgetr%part0")
}

#[test]
fn a_run_spares_what_another_holds(rt: HostRuntime) {
    fs::create_dir_all(&rt, "shared/.wgetr%part0").expect(&rt, "the disk");
    write(&rt, "shared/.wgetr%part0/lock", "");
    write(&rt, "shared/.wgetr%part0/part", "of another run");
    let lock = fs::File::open(&rt, "shared/.wgetr%part0/lock").expect(&rt, "the disk");
    let mut folder = folder(&rt, rt.alloc(), "shared");
    assert!(rt; lock.hold().expect(&rt, "the disk"));
    assert!(rt; spares_others(&rt, &mut folder));
    drop(lock);
    assert!(rt; removes_left(&rt, &mut folder));
    drop(folder);
}
