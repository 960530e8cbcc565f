//! Runs of a store, and of a journal, that are stopped at each moment.
#![tactic(auto)]

#[cfg(test)]
mod tests {
    use disk_folder::{Disk, DiskError};
    use memory_disk::MemoryDisk;
    use run_journal::Journal;
    use run_store::{Index, add, begin, finish, name, recover};
    use std::alloc::Global;
    use std::test::Fail;

    const WHOLE: &str = "one\ntwo\nthree\nfour\n";

    // A run that adds four entries, and gives a body a name. Nothing of it fails.
    fn run(alloc: Global) -> Result<MemoryDisk, DiskError> {
        let mut disk = MemoryDisk::new(alloc);
        recover(&mut disk, alloc, "index", "spare")?;
        begin(&mut disk, "part")?;
        add(&mut disk, b"<html>")?;
        add(&mut disk, b"</html>")?;
        finish(&mut disk)?;
        name(&mut disk, "part", "page")?;
        disk.reopen("index")?;
        let mut index = Index::new(disk, String::from_str(alloc, "index")?);
        index.append(alloc, b"one")?;
        index.append(alloc, b"two")?;
        index.sync()?;
        index.append(alloc, b"three")?;
        index.append(alloc, b"four")?;
        Ok(index.into_disk())
    }

    // What is recovered of it so many moments before its end.
    fn recovered(alloc: Global, ago: usize) -> Result<Vec<u8>, DiskError> {
        let mut disk = run(alloc)?;
        disk.go_back(ago);
        recover(&mut disk, alloc, "index", "spare")
    }

    // Whether it is a front then, and the page isn't there or is whole.
    fn holds(alloc: Global, disk: &MemoryDisk, ago: usize) -> Result<bool, DiskError> {
        if ago > disk.moments() {
            return Ok(false);
        }
        let lines = recovered(alloc, ago)?;
        let is_front = WHOLE.as_bytes().starts_with(lines.as_slice());
        let is_whole = match disk.stood(ago, "page") {
            Some(body) => body == b"<html></html>".as_slice(),
            None => true,
        };
        Ok(is_front && is_whole)
    }

    // How many moments of a run don't hold, and how many entries the last leaves.
    fn moments(alloc: Global) -> Result<(usize, usize), DiskError> {
        let disk = run(alloc)?;
        let mut bad = 0usize;
        for ago in 0..disk.moments() {
            if !holds(alloc, &disk, ago)? {
                bad = bad.saturating_add(1);
            }
        }
        Ok((bad, recovered(alloc, 0)?.len()))
    }

    const JOURNAL: &str = "first\none\ntwo\n";

    const RENEWED: &str = "first\ntwo\n";

    // A run that adds two lines to a journal, in place of one that was left, and leaves one line of it unless it is whole. Nothing of it
    // fails.
    fn journal(alloc: Global, is_whole: bool) -> Result<MemoryDisk, DiskError> {
        let mut disk = MemoryDisk::new(alloc);
        begin(&mut disk, "journal")?;
        add(&mut disk, b"left\n")?;
        let name = String::from_str(alloc, "journal")?;
        let front = String::from_str(alloc, "first\n")?;
        let mut journal = Journal::new(alloc, name, front.into_bytes(), Some(()));
        journal.add(&mut disk, "part", b"one\n")?;
        journal.add(&mut disk, "part", b"two\n")?;
        journal.end(&mut disk, is_whole)?;
        if !is_whole {
            journal.renew(&mut disk, "part", RENEWED.as_bytes())?;
        }
        Ok(disk)
    }

    // Whether so many moments before its end the journal is the one that was left, or a front of the new one.
    fn is_journal(disk: &MemoryDisk, ago: usize) -> bool {
        if ago > disk.moments() {
            return false;
        }
        match disk.stood(ago, "journal") {
            Some(text) => {
                text == b"left\n".as_slice()
                    || JOURNAL.as_bytes().starts_with(text)
                    || text == RENEWED.as_bytes()
            }
            None => false,
        }
    }

    // How many moments don't hold, how long the journal is at the end, and whether it stays after a whole run.
    fn journals(alloc: Global) -> Result<(usize, usize, bool), DiskError> {
        let disk = journal(alloc, false)?;
        let mut bad = 0usize;
        for ago in 0..disk.moments() {
            if !is_journal(&disk, ago) {
                bad = bad.saturating_add(1);
            }
        }
        let len = match disk.stood(0, "journal") {
            Some(text) => text.len(),
            None => 0,
        };
        let whole = journal(alloc, true)?;
        Ok((bad, len, whole.stood(0, "journal").is_some()))
    }

    #[test]
    fn each_moment_leaves_a_journal(rt: HostRuntime) -> Result<(), Fail> {
        assert_eq!(rt; journals(rt.alloc()), Ok((0, RENEWED.len(), false)));
        Ok(())
    }

    #[test]
    fn each_moment_leaves_a_front(rt: HostRuntime) -> Result<(), Fail> {
        assert_eq!(rt; moments(rt.alloc()), Ok((0, WHOLE.len())));
        Ok(())
    }
}
