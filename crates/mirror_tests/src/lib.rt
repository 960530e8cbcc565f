//! Indexes of mirrors that are written, damaged and read.
#![tactic(auto)]

#[cfg(test)]
mod tests {
    use address::{Address, AddressFault};
    use mirror_index::{
        Entry, IndexFault, KeptHead, Mark, MirrorIndex, digest_of, read_index, write_index,
    };
    use std::alloc::{AllocError, Global};
    use std::test::Fail;

    const WANTED: &[u8] =
        b"wgetr-index 1\nhttp://h/a h/a\\sb 2 6a50dc8584134c7de537c0052ff6d236bf874355e050c90523e0c5ff2a543a28 200 =text/html;\\sa=\"\xff\" =W/\"a\\s\\\\n\\sb\" =Sun,\\s06\\sNov\\s1994\\s08:49:37\\sGMT 75aa9fbc87dac5db\nhttp://h/b h/b.html 2 @1732959000123456789 404 - - - 0453a6aaaedaaa9c\nend 2\n";

    // The address of a page.
    fn page(alloc: Global, path: &str) -> Result<Address, AllocError> {
        match Address::read(alloc, "http://h/") {
            Ok(base) => match base.join(path) {
                Ok(address) => Ok(address),
                Err(_) => Err(AllocError),
            },
            Err(_) => Err(AllocError),
        }
    }

    // An entry of a page whose file holds its path.
    fn entry(
        alloc: Global,
        path: &str,
        name: &str,
        mark: Mark,
        head: KeptHead,
    ) -> Result<Entry, AllocError> {
        let name = String::from_str(alloc, name)?;
        Ok(Entry::new(page(alloc, path)?, name, path.len() as u64, mark, head))
    }

    // What was said: a weak tag with a space, and a type that isn't text.
    fn head(alloc: Global) -> Result<KeptHead, AllocError> {
        let content_type = b"text/html; a=\"\xff\"".to_vec(alloc)?;
        let etag = b"W/\"a \\n b\"".to_vec(alloc)?;
        let date = b"Sun, 06 Nov 1994 08:49:37 GMT".to_vec(alloc)?;
        Ok(KeptHead::new(200, Some(content_type), Some(etag), Some(date)))
    }

    // An index of two pages: of the first's file the digest is known, of the second's when it was changed.
    fn sample(alloc: Global) -> Result<MirrorIndex, AllocError> {
        let mut index = MirrorIndex::new(alloc);
        let digest = Mark::Digest(digest_of(b"/a"));
        let first = entry(alloc, "/a", "h/a b", digest, head(alloc)?)?;
        let second = entry(
            alloc,
            "/b",
            "h/b.html",
            Mark::Changed(1_732_959_000_123_456_789),
            KeptHead::new(404, None, None, None),
        )?;
        index.add(alloc, first)?;
        index.add(alloc, second)?;
        Ok(index)
    }

    // Its text.
    fn text(alloc: Global) -> Result<Vec<u8>, AllocError> {
        let mut text = Vec::new(alloc);
        match write_index(alloc, &mut text, &sample(alloc)?) {
            Ok(()) => Ok(text),
            Err(_) => Err(AllocError),
        }
    }

    // How many bytes may be another, without the text being refused.
    fn missed(alloc: Global) -> Result<usize, AllocError> {
        let mut text = text(alloc)?;
        let mut missed = 0usize;
        for at in 0..text.len() {
            let byte = text[at];
            text[at] = byte ^ 1;
            if read_index(alloc, text.as_slice()).is_ok() {
                missed = missed.saturating_add(1);
            }
            text[at] = byte;
        }
        Ok(missed)
    }

    // How many fronts are read.
    fn fronts(alloc: Global) -> Result<usize, AllocError> {
        let text = text(alloc)?;
        let mut read = 0usize;
        for len in 0..text.len() {
            if read_index(alloc, &text[..len]).is_ok() {
                read = read.saturating_add(1);
            }
        }
        Ok(read)
    }

    // The fault of a text.
    fn fault(alloc: Global, text: &[u8]) -> Option<IndexFault> {
        read_index(alloc, text).err()
    }

    #[test]
    fn any_other_byte_is_seen(rt: HostRuntime) -> Result<(), Fail> {
        assert_eq!(rt; missed(rt.alloc()), Ok(0));
        Ok(())
    }

    #[test]
    fn no_front_is_an_index(rt: HostRuntime) -> Result<(), Fail> {
        assert_eq!(rt; fronts(rt.alloc()), Ok(0));
        Ok(())
    }

    #[test]
    fn the_text_is_as_told(rt: HostRuntime) -> Result<(), Fail> {
        let text = text(rt.alloc())?;
        let wanted = WANTED;
        assert_eq!(rt; text.as_slice(), wanted);
        Ok(())
    }

    #[test]
    fn another_version_is_told(rt: HostRuntime) -> Result<(), Fail> {
        assert_eq!(rt;
            fault(rt.alloc(), b"wgetr-index 2\nend 0\n"),
            Some(IndexFault::Version)
        );
        assert_eq!(rt;
            fault(rt.alloc(), b"wgetr-index 1\nend 1\n"),
            Some(IndexFault::Line(2))
        );
        assert_eq!(rt; fault(rt.alloc(), b"wgetr-index 1\nend 0\n"), None);
        Ok(())
    }
}
