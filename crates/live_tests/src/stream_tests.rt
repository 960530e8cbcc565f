//! Readers and writers that are interrupted, or fail at one of their calls and would work afterwards.
use std::alloc::Global;
use std::io;
use std::io::{Error, ErrorKind, Read, Write};
use std::process::Abort;
use streams::{Pieces, ReadInputFault, read_input, write_text};

/// What befalls the calls of a stream.
#[derive(Clone, Copy, Debug)]
enum Trouble {
    /// Each is interrupted before it is answered, until so many were.
    Interrupts(u32),
    /// The one of this number, counted from 0, fails.
    Fails(u32),
    /// The one of this number takes nothing, or is interrupted if it is a flush.
    TakesNothing(u32),
}

/// Counts a call, and says what befalls it: an error, or that nothing is taken.
fn befall(calls: &mut u32, trouble: Trouble) -> io::Result<bool> {
    let number = *calls;
    *calls = number.wrapping_add(1);
    match trouble {
        Trouble::Interrupts(most) if number % 2 == 0 && number / 2 < most => {
            Err(Error::from(ErrorKind::Interrupted))
        }
        Trouble::Fails(call) if number == call => Err(Error::from(ErrorKind::Other)),
        Trouble::TakesNothing(call) => Ok(number == call),
        _ => Ok(false),
    }
}

/// A reader that gives one byte at a time.
#[derive(Drop)]
struct Slow<'a> {
    rest: &'a [u8],
    trouble: Trouble,
    calls: u32,
}

impl Read for Slow<'_> {
    fn read(&mut self, room: &mut [u8]) -> io::Result<usize> {
        befall(&mut self.calls, self.trouble)?;
        let ([first, ..], [byte, rest @ ..]) = (room, self.rest) else {
            return Ok(0);
        };
        *first = *byte;
        self.rest = rest;
        Ok(1)
    }
}

/// A writer that takes so many bytes at a time.
#[derive(Drop)]
struct Narrow {
    held: Vec<u8>,
    piece: usize,
    trouble: Trouble,
    calls: u32,
}

impl Write for Narrow {
    fn write(&mut self, text: &[u8]) -> io::Result<usize> {
        if befall(&mut self.calls, self.trouble)? {
            return Ok(0);
        }
        let taken = text.len().min(self.piece);
        self.held.extend_from_slice(&text[..taken])?;
        Ok(taken)
    }

    fn flush(&mut self) -> io::Result<()> {
        if befall(&mut self.calls, self.trouble)? {
            return Err(Error::from(ErrorKind::Interrupted));
        }
        Ok(())
    }
}

/// A front and so many letters.
fn lengthened(rt: &impl Abort, alloc: Global, front: &str, letters: u32) -> String {
    let mut text = String::from_str(alloc, front).expect(rt, "memory");
    for _ in 0..letters {
        text.push('a').expect(rt, "memory");
    }
    text
}

/// Whether an input is read whole, or isn't read as its reader failed, and the reader is read so often.
fn bears(alloc: Global, input: &str, trouble: Trouble, is_read: bool, calls: u32) -> bool {
    let mut reader = Slow {
        rest: input.as_bytes(),
        trouble,
        calls: 0,
    };
    let is_so = match read_input(alloc, &mut reader, 10_000) {
        Ok(read) => is_read && read.as_slice() == input.as_bytes(),
        Err(fault) => !is_read && fault == ReadInputFault::Failed,
    };
    is_so && reader.calls == calls
}

#[test]
fn interrupted_reads_are_counted_over_the_whole_input(rt: HostRuntime) {
    let alloc = rt.alloc();
    let input = lengthened(&rt, alloc, "# ", 1_200);
    for (interrupted, is_read, calls) in [(999, true, 2_202), (1000, false, 1_999)] {
        let trouble = Trouble::Interrupts(interrupted);
        assert!(rt; bears(alloc, input.as_str(), trouble, is_read, calls));
    }
}

#[test]
fn a_reader_that_failed_is_not_read_again(rt: HostRuntime) {
    for call in 0..20u32 {
        let trouble = Trouble::Fails(call);
        assert!(rt;
            bears(rt.alloc(), "page 200 http://h/\n", trouble, false, call + 1),
            "{call}"
        );
    }
}

/// A writer to which this befalls.
fn writer_with(alloc: Global, piece: usize, trouble: Trouble) -> Narrow {
    Narrow {
        held: Vec::new(alloc),
        piece,
        trouble,
        calls: 0,
    }
}

/// Whether a text is written in two pieces.
fn writes_pieces(rt: &impl Abort, alloc: Global, text: &[u8], writer: &mut Narrow) -> bool {
    let (front, rest) = text.split_at(text.len() / 2);
    let mut pieces = Pieces::new(alloc);
    pieces.push_lent(front).expect(rt, "memory");
    pieces.push_lent(rest).expect(rt, "memory");
    pieces.write(writer).is_ok()
}

/// Whether a text is written over such writers, of a byte at a time, or isn't: whole, and in two pieces.
fn takes(rt: &impl Abort, alloc: Global, text: &[u8], trouble: Trouble, is_taken: bool) -> bool {
    let mut whole = writer_with(alloc, 1, trouble);
    let mut parted = writer_with(alloc, 1, trouble);
    write_text(&mut whole, text).is_ok() == is_taken
        && writes_pieces(rt, alloc, text, &mut parted) == is_taken
}

// The text takes 1,245 writes and a flush.
#[test]
fn a_writer_that_is_interrupted_too_often_or_takes_nothing_fails(rt: HostRuntime) {
    let text = lengthened(&rt, rt.alloc(), "", 1_245);
    for (trouble, is_taken) in [
        (Trouble::Interrupts(999), true),
        (Trouble::Interrupts(1000), false),
        (Trouble::TakesNothing(0), false),
        (Trouble::TakesNothing(1_244), false),
        (Trouble::TakesNothing(1_245), false),
        (Trouble::TakesNothing(1_246), true),
    ] {
        assert!(rt;
            takes(&rt, rt.alloc(), text.as_bytes(), trouble, is_taken),
            "{trouble:?}"
        );
    }
}

/// Whether the writer has this text, and it was written; or, if its call failed, it has a front, and that call was the last.
fn has_front(writer: &Narrow, call: u32, text: &[u8], is_written: bool) -> bool {
    if writer.calls <= call {
        return is_written && writer.held.as_slice() == text;
    }
    !is_written && text.starts_with(&writer.held) && writer.calls == call + 1
}

/// Whether a text is written over such writers, of ten bytes at a time, as far as it is to be: whole, and in two pieces.
fn stops(rt: &impl Abort, alloc: Global, text: &[u8], call: u32, trouble: Trouble) -> bool {
    let mut whole = writer_with(alloc, 10, trouble);
    let mut parted = writer_with(alloc, 10, trouble);
    let is_written = write_text(&mut whole, text).is_ok();
    let are_written = writes_pieces(rt, alloc, text, &mut parted);
    has_front(&whole, call, text, is_written) && has_front(&parted, call, text, are_written)
}

// The text takes six writes and a flush.
#[test]
fn a_writer_that_failed_holds_a_front_and_is_not_written_again(rt: HostRuntime) {
    let text = b"0 404 http://h/ -\nfetched 1 kept 0 refused 0 failed 1\n";
    for call in 0..9u32 {
        for trouble in [Trouble::Fails(call), Trouble::TakesNothing(call)] {
            assert!(rt; stops(&rt, rt.alloc(), text, call, trouble), "{trouble:?}");
        }
    }
}

#[test]
fn an_input_above_its_limit_is_long(rt: HostRuntime) {
    let long = read_input(rt.alloc(), &mut b"abc".as_slice(), 2);
    assert!(rt; long.err() == Some(ReadInputFault::Long));
    let input = read_input(rt.alloc(), &mut b"abc".as_slice(), 3).expect(&rt, "the input");
    assert!(rt; input.as_slice() == b"abc".as_slice());
}
