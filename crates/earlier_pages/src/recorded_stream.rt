//! A response that was received before, as a stream.
ghost use Rattle.std.specs.Prelude.{◌≡◌};
ghost use Rattle.std.specs.Io.KnownBytes.{prepend_known};

use std::io;
use std::io::{Read, Write};
use std::marker::Model;

/// The bytes of a response again: its head, and then its body, which is in a file. What is written to it is dropped.
pub struct RecordedStream<F: Read + Drop> {
    head: Vec<u8>,
    // How many bytes of the head were given.
    given: usize,
    body: F,
}

// Written by hand: a user that drops one proves a call, and nothing about its fields.
impl<F: Read + Drop> Drop for RecordedStream<F> {
    fn drop(self) {
        let RecordedStream {
            head: _head,
            given: _given,
            body: _body,
        } = self;
    }
}

impl<F: Read + Drop> Model for RecordedStream<F> {
    ghost use Rattle.std.specs.Prelude.{◌≤◌, drop, length};
    ghost use Rattle.earlier_pages.specs.Pages.{Recorded};

    ghost Value = { Recorded F };

    ghost view = { λ s. record { rest = drop s.given s.head.items; body = s.body } };

    ghost invariant = { λ s. s.given ≤ length s.head.items };
}

impl<F: Read + Drop> RecordedStream<F> {
    // This head, and then this body.
    pub(crate) fn new(head: Vec<u8>, body: F) -> RecordedStream<F>
        ensures rest { result.rest ≡ head.items }
        ensures body { result.body ≡ body }
    {
        RecordedStream {
            head,
            given: 0,
            body,
        }
    }
}

impl<F: Read + Drop> Read for RecordedStream<F> {
    ghost remaining = { λ s. prepend_known s.rest (F.remaining s.body) };

    fn read(&mut self, buf: &mut [u8]) -> io::Result<usize> {
        let rest = &self.head[self.given..];
        if rest.is_empty() {
            return self.body.read(buf);
        }
        let count = rest.len().min(buf.len());
        buf[..count].copy_from_slice(&rest[..count]);
        self.given += count;
        Ok(count)
    }
}

impl<F: Read + Drop> Write for RecordedStream<F> {
    fn write(&mut self, bytes: &[u8]) -> io::Result<usize> {
        Ok(bytes.len())
    }

    fn flush(&mut self) -> io::Result<()> {
        Ok(())
    }
}
