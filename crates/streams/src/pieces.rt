//! Texts in pieces: what was made for them, and what is lent and so never copied.
ghost use Rattle.std.specs.Prelude.{◌≡◌, ◌++◌, [], IfOk, OnOk, OnErr};
ghost use Rattle.std.specs.Io.KnownBytes.{Appends};
ghost use Rattle.streams.specs.Streams.{AppendsFront, piece_text};

use crate::output::{WriteFailed, flush, write_part};
use std::alloc::{AllocError, Global};
use std::io::Write;
use std::marker::Model;

/// A piece of a text.
#[derive(Drop)]
enum Piece<'a> {
    Made(Vec<u8>),
    Lent(&'a [u8]),
}

impl<'a> Piece<'a> {
    // Its bytes.
    fn as_slice(&self) -> &[u8]
        ensures { result.now ≡ piece_text self.now }
    {
        match self {
            Piece::Made(bytes) => bytes.as_slice(),
            Piece::Lent(bytes) => bytes,
        }
    }
}

/// A text in pieces, each made for it or lent to it. Contracts see its bytes.
#[derive(Drop)]
pub struct Pieces<'a> {
    pieces: Vec<Piece<'a>>,
}

impl<'a> Model for Pieces<'a> {
    ghost use Rattle.std.specs.Prelude.{ℕ, List, flat_map};
    ghost use Rattle.streams.specs.Streams.{piece_text};

    ghost Value = { List ℕ };

    ghost view = { λ p. flat_map piece_text p.pieces.items };
}

impl<'a> Pieces<'a> {
    /// The empty text. Takes no memory.
    pub fn new(alloc: Global) -> Pieces<'a>
        ensures { result ≡ [] }
    {
        Pieces {
            pieces: Vec::new(alloc),
        }
    }

    /// Adds bytes that were made for the text. Fails only if memory runs out; then nothing was added.
    pub fn push_made(&mut self, bytes: Vec<u8>) -> Result<(), AllocError>
        ensures ok { OnOk result (self.new ≡ self.old ++ bytes.items) }
        ensures err { OnErr result (self.new ≡ self.old) }
    {
        self.pieces.push(Piece::Made(bytes))?;
        Ok(())
    }

    /// Adds bytes that are lent. Fails only if memory runs out; then nothing was added.
    pub fn push_lent(&mut self, bytes: &'a [u8]) -> Result<(), AllocError>
        ensures ok { OnOk result (self.new ≡ self.old ++ bytes.now) }
        ensures err { OnErr result (self.new ≡ self.old) }
    {
        self.pieces.push(Piece::Lent(bytes))?;
        Ok(())
    }

    // How many bytes it has, or the largest number, if they are more.
    fn len(&self) -> usize {
        let mut len: usize = 0;
        for piece in &self.pieces {
            len = len.saturating_add(piece.as_slice().len());
        }
        len
    }

    /// The text as one, which can be written by one call. Fails only if memory runs out.
    pub fn joined(&self, alloc: Global) -> Result<Vec<u8>, AllocError>
        ensures { IfOk result (λ text. text.items ≡ self.now) }
    {
        let mut text = Vec::with_capacity(alloc, self.len())?;
        for piece in &self.pieces {
            text.extend_from_slice(piece.as_slice())?;
        }
        Ok(text)
    }

    /// Writes the text and flushes it. Interrupted calls are counted over all of it; it takes no memory. If the writer fails, a
    /// front of the text may be written.
    pub fn write<W: Write>(&self, writer: &mut W) -> Result<(), WriteFailed>
        ensures ok { OnOk result (Appends (W.contents writer.old) (W.contents writer.new) self.now) }
        ensures err { OnErr result (AppendsFront (W.contents writer.old) (W.contents writer.new) self.now) }
    {
        let mut interrupted = 0;
        for piece in &self.pieces {
            interrupted = write_part(writer, piece.as_slice(), interrupted)?;
        }
        flush(writer)
    }
}
