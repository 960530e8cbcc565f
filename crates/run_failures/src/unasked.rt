//! Servers that sent bytes that nobody had requested.
ghost use Rattle.std.specs.Prelude.{◌≡◌, ◌++◌, [], bytes_eq, IfOk, OnOk, OnErr, string_bytes};
ghost use Rattle.std.specs.List.{flat_map, list_any};
ghost use Rattle.run_failures.specs.Unasked.{unasked_line, with_origin};

use address::Origin;
use std::alloc::{AllocError, Global};
use std::marker::Model;

/// The origins whose servers sent bytes that nobody had requested, each once.
#[derive(Drop)]
pub struct Unasked {
    alloc: Global,
    origins: Vec<Origin>,
}

// Contracts see the origins in the order in which they were added.
impl Model for Unasked {
    ghost use Rattle.std.specs.Prelude.{List};
    ghost use Rattle.address.specs.Address.{OriginText};

    ghost Value = { List OriginText };

    ghost view = { λ u. u.origins.items };
}

// Whether an origin is among these.
fn is_among(origins: &[Origin], of: &Origin) -> bool
    ensures { result ≡ list_any (λ one. bytes_eq one of.now) origins.now }
{
    origins.iter().any(|one| one == of)
}

impl Unasked {
    /// None. Takes no memory; later growth comes from `alloc`.
    pub fn new(alloc: Global) -> Unasked
        ensures { result ≡ [] }
    {
        Unasked {
            alloc,
            origins: Vec::new(alloc),
        }
    }

    /// Whether the origin is one of them.
    pub fn has(&self, of: &Origin) -> bool
        ensures { result ≡ list_any (λ one. bytes_eq one of.now) self.now }
    {
        is_among(self.origins.as_slice(), of)
    }

    /// The origin is one of them from now on. The error is that memory ran out; then it isn't, unless it was.
    pub fn add(&mut self, of: &Origin) -> Result<(), AllocError>
        ensures ok { OnOk result (self.new ≡ with_origin self.old of.now) }
        ensures err { OnErr result (self.new ≡ self.old) }
    {
        if self.has(of) {
            return Ok(());
        }
        let copy = of.try_clone()?;
        self.origins.push(copy)?;
        Ok(())
    }

    /// A line for each of them, for a person.
    pub fn text(&self) -> Result<String, AllocError>
        ensures { IfOk result (λ text. string_bytes text ≡ flat_map unasked_line self.now) }
    {
        let mut text = String::new(self.alloc);
        push_lines(&mut text, self.origins.as_slice())?;
        Ok(text)
    }
}

// Adds the line of an origin.
fn push_line(text: &mut String, of: &Origin) -> Result<(), AllocError>
    ensures ok { OnOk result (string_bytes text.new ≡ string_bytes text.old ++ unasked_line of.now) }
{
    let origin = of.as_str();
    writeln!(
        text,
        "{origin} sent bytes that nobody had requested: no connection to it is used again"
    )
}

// Adds the lines of origins.
fn push_lines(text: &mut String, origins: &[Origin]) -> Result<(), AllocError>
    ensures ok { OnOk result (string_bytes text.new ≡ string_bytes text.old ++ flat_map unasked_line origins.now) }
{
    for of in origins {
        push_line(text, of)?;
    }
    Ok(())
}
