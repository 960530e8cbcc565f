//! The lost connections of a run.
ghost use Rattle.std.specs.Prelude.{◌≡◌, ◌++◌, [], OnOk, OnErr, option_map, position, string_bytes};
ghost use Rattle.std.specs.List.{flat_map};
ghost use Rattle.run_failures.specs.Losses.{LosesOne, is_loss_of, loss_line_of, line_for, loss_lines_of, lost, noun_of};

use crate::loss_kind::{KINDS, LossKind};
use address::Address;
use std::alloc::{AllocError, Global};
use std::marker::Model;

/// What was lost of a kind.
#[derive(Drop)]
pub struct Loss {
    /// The kind.
    pub kind: LossKind,
    /// How many connections; at the largest number it stays.
    pub count: u64,
    /// What the first of them was to request.
    pub first: Address,
}

/// How many connections of each kind were lost, and at which address the first of them.
#[derive(Drop)]
pub struct Losses {
    // At most one for each kind.
    each: Vec<Loss>,
}

// Contracts see the losses as a list, in which they find that of a kind.
impl Model for Losses {
    ghost use Rattle.std.specs.Prelude.{List};
    ghost use Rattle.run_failures.specs.declared.losses.Loss.{Loss};

    ghost Value = { List Loss };

    ghost view = { λ losses. losses.each.items };
}

// The place of the loss of this kind.
fn place_of(each: &[Loss], kind: LossKind) -> Option<usize>
    ensures { result ≡ position (is_loss_of kind) each.now }
{
    each.iter().position(|loss| loss.kind.is(kind))
}

// The word for so many connections.
fn noun_of(count: u64) -> &'static str
    ensures { result.now ≡ noun_of count }
{
    if count == 1 {
        "connection"
    } else {
        "connections"
    }
}

// Adds the line of what was lost of a kind.
fn push_line(text: &mut String, kind: LossKind, loss: &Loss) -> Result<(), AllocError>
    ensures ok { OnOk result (string_bytes text.new ≡ string_bytes text.old ++ loss_line_of kind loss.now) }
{
    let count = loss.count;
    let noun = noun_of(count);
    let words = kind.words();
    let first = loss.first.as_str();
    writeln!(text, "{count} {noun} {words}, first {first}")
}

impl Losses {
    /// None. Takes no memory.
    pub fn new(alloc: Global) -> Losses
        ensures { result ≡ [] }
    {
        Losses {
            each: Vec::new(alloc),
        }
    }

    /// One more connection of this kind was lost, at this address. Fails only if memory runs out; then it isn't counted.
    pub fn add(&mut self, kind: LossKind, at: Address) -> Result<(), AllocError>
        ensures ok { OnOk result (LosesOne self.old self.new kind at) }
        ensures err { OnErr result (self.new ≡ self.old) }
    {
        match place_of(self.each.as_slice(), kind) {
            Some(place) => {
                let count = self.each[place].count;
                self.each[place].count = count.saturating_add(1);
            }
            None => self.each.push(Loss {
                kind,
                count: 1,
                first: at,
            })?,
        }
        Ok(())
    }

    /// What was lost of this kind, if any.
    pub fn of(&self, kind: LossKind) -> Option<&Loss>
        ensures { option_map (λ loss. loss.now) result ≡ lost self.now kind }
    {
        self.each.iter().find(|loss| loss.kind.is(kind))
    }

    // Adds the line of a kind, if any was lost.
    fn push_kind(&self, text: &mut String, kind: LossKind) -> Result<(), AllocError>
        ensures ok { OnOk result (string_bytes text.new ≡ string_bytes text.old ++ line_for self.now kind) }
    {
        match self.of(kind) {
            Some(loss) => push_line(text, kind, loss),
            None => Ok(()),
        }
    }

    // Adds a line for each of these kinds of which any was lost.
    fn push_kinds(&self, text: &mut String, kinds: &[LossKind]) -> Result<(), AllocError>
        ensures ok { OnOk result (string_bytes text.new ≡ string_bytes text.old ++ flat_map (line_for self.now) kinds.now) }
    {
        for kind in kinds {
            self.push_kind(text, *kind)?;
        }
        Ok(())
    }

    /// Adds a line for each kind of which any was lost.
    pub(crate) fn push_lines(&self, text: &mut String) -> Result<(), AllocError>
        ensures ok { OnOk result (string_bytes text.new ≡ string_bytes text.old ++ loss_lines_of self.now) }
    {
        self.push_kinds(text, &KINDS)
    }
}
