//! A record that is written, of version 2.
ghost use Rattle.std.specs.Prelude.{◌≡◌, ◌++◌, ◌∷◌, [], List, not, IfOk, OnOk, Err};
ghost use Rattle.html_links.specs.declared.rules.LinkRules.{LinkRules};
ghost use Rattle.std.specs.Io.KnownBytes.{Appends};
ghost use Rattle.streams.specs.Streams.{AppendsFront};
ghost use Rattle.answer_notes.specs.declared.noted.Noted.{Noted};
ghost use Rattle.site_records.specs.Entries.{Entry};
ghost use Rattle.site_records.specs.Records.{IsRecord};
ghost use Rattle.site_records.specs.WrittenRecords.{is_repeated, written_notes, record_text, record_entries, all_noted};
ghost use Rattle.site_records.specs.Fronts.{IsReadCut};
ghost use Rattle.site_records.specs.inner.RecordDrafts.{AreDraftsNamed, IsDraft};

use crate::note_entry::push_note;
use crate::record_fault::RecordFault;
use crate::version::SECOND_VERSION_LINE;
use answer_notes::Noted;
use indexmap::IndexSet;
use std::alloc::{AllocError, Global};
use std::io::Write;
use streams::Pieces;

/// The addresses and the origins of the notes so far.
#[derive(Drop)]
struct SeenNames<'a> {
    addresses: IndexSet<&'a str>,
    origins: IndexSet<&'a str>,
}

impl<'a> SeenNames<'a> {
    // Those of no notes. Takes no memory.
    fn new(alloc: Global) -> SeenNames<'a>
        ensures { AreDraftsNamed result [] }
    {
        SeenNames {
            addresses: IndexSet::new(alloc),
            origins: IndexSet::new(alloc),
        }
    }

    // Adds that of one more note, and returns whether none of the notes so far has it. Fails only if memory runs out.
    fn add(&mut self, note: &'a Noted) -> Result<bool, AllocError>
        ensures { IfOk result (λ is_new. (notes : List Noted) → AreDraftsNamed self.old notes
            → AreDraftsNamed self.new (notes ++ note.now ∷ []) × (is_new ≡ not (is_repeated notes note.now))) }
    {
        match note {
            Noted::Page(at, _) => Ok(self.addresses.insert(at.as_str())?),
            Noted::Chain(chain) => Ok(self.origins.insert(chain.of().as_str())?),
        }
    }
}

// Adds one more note, unless one before it is of the same address or origin. Fails only if memory runs out.
fn add_note<'a>(
    alloc: Global,
    text: &mut Pieces<'a>,
    named: &mut SeenNames<'a>,
    note: &'a Noted,
) -> Result<(), AllocError>
    ensures { OnOk result ((notes : List Noted) → IsDraft text.old named.old notes → IsDraft text.new named.new (notes ++ note.now ∷ [])) }
{
    if named.add(note)? {
        push_note(alloc, text, note)?;
    }
    Ok(())
}

// Adds more notes. Fails only if memory runs out.
fn add_notes<'a>(
    alloc: Global,
    text: &mut Pieces<'a>,
    named: &mut SeenNames<'a>,
    more: &'a [Noted],
) -> Result<(), AllocError>
    ensures { OnOk result ((notes : List Noted) → IsDraft text.old named.old notes → IsDraft text.new named.new (notes ++ more.now)) }
{
    for note in more {
        add_note(alloc, text, named, note)?;
    }
    Ok(())
}

// Adds the notes of each part. Fails only if memory runs out.
fn add_parts<'a>(
    alloc: Global,
    text: &mut Pieces<'a>,
    named: &mut SeenNames<'a>,
    parts: &[&'a [Noted]],
) -> Result<(), AllocError>
    ensures { OnOk result (IsDraft text.old named.old [] → IsDraft text.new named.new (all_noted parts.now)) }
{
    for part in parts {
        add_notes(alloc, text, named, part)?;
    }
    Ok(())
}

// Adds the first line of a record, and these notes. Fails only if memory runs out.
fn add_record<'a>(
    alloc: Global,
    text: &mut Pieces<'a>,
    notes: &[&'a [Noted]],
) -> Result<(), AllocError>
    ensures { OnOk result (text.old ≡ [] → (named : SeenNames) × IsDraft text.new named (all_noted notes.now)) }
{
    text.push_lent(SECOND_VERSION_LINE)?;
    add_parts(alloc, text, &mut SeenNames::new(alloc), notes)
}

// The text of the record of these notes. Fails only if memory runs out.
fn text_of<'a>(alloc: Global, notes: &[&'a [Noted]]) -> Result<Pieces<'a>, AllocError>
    ensures { IfOk result (λ text. (named : SeenNames) × IsDraft text named (all_noted notes.now)) }
{
    let mut text = Pieces::new(alloc);
    add_record(alloc, &mut text, notes)?;
    Ok(text)
}

/// Writes a record of version 2, and flushes it: the notes of all parts in their order. Of several notes of one address, or of one
/// origin, the first counts; it is left out if a head of it is written with more than 65,536 bytes and so couldn't be read again.
/// Bodies are not copied. Memory is needed only before the first byte is written; if the writer fails, a front of the record may
/// be written.
pub fn write_record<W: Write>(
    alloc: Global,
    writer: &mut W,
    notes: &[&[Noted]],
) -> Result<(), RecordFault>
    ensures written { OnOk result (Appends (W.contents writer.old) (W.contents writer.new) (record_text (all_noted notes.now))) }
    ensures device { result ≡ Err RecordFault.Device → AppendsFront (W.contents writer.old) (W.contents writer.new) (record_text (all_noted notes.now)) }
    ensures memory { result ≡ Err RecordFault.Memory → writer.new ≡ writer.old }

    // It is read again, with or without robots rules, as exactly what the notes say.
    ensures reads { OnOk result ((links : LinkRules) → IsRecord links (record_text (all_noted notes.now)) (record_entries links (all_noted notes.now))) }
    // And as nothing else.
    ensures one { OnOk result ((links : LinkRules) (said : List Entry) → IsRecord links (record_text (all_noted notes.now)) said → said ≡ record_entries links (all_noted notes.now)) }
    // Cut anywhere after its first line, it is the entries of the first of these notes, and a front of the next one's.
    ensures cut { OnOk result ((links : LinkRules) → IsReadCut links (written_notes (all_noted notes.now))) }
{
    let text = text_of(alloc, notes)?;
    text.write(writer)?;
    Ok(())
}
