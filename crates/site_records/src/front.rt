//! The whole entries at the front of a record that was cut at any byte, for example because its writer was stopped.
ghost use Rattle.std.specs.Prelude.{◌≡◌, IfErr, IfOk};
ghost use Rattle.site_records.specs.Fronts.{IsFrontRead, IsFrontFault};
ghost use Rattle.site_records.specs.Records.{HasVersion};

use crate::reading::RecordReading;
use crate::recorded_site::RecordedSite;
use crate::torn::is_torn;
use crate::version::{SECOND_VERSION_LINE, Version, version_of};
use html_links::LinkRules;
use site_inputs::InputFault;
use std::alloc::Global;

/// What the whole entries at the front of a record state, and how long it is.
#[derive(Drop)]
pub struct RecordFront {
    /// The site that they are read as.
    pub site: RecordedSite,
    /// How many bytes they have, with the first line. What follows these is no whole entry.
    pub len: usize,
}

/// Reads a record that may be cut at any byte, such as the journal of a program that was stopped: its whole entries as
/// `RecordedSite::read` does, while a last one within which the bytes end, by what its lines count, is left. Of bytes that end
/// within the first line of version 2 there is nothing. The error names the first line that is bad otherwise, or says that memory
/// ran out.
pub fn read_front(alloc: Global, bytes: &[u8], links: LinkRules) -> Result<RecordFront, InputFault>
    ensures front { IfOk result (λ f. IsFrontRead links bytes.now f.site f.len) }
    ensures fault { IfErr result (λ f. IsFrontFault links bytes.now f) }
{
    let Some((version, mut rest)) = version_of(bytes) else {
        return torn_first(alloc, bytes, links);
    };
    let mut reading = RecordReading::new(alloc, links, version, false);
    let mut number = 1;
    'entries: while !is_torn(reading.version, rest) {
        match reading.read_entry(rest) {
            Ok(taken) => {
                number += taken.lines;
                rest = taken.after;
            }
            Err(fault) => {
                let line = number + 1;
                return Err(fault.at(line));
            }
        }
    }
    let len = bytes.len() - rest.len();
    let site = RecordedSite::of(reading)?;
    Ok(RecordFront { site, len })
}

// The front of bytes that begin with the first line of no version.
fn torn_first(alloc: Global, bytes: &[u8], links: LinkRules) -> Result<RecordFront, InputFault>
    requires { ¬ HasVersion bytes.now }
    ensures front { IfOk result (λ f. IsFrontRead links bytes.now f.site f.len) }
    ensures fault { IfErr result (λ f. IsFrontFault links bytes.now f) }
{
    let Some(_) = SECOND_VERSION_LINE.strip_prefix(bytes) else {
        return Err(InputFault::Line(1));
    };
    let nothing = RecordReading::new(alloc, links, Version::Second, false);
    let site = RecordedSite::of(nothing)?;
    Ok(RecordFront { site, len: 0 })
}
