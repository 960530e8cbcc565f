//! Faults of responses that weren't read, as answers name them (RFC 9112, section 8).
ghost use Rattle.std.specs.Prelude.{◌≡◌};
ghost use Rattle.response_answer.specs.KindsOfFaults.{kind_of_fault};

use fetcher::FaultKind;
use response_reader::ReadFault;

/// The fault of an address for which no response was read, for this reason. Memory that ran out is
/// none. Takes no memory.
pub fn kind_of_fault(fault: ReadFault) -> Option<FaultKind>
    ensures { result ≡ kind_of_fault fault }
{
    FaultKind::of_word(fault.word())
}
