// The judges: structure alone, and the verdict over reading, structure and fields; and the names that could have stood
// where a segment could not, one by one.
ghost use Rattle.boundary.specs.Seen.{StructureSeen, VerdictSeen, NameSeen};

use boundary::{CStructure, CVerdict};

// Judges the structure of a message.
#[unsafe(no_mangle)]
pub extern "C" fn turrethog_structure(message: &[u8]) -> CStructure
    ensures { StructureSeen message.now result }
{
    boundary::turrethog_structure(message)
}

// The verdict on a message.
#[unsafe(no_mangle)]
pub extern "C" fn turrethog_verdict(message: &[u8]) -> CVerdict
    ensures { VerdictSeen message.now result }
{
    boundary::turrethog_verdict(message)
}

// One of the names that could have stood, by its number from 0: three bytes, the first highest; 0 past the last.
#[unsafe(no_mangle)]
pub extern "C" fn turrethog_could_stand(message: &[u8], index: usize) -> u32
    ensures { NameSeen message.now index result }
{
    boundary::turrethog_could_stand(message, index)
}
