// The judges: structure alone, and the verdict over reading, structure and fields; and the names that could have stood
// where a segment could not, one by one. The C interface has no Result and no Option: what is accepted is the number 0,
// and no name is 0.
ghost use Rattle.std.specs.Prelude.{◌≡◌};
ghost use Rattle.boundary.specs.Seen.{structure_seen, verdict_seen, StructureSeen, VerdictSeen, NameSeen};

use fault::FaultRecord;

// A number of the table; the place; whether the message could have ended there; and how many names could have stood
// there.
#[repr(C)]
#[derive(Clone, Copy)]
pub struct CStructure {
    pub number: u32,
    pub could_end: bool,
    pub place: usize,
    pub names: usize,
}

// The same with the field and the repetition of a field's fault.
#[repr(C)]
#[derive(Clone, Copy)]
pub struct CVerdict {
    pub number: u32,
    pub could_end: bool,
    pub place: usize,
    pub field: usize,
    pub repetition: usize,
    pub names: usize,
}

// What the structure judge says, as C sees it.
impl From<Result<(), FaultRecord>> for CStructure {
    ghost from_gives = { λ judgement r. r ≡ structure_seen judgement };

    fn from(judgement: Result<(), FaultRecord>) -> CStructure {
        match judgement {
            Ok(()) => CStructure {
                number: 0,
                could_end: false,
                place: 0,
                names: 0,
            },
            Err(fault) => CStructure {
                number: u32::from(u8::from(fault.kind)),
                could_end: fault.could_end,
                place: fault.place,
                names: fault.names.count,
            },
        }
    }
}

// The verdict, as C sees it.
impl From<Result<(), FaultRecord>> for CVerdict {
    ghost from_gives = { λ verdict r. r ≡ verdict_seen verdict };

    fn from(verdict: Result<(), FaultRecord>) -> CVerdict {
        match verdict {
            Ok(()) => CVerdict {
                number: 0,
                could_end: false,
                place: 0,
                field: 0,
                repetition: 0,
                names: 0,
            },
            Err(fault) => CVerdict {
                number: u32::from(u8::from(fault.kind)),
                could_end: fault.could_end,
                place: fault.place,
                field: fault.field,
                repetition: fault.repetition,
                names: fault.names.count,
            },
        }
    }
}

// Judges the structure of a message.
#[unsafe(no_mangle)]
pub extern "C" fn turrethog_structure(message: &[u8]) -> CStructure
    ensures { StructureSeen message.now result }
{
    CStructure::from(structure::judge_structure(message))
}

// The verdict on a message.
#[unsafe(no_mangle)]
pub extern "C" fn turrethog_verdict(message: &[u8]) -> CVerdict
    ensures { VerdictSeen message.now result }
{
    CVerdict::from(verdict::verdict(message))
}

// One of the names that could have stood, by its number from 0: three bytes, the first highest; 0 past the last.
#[unsafe(no_mangle)]
pub extern "C" fn turrethog_could_stand(message: &[u8], index: usize) -> u32
    ensures { NameSeen message.now index result }
{
    let Err(fault) = structure::judge_structure(message) else {
        return 0;
    };
    fault.names.list.get(index).copied().unwrap_or(0)
}
