// The fault record that all judges share: what is wrong with a message, and where. A judge gives `Ok`, or the first
// fault; the structure judge and the field judge build it alike, and the verdict hands on the first.
#![tactic(auto)]

ghost use Rattle.std.specs.Prelude.{◌≡◌, ℕ, ◌<◌, List, [], ◌∷◌, ◌++◌, take};
ghost use Rattle.fault.specs.Faults.{name_list, plain, at_field};

use alphabet::{Fault, Refusal};

// The most names that a fault lists.
const MOST: usize = 64;

// Names, the first `count` of the list; zeros stand behind them. The library has no heap, so the room is fixed.
#[derive(Clone, Copy)]
pub struct Names {
    pub list: [u32; MOST],
    pub count: usize,
}

impl Names {
    // No names.
    pub fn none() -> Names
        ensures { result ≡ name_list [] }
    {
        Names {
            list: [0; MOST],
            count: 0,
        }
    }

    // Takes one name more.
    pub fn push(&mut self, name: u32)
        requires { self.old.count < 64 }
        ensures { (l : List ℕ) → self.old ≡ name_list l → self.new ≡ name_list (l ++ name ∷ []) }
    {
        self.list[self.count] = name;
        self.count += 1;
    }

    // The names, one behind another.
    pub fn as_slice(&self) -> &[u32]
        ensures { result.now ≡ take self.now.count self.now.list }
    {
        &self.list[..self.count.min(MOST)]
    }
}

// The first fault. The place is a byte's offset for a reading fault and a segment's number for the others; field and
// repetition are those of a field's fault. For a segment that cannot stand where it stands and for a message that ended
// early: whether it could have ended there, and the names that could have stood there. What a fault does not use is 0,
// no and no names.
// It stays one struct, and no enum with a variant for each judge: the code of an acknowledgement (`rejects`), its ERR
// segment (`error_parts`) and C's structs ask number, place and field of every fault, whichever judge gave it, and
// would put them together again.
#[derive(Clone, Copy)]
pub struct FaultRecord {
    pub kind: Refusal,
    pub place: usize,
    pub field: usize,
    pub repetition: usize,
    pub could_end: bool,
    pub names: Names,
}

// A fault that has a place and no field.
impl From<Fault> for FaultRecord {
    ghost from_gives = { λ fault r. r ≡ plain fault.kind fault.place };

    fn from(fault: Fault) -> FaultRecord {
        FaultRecord {
            kind: fault.kind,
            place: fault.place,
            field: 0,
            repetition: 0,
            could_end: false,
            names: Names::none(),
        }
    }
}

// A fault in a field of a segment, and in which of the field's repetitions.
#[derive(Clone, Copy)]
pub struct FieldFault {
    pub kind: Refusal,
    pub segment: usize,
    pub field: usize,
    pub repetition: usize,
}

// It lists nothing.
impl From<FieldFault> for FaultRecord {
    ghost from_gives = { λ fault r. r ≡ at_field fault.kind fault.segment fault.field fault.repetition };

    fn from(fault: FieldFault) -> FaultRecord {
        FaultRecord {
            kind: fault.kind,
            place: fault.segment,
            field: fault.field,
            repetition: fault.repetition,
            could_end: false,
            names: Names::none(),
        }
    }
}
