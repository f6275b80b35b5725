// The code of a fault, from table 0357 of HL7. It goes by the fault's kind; what is not in its list has codes of its
// own in two fields of MSH.
ghost use Rattle.std.specs.Prelude.{◌≡◌};
ghost use Rattle.alphabet.specs.Answers.{number_of};
ghost use Rattle.error_segment.specs.Errors.{error_code};

use alphabet::Refusal;

// The code of what is not in its list; MSH-11 and MSH-12 have codes of their own.
#[tactic(auto, unfolding(crate::specs::Errors::error_code))]
fn unlisted_code(place: usize, field: usize) -> usize
    ensures { result ≡ error_code 33 place field }
{
    if (place == 0) & (field == 11) {
        return 202;
    }
    if (place == 0) & (field == 12) {
        return 203;
    }
    103
}

// The code by the kind, and by the place and field of what is not in its list.
#[tactic(auto, using(crate::proofs::KindLaws::code_else), unfolding(crate::specs::Errors::error_code))]
pub fn error_code(kind: Refusal, place: usize, field: usize) -> usize
    ensures { result ≡ error_code (number_of kind) place field }
{
    match kind {
        Refusal::SegmentMisplaced | Refusal::EndedEarly => 100,
        Refusal::RequiredMissing | Refusal::RequiredNull | Refusal::ValueWithoutType => 101,
        Refusal::BreaksForm | Refusal::Repeated | Refusal::ValueTooLong => 102,
        Refusal::NotListed => unlisted_code(place, field),
        Refusal::NoStructure => 200,
        _ => 207,
    }
}
