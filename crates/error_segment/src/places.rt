// What a fault has of the parts of ERR-1: whether there is a segment to be named, the name, and the position of the
// field. Which segment it is, and its sequence, is told in `locating`.
ghost use Rattle.std.specs.Prelude.{◌≡◌, ◌≤◌, List, ℕ, take};
ghost use Rattle.alphabet.specs.Answers.{number_of};
ghost use Rattle.error_segment.specs.Errors.{field_position, nowhere};
ghost use Rattle.error_segment.specs.Pieces.{said, StandsAt};

use crate::numerals::{Numeral, no_numeral, numeral_of};
use alphabet::{Part, Refusal};

// The first three bytes of a segment.
fn name_in(segment: &[u8]) -> &[u8]
    ensures { result.now ≡ take 3 segment.now }
{
    &segment[..segment.len().min(3)]
}

// The name of a segment by where it stands; none where it stands nowhere.
pub fn name_at(message: &[u8], segment: Option<Part>) -> &[u8]
    requires { (bytes : List ℕ) × StandsAt message.now bytes segment }
    ensures { (bytes : List ℕ) → StandsAt message.now bytes segment → result.now ≡ take 3 bytes }
{
    match segment {
        Some(part) => name_in(&message[part.start..part.end]),
        None => &message[..0],
    }
}

// Whether a fault of a kind has no segment: a reading fault, and a message that ended early.
#[tactic(auto, using(crate::proofs::KindLaws::stands_else))]
pub fn points_nowhere(kind: Refusal) -> bool
    ensures { result ≡ nowhere (number_of kind) }
{
    match kind {
        Refusal::Length
        | Refusal::Header
        | Refusal::Delimiter
        | Refusal::NotAllowed
        | Refusal::NotEnded
        | Refusal::SegmentName
        | Refusal::SecondHeader
        | Refusal::TooManySegments => true,
        Refusal::EndedEarly => true,
        _ => false,
    }
}

// The position of the field at fault. Of a type without a structure it is that of the type; a segment that cannot stand
// where it stands has none.
#[tactic(auto, using(crate::proofs::KindLaws::position_else))]
pub fn field_position(kind: Refusal, field: usize) -> Numeral
    ensures { (result.start ≤ 20) × (said result ≡ field_position (number_of kind) field) }
{
    match kind {
        Refusal::SegmentMisplaced => no_numeral(),
        Refusal::NoStructure => numeral_of(9),
        _ => numeral_of(field),
    }
}
