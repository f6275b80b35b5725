// Why something is refused, the fault that says so with its place, and a check that finds one.
ghost use Rattle.std.specs.Prelude.{◌≡◌};
ghost use Rattle.alphabet.specs.Answers.{number_of, fails_if};

// Each case is one number of the table in document 01, and from `StructureName` on of document 02: `u8::from` gives it.
#[derive(Clone, Copy, PartialEq, Eq)]
pub enum Refusal {
    Length,
    Header,
    Delimiter,
    NotAllowed,
    NotEnded,
    SegmentName,
    SecondHeader,
    TooManySegments,
    NotAcknowledgeable,
    AcknowledgementTooLong,
    Separator,
    UnknownEscape,
    UnclosedEscape,
    NoRoom,
    NullText,
    CallersTime,
    CallersId,
    Address,
    NoStructure,
    SegmentMisplaced,
    EndedEarly,
    RequiredMissing,
    BreaksForm,
    NotListed,
    RequiredNull,
    ValueWithoutType,
    Repeated,
    ValueTooLong,
    StructureName,
    BrokenFrame,
    FrameTooLong,
    Layout,
    BookVersion,
    BookMalformed,
    BookHeader,
    WrongCount,
    BrokenBatch,
}

// The paper's number of a refusal. No refusal has 0, which is for the calls that refuse nothing.
impl From<Refusal> for u8 {
    ghost from_gives = { λ kind r. r ≡ number_of kind };

    fn from(kind: Refusal) -> u8 {
        match kind {
            Refusal::Length => 1,
            Refusal::Header => 2,
            Refusal::Delimiter => 3,
            Refusal::NotAllowed => 4,
            Refusal::NotEnded => 5,
            Refusal::SegmentName => 6,
            Refusal::SecondHeader => 7,
            Refusal::TooManySegments => 8,
            Refusal::NotAcknowledgeable => 9,
            Refusal::AcknowledgementTooLong => 10,
            Refusal::Separator => 11,
            Refusal::UnknownEscape => 12,
            Refusal::UnclosedEscape => 13,
            Refusal::NoRoom => 14,
            Refusal::NullText => 15,
            Refusal::CallersTime => 16,
            Refusal::CallersId => 17,
            Refusal::Address => 19,
            Refusal::NoStructure => 20,
            Refusal::SegmentMisplaced => 21,
            Refusal::EndedEarly => 22,
            Refusal::RequiredMissing => 31,
            Refusal::BreaksForm => 32,
            Refusal::NotListed => 33,
            Refusal::RequiredNull => 34,
            Refusal::ValueWithoutType => 35,
            Refusal::Repeated => 36,
            Refusal::ValueTooLong => 37,
            Refusal::StructureName => 23,
            Refusal::BrokenFrame => 40,
            Refusal::FrameTooLong => 41,
            Refusal::Layout => 42,
            Refusal::BookVersion => 50,
            Refusal::BookMalformed => 51,
            Refusal::BookHeader => 52,
            Refusal::WrongCount => 60,
            Refusal::BrokenBatch => 61,
        }
    }
}

// A refusal and its place.
#[derive(Clone, Copy, PartialEq, Eq)]
pub struct Fault {
    pub kind: Refusal,
    pub place: usize,
}

// A check that fails where its test holds. Checks in order stand one behind another, each with `?`.
pub fn fails_if(test: bool, kind: Refusal, place: usize) -> Result<(), Fault>
    ensures { result ≡ fails_if test kind place }
{
    if test {
        Err(Fault { kind, place })
    } else {
        Ok(())
    }
}
