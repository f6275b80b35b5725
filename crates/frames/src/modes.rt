// The modes of the reader, and their numbers. The caller keeps the state between two pieces, and a caller in C keeps
// the mode as a number, which may be any when it comes back.
ghost use Rattle.std.specs.Prelude.{◌≡◌};
ghost use Rattle.frames.specs.Modes.{mode_of, number_of};

// Where the reader is: outside a frame, inside, inside behind 0x1C, skipping a frame that is too long, skipping behind
// 0x1C; or nowhere, where a number came back that is no mode.
// That is a mode, and From no TryFrom: any number may come back, and `feed` promises 14 of such a state.
#[derive(Clone, Copy, PartialEq, Eq)]
pub enum Mode {
    Outside,
    Inside,
    Ending,
    Skipping,
    SkippingEnd,
    Unknown,
}

// The mode that a number stands for.
impl From<u64> for Mode {
    ghost from_gives = { λ number r. r ≡ mode_of number };

    fn from(number: u64) -> Mode {
        match number {
            0 => Mode::Outside,
            1 => Mode::Inside,
            2 => Mode::Ending,
            3 => Mode::Skipping,
            4 => Mode::SkippingEnd,
            _ => Mode::Unknown,
        }
    }
}

// The number of a mode.
impl From<Mode> for u64 {
    ghost from_gives = { λ mode r. r ≡ number_of mode };

    fn from(mode: Mode) -> u64 {
        match mode {
            Mode::Outside => 0,
            Mode::Inside => 1,
            Mode::Ending => 2,
            Mode::Skipping => 3,
            Mode::SkippingEnd => 4,
            Mode::Unknown => 5,
        }
    }
}
