// The reader's state, which goes in with each piece and comes back, and which states can be.
ghost use Rattle.std.specs.Prelude.{◌≡◌};
ghost use Rattle.frames.specs.Wire.{most_dropped, frame_limit};
ghost use Rattle.frames.specs.Feeding.{known};
ghost use Rattle.frames.specs.Runs.{start};

use crate::modes::Mode;

// What begins a frame, and what ends its message.
pub const OPENS: u8 = 11;

pub const CLOSES: u8 = 28;

// The mode, the bytes held in the buffer, and the count of the bytes dropped outside frames. `held` stands beside a
// buffer and not in a slice of it, since the caller keeps both between two pieces: any state may come back, and is
// judged (14).
#[derive(Clone, Copy)]
pub struct FrameState {
    pub mode: Mode,
    pub held: usize,
    pub count: u64,
}

impl FrameState {
    // The state at the beginning of a line.
    pub fn start() -> FrameState
        ensures { result ≡ start }
    {
        FrameState {
            mode: Mode::Outside,
            held: 0,
            count: 0,
        }
    }

    // Whether a run over a buffer with so much room could have ended in the state.
    #[tactic(auto, unfolding(crate::specs::Feeding::known))]
    pub fn is_known(self, room: usize) -> bool
        ensures { result ≡ known room self }
    {
        let limit = limit_of(room);
        let can = match self.mode {
            Mode::Inside | Mode::Ending => self.held <= limit,
            Mode::Outside | Mode::Skipping | Mode::SkippingEnd => self.held == 0,
            Mode::Unknown => false,
        };
        (self.count <= most_dropped()) & can
    }
}

const MOST_DROPPED: u64 = 4294967295;

// The most that is counted.
#[tactic(auto, unfolding(crate::specs::Wire::most_dropped))]
pub fn most_dropped() -> u64
    ensures { result ≡ most_dropped }
{
    MOST_DROPPED
}

// The most bytes of a frame, over a buffer with so much room.
#[tactic(auto, unfolding(crate::specs::Wire::frame_limit))]
pub fn limit_of(room: usize) -> usize
    ensures { result ≡ frame_limit room }
{
    alphabet::message_limit().min(room)
}
