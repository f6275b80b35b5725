// Runs of bytes that do the same: dropped outside a frame, gathered, or skipped. They are passed over at once.
ghost use Rattle.std.specs.Prelude.{◌≡◌, true, ◌≤◌, length};
ghost use Rattle.frames.specs.Wire.{most_dropped, frame_limit};
ghost use Rattle.frames.specs.Feeding.{known};
ghost use Rattle.frames.specs.Passing.{counted_on, PassesOver};

use crate::modes::Mode;
use crate::state::{CLOSES, FrameState, OPENS, most_dropped};

// A mask to which 0x0B and 0x1C are nearer than CR and all that is printable, so that a message is searched fast.
const MASK: u8 = 27;

// So many bytes more, to the most that is counted.
#[tactic(auto, unfolding(crate::specs::Passing::counted_on))]
fn counted_on(count: u64, run: usize) -> u64
    requires { count ≤ most_dropped }
    ensures { result ≡ counted_on count run }
{
    let most = most_dropped();
    if run as u64 <= most - count {
        return count + run as u64;
    }
    most
}

impl FrameState {
    // Passes over the run at the front of what is left of a piece, gathers it where the mode is to gather, and returns
    // its length.
    pub(crate) fn pass(&mut self, limit: usize, rest: &[u8], buffer: &mut [u8]) -> usize
        requires { (limit ≡ frame_limit (length buffer.old)) × (known (length buffer.old) self.old ≡ true) }
        ensures { PassesOver limit self.old rest.now buffer.old result self.new buffer.new }
    {
        match self.mode {
            Mode::Outside => {
                let run = search::find_by_words(rest, OPENS);
                self.count = counted_on(self.count, run);
                run
            }
            Mode::Inside => {
                let room = limit - self.held;
                let run = search::find_either(rest, OPENS, CLOSES, MASK).min(room);
                alphabet::put_long(buffer, self.held, &rest[..run]);
                self.held += run;
                run
            }
            Mode::Skipping => search::find_either(rest, OPENS, CLOSES, MASK),
            Mode::Ending | Mode::SkippingEnd | Mode::Unknown => 0,
        }
    }
}
