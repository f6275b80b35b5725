// The state that the frame reader handed back, and the buffer: every answer about frames ends with them.
ghost use Rattle.std.specs.Prelude.{◌≤◌, length};
ghost use Rattle.answering.specs.Answers.{Fits};
ghost use Rattle.frame_answers.specs.Rooms.{ending};

use answering::Answer;
use frames::{FrameState, Mode};

// The three numbers of a state. A question may hand in a mode that is none, and is shown it again.
#[derive(Clone, Copy)]
pub struct Numbers {
    pub mode: u64,
    pub held: u64,
    pub count: u64,
}

// The numbers of a state.
impl From<FrameState> for Numbers {
    fn from(state: FrameState) -> Numbers {
        Numbers {
            mode: u64::from(state.mode),
            held: state.held as u64,
            count: state.count,
        }
    }
}

// The state that numbers say.
impl From<Numbers> for FrameState {
    fn from(numbers: Numbers) -> FrameState {
        FrameState {
            mode: Mode::from(numbers.mode),
            held: numbers.held as usize,
            count: numbers.count,
        }
    }
}

// Puts the mode, the bytes held and the count, and the whole buffer.
pub fn put_state(answer: &mut Answer, state: Numbers, buffer: &[u8])
    requires room { Fits answer.old ending }
    requires buffer_len_bound { length buffer.now ≤ 65536 }
{
    answer.put_number(state.mode, b' ');
    answer.put_number(state.held, b' ');
    answer.put_number(state.count, b' ');
    answer.put_bytes(buffer, b'\n');
}
