// One call of the frame reader, with all that it gives back.
ghost use Rattle.std.specs.Prelude.{◌+◌, ◌≤◌, length};
ghost use Rattle.answering.specs.Answers.{Fits};

use crate::states;
use crate::states::Numbers;
use answering::Answer;
use frames::{FrameState, Stop};

// Puts the number of a refusal, the bytes used, what the reader stopped at and the frame's length.
fn put_fed(answer: &mut Answer, number: u8, used: usize, stopped_at: &[u8], size: usize)
    requires short { length stopped_at.now ≤ 5 }
    requires room { Fits answer.old 69 }
    ensures { length answer.new ≤ length answer.old + 69 }
{
    answer.put_number(u64::from(number), b' ');
    answer.put_number(used as u64, b' ');
    answer.put_word(stopped_at, b' ');
    answer.put_number(size as u64, b' ');
}

// Calls the reader once, and puts what came back, then the state and the buffer, in the place of whatever was put
// before. Where it refuses the state it hands nothing back, and the state stays.
pub fn put_call(answer: &mut Answer, begun: Numbers, piece: &[u8], buffer: &mut [u8])
    requires { length buffer.old ≤ 65536 }
{
    answer.clear();
    match FrameState::from(begun).feed(piece, buffer) {
        Ok(fed) => {
            match fed.stop {
                None => put_fed(answer, 0, fed.used, b"more", 0),
                Some(Stop::Frame(size)) => put_fed(answer, 0, fed.used, b"frame", size),
                Some(Stop::Drop(kind)) => put_fed(answer, u8::from(kind), fed.used, b"drop", 0),
            }
            states::put_state(answer, Numbers::from(fed.state), buffer);
        }
        Err(kind) => {
            put_fed(answer, u8::from(kind), 0, b"-", 0);
            states::put_state(answer, begun, buffer);
        }
    }
}
