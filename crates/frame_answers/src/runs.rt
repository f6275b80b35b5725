// A piece handed in to the frame reader call by call, behind each stop what is left of it, and the events of all calls.
ghost use Rattle.std.specs.Prelude.{◌≤◌, ◌≡◌, length, OnSome};
ghost use Rattle.answering.specs.Answers.{Fits};
ghost use Rattle.frame_answers.specs.Rooms.{ending};

use crate::events;
use answering::Answer;
use frames::FrameState;

// Reads a piece from a state on, and puts its events; or none, where an event has no room. A call is done with at least
// one byte of what was left of the piece, so the loop ends; by any other number it would be one byte.
pub fn put_piece(
    answer: &mut Answer,
    begun: FrameState,
    piece: &[u8],
    buffer: &mut [u8],
) -> Option<FrameState>
    requires buffer_len_bound { length buffer.old ≤ 65536 }
    requires room { Fits answer.old ending }
    ensures { OnSome result (Fits answer.new ending) }
{
    let mut state = begun;
    let mut rest = piece;
    while !rest.is_empty() {
        // The reader refuses no state that it handed back itself.
        let fed = state.feed(rest, buffer).ok()?;
        events::put_event(answer, fed.stop, buffer)?;
        state = fed.state;
        rest = &rest[fed.used.clamp(1, rest.len())..];
    }
    Some(state)
}
