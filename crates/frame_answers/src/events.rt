// The events of pieces, put one by one: `f` and the frame's bytes, or the number of a dropped frame, each with a comma
// behind it. An event is put where there is room for it and for the end of the answer. There always is: an event takes
// at most three bytes of the answer for two of the question's, so all of them at most 450,000 of its 600,000. Were
// there none, the line would be no question; so no proof has to count what all events take.
ghost use Rattle.std.specs.Prelude.{◌≤◌, length, OnSome};
ghost use Rattle.answering.specs.Answers.{Fits};
ghost use Rattle.frame_answers.specs.Rooms.{ending};

use alphabet::Refusal;
use answering::Answer;
use frames::Stop;

// The room that the end of an answer takes: three numbers of at most 21 bytes each, the buffer, and the line's end.
const ENDING: usize = 131_140;

// Puts a frame.
fn put_frame(answer: &mut Answer, frame: &[u8]) -> Option<()>
    requires { length frame.now ≤ 65536 }
    ensures { OnSome result (Fits answer.new ending) }
{
    if answer.room() < 2 * frame.len() + 3 + ENDING {
        return None;
    }
    answer.put(b"f");
    answer.put_bytes(frame, b',');
    Some(())
}

// Puts the number of a dropped frame, likewise.
fn put_dropped(answer: &mut Answer, kind: Refusal) -> Option<()>
    ensures { OnSome result (Fits answer.new ending) }
{
    if answer.room() < 21 + ENDING {
        return None;
    }
    answer.put_number(u64::from(u8::from(kind)), b',');
    Some(())
}

// Puts what the reader stopped at, if it did. A frame stands at the front of the buffer; the reader never says that it
// is longer than the buffer.
pub fn put_event(answer: &mut Answer, stop: Option<Stop>, buffer: &[u8]) -> Option<()>
    requires buffer_len_bound { length buffer.now ≤ 65536 }
    requires room { Fits answer.old ending }
    ensures { OnSome result (Fits answer.new ending) }
{
    match stop {
        None => Some(()),
        Some(Stop::Frame(size)) => put_frame(answer, &buffer[..size.min(buffer.len())]),
        Some(Stop::Drop(kind)) => put_dropped(answer, kind),
    }
}

// Ends the word of the events with a space, in the place of the last comma; where there is none the word is `-`.
pub fn end_events(answer: &mut Answer)
    requires { Fits answer.old ending }
    ensures { Fits answer.new ending }
{
    if answer.is_empty() {
        answer.put_nothing(b' ');
    } else {
        answer.end_with(b' ');
    }
}
