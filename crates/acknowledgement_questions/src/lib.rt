// The question `ack MSG TIME ID ROOM`: the acknowledgement of a message, written into a buffer that the answer shows
// whole. The bytes of its first three words are decoded one behind another into one buffer. An answer has its own room,
// and a line that says more than the lent buffer holds is no question: so no room is required.
#![tactic(auto)]

ghost use Rattle.std.specs.Prelude.{◌≤◌};

use answering::{Answer, writings};
use asking::{hex, messages, rooms, words};

// Acknowledges a message in a buffer of so many bytes, and puts what came back. A message that is not held is refused
// before the time and the ID are looked at. By a call of its own the buffer is filled once: among the words that are
// decoded it would be cleared as well, which took as long again.
fn put_acknowledged(answer: &mut Answer, message: &[u8], time: &[u8], id: &[u8], room: usize)
    requires { room ≤ 65536 }
{
    let mut buffer = rooms::untouched();
    let buffer = &mut buffer[..room];
    let written = if messages::is_held(message.len()) {
        acknowledgement::acknowledge(message, time, id, buffer)
    } else {
        messages::not_held()
    };
    writings::put_written(answer, written, buffer);
}

// Puts the answer to a line whose verb is `ack`, unless its other words are not those of an acknowledgement.
fn put_asked(line: &[u8], said: &mut [u8], answer: &mut Answer) -> Option<()> {
    if words::count(line) != 5 {
        return None;
    }
    let (message, behind) = hex::lend_decoded(words::word(line, 1), said)?;
    let (time, behind) = hex::lend_decoded(words::word(line, 2), behind)?;
    let (id, _) = hex::lend_decoded(words::word(line, 3), behind)?;
    let room = rooms::room_of(words::word(line, 4))?;
    put_acknowledged(answer, message, time, id, room);
    Some(())
}

// Puts the answer to a line whose verb is `ack`, in the place of whatever was put before. `said` is lent for the bytes
// that its words say, and has room for all that a line can say. A line with more words or fewer is no question.
pub fn answer(line: &[u8], said: &mut [u8], answer: &mut Answer) {
    let put = put_asked(line, said, answer);
    answer.put_unless(put);
}
