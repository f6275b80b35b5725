// The question `frame MODE HELD COUNT PIECE ROOM`: one call of the frame reader, from any state that the words say.
ghost use Rattle.std.specs.Prelude.{◌≤◌};

use answering::Answer;
use asking::{decimals, hex, rooms, words};
use frame_answers::calls;
use frame_answers::states::Numbers;

// The state that the second word of a line and the two behind it say, each a number, whether or not the reader can have
// been in it.
fn state_of(line: &[u8]) -> Option<Numbers> {
    Some(Numbers {
        mode: decimals::decode(words::word(line, 1))?,
        held: decimals::decode(words::word(line, 2))?,
        count: decimals::decode(words::word(line, 3))?,
    })
}

// Calls the reader over a buffer of so many bytes, and puts what came back. By a call of its own the buffer is filled
// once: among the words that are decoded it would be cleared as well, which took as long again.
fn put_called(answer: &mut Answer, state: Numbers, piece: &[u8], room: usize)
    requires { room ≤ 65536 }
{
    let mut buffer = rooms::untouched();
    calls::put_call(answer, state, piece, &mut buffer[..room]);
}

// Puts the answer to a line whose verb is `frame`, unless its other words are not those of a call.
fn put_asked(line: &[u8], said: &mut [u8], answer: &mut Answer) -> Option<()> {
    if words::count(line) != 6 {
        return None;
    }
    let state = state_of(line)?;
    let (piece, _) = hex::lend_decoded(words::word(line, 4), said)?;
    let room = rooms::room_of(words::word(line, 5))?;
    put_called(answer, state, piece, room);
    Some(())
}

// Puts the answer to a line whose verb is `frame`, in the place of whatever was put before. One with more words or
// fewer is no question.
pub fn answer_call(line: &[u8], said: &mut [u8], answer: &mut Answer) {
    let put = put_asked(line, said, answer);
    answer.put_unless(put);
}
