// The question `frames ROOM PIECE ...`: pieces of what comes off the wire, in order, from the start state and over one
// buffer. The words are walked along one by one, since a line may have more than a hundred thousand of them.
ghost use Rattle.std.specs.Prelude.{◌≤◌, length, OnSome};
ghost use Rattle.answering.specs.Answers.{Fits};
ghost use Rattle.frame_answers.specs.Rooms.{ending};

use answering::Answer;
use asking::{hex, rooms, words};
use frame_answers::states::Numbers;
use frame_answers::{events, runs, states};
use frames::FrameState;

// Decodes the pieces that words say, one at a time, puts their events in the place of whatever was put before, and says
// the state behind them. Where a word is no piece there is no answer.
fn put_pieces(
    answer: &mut Answer,
    pieces: &[u8],
    said: &mut [u8],
    buffer: &mut [u8],
) -> Option<FrameState>
    requires { length buffer.old ≤ 65536 }
    ensures { OnSome result (Fits answer.new ending) }
{
    answer.clear();
    let mut state = FrameState::start();
    for word in pieces.split(|byte| *byte == b' ') {
        let (piece, _) = hex::lend_decoded(word, said)?;
        state = runs::put_piece(answer, state, piece, buffer)?;
    }
    Some(state)
}

// Puts the events of the pieces of a line, the state behind them and the buffer, unless one of its words is no piece or
// it has none.
fn put_asked(line: &[u8], said: &mut [u8], answer: &mut Answer) -> Option<()> {
    let room = rooms::room_of(words::word(line, 1))?;
    let first = alphabet::nth_part(line, b' ', 2)?;
    let mut buffer = rooms::untouched();
    let buffer = &mut buffer[..room];
    let state = put_pieces(answer, &line[first.start..], said, buffer)?;
    events::end_events(answer);
    states::put_state(answer, Numbers::from(state), buffer);
    Some(())
}

// Puts the answer to a line whose verb is `frames`, in the place of whatever was put before: what its pieces come to.
// One without a piece is no question. `said` is lent for the bytes of a piece.
pub fn answer_pieces(line: &[u8], said: &mut [u8], answer: &mut Answer) {
    let put = put_asked(line, said, answer);
    answer.put_unless(put);
}
