// `ask` answers questions about messages, so that the library can be compared with others: one question to a line of
// standard input, one line of standard output for each, in order, until the input ends. This file reads the input in
// pieces.
#![tactic(auto)]

ghost use Rattle.io.specs.Counts.{IsPrefixLen};

use conversation::Conversation;
use std::io::Read;

// Reads a piece of the input, and returns how many bytes came: none where the input has ended or cannot be read.
// It takes what is there, and does not wait for more: whoever asks may wait for an answer before he asks on.
fn read_piece<R: Read>(input: &mut R, piece: &mut [u8]) -> usize
    ensures { IsPrefixLen result piece.new }
{
    input.read(piece).unwrap_or(0)
}

// Answers the whole input. A proved loop has to end, and nothing says that an input does: so the loop counts its turns,
// up to a number that no run reaches.
fn answer_input<R: Read>(input: &mut R, piece: &mut [u8], conversation: &mut Conversation) {
    for _ in 0..u64::MAX {
        let count = read_piece(input, piece);
        if count == 0 {
            conversation.end();
            return;
        }
        conversation.take(&piece[..count]);
    }
}

fn main(rt: HostRuntime) {
    let mut input = rt.stdin();
    let mut piece = io::large_buffer();
    let mut conversation = Conversation::new();
    answer_input(&mut input, &mut piece, &mut conversation);
}
