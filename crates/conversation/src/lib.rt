// An input is taken in pieces: its lines are gathered, and each is answered on standard output as soon as it ends.
#![tactic(auto)]

use answering::Answer;
use asking::lines::GatheredLine;

// Standard output, by its number.
const STDOUT_FILENO: i32 = 1;

// A longer line is answered as no question. It has room for two words of 64 KiB, at two digits a byte.
const LONGEST_LINE: usize = 300_000;

// All the bytes that a line of that length can say.
const LONGEST_SAID: usize = 150_000;

// The line that is gathered, room for the bytes that a line says, and the answer to the last line that ended.
#[derive(Drop)]
pub struct Conversation {
    line: GatheredLine<LONGEST_LINE>,
    said: [u8; LONGEST_SAID],
    answer: Answer,
}

impl Conversation {
    // A conversation in which nothing is said.
    pub fn new() -> Conversation {
        Conversation {
            line: GatheredLine::new(),
            said: [0; LONGEST_SAID],
            answer: Answer::new(),
        }
    }

    // Answers the line that is gathered, and begins the next. The answer is written out whole, since a call for each of
    // its bytes would take most of the time.
    fn answer_line(&mut self) {
        match self.line.text() {
            Some(line) => questions::answer(line, &mut self.said, &mut self.answer),
            None => self.answer.put_no_question(),
        }
        io::write_all(STDOUT_FILENO, self.answer.bytes());
        self.line.clear();
    }

    // Takes a piece of the input, and answers each line that ends in it.
    pub fn take(&mut self, piece: &[u8]) {
        let mut rest = piece;
        while !rest.is_empty() {
            let (part, behind) = rest.split_at(alphabet::find(rest, b'\n'));
            self.line.gather(part);
            let Some((_, next)) = behind.split_first() else {
                return;
            };
            self.answer_line();
            rest = next;
        }
    }

    // Answers what is left when the input ends: a line without its end is a line, and no bytes are none.
    pub fn end(&mut self) {
        if !matches!(self.line.text(), Some([])) {
            self.answer_line();
        }
    }
}
