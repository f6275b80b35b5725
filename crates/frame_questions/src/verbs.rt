// The verbs about frames: which there are, and the answer to each.
ghost use Rattle.std.specs.Prelude.{◌≡◌, None};
ghost use Rattle.frame_questions.specs.Verbs.{Verb};

use crate::{calls, pieces};
use answering::Answer;

// What is asked for: one call of the reader, or all that pieces take.
#[derive(Clone, Copy)]
pub enum Asked {
    Call,
    Pieces,
}

impl Asked {
    // What a verb asks for.
    // An Option and no TryFrom: a word that is no verb of this family is no error, and the next family is asked.
    pub fn of(verb: &[u8]) -> Option<Asked>
        ensures { (Verb verb.now → ⊥) → result ≡ None }
    {
        match verb {
            b"frame" => Some(Asked::Call),
            b"frames" => Some(Asked::Pieces),
            _ => None,
        }
    }

    // Puts the answer to a line with such a verb, in the place of whatever was put before: `?` where it is no question.
    // `said` is lent for the bytes of a piece.
    pub fn answer(self, line: &[u8], said: &mut [u8], answer: &mut Answer) {
        match self {
            Asked::Call => calls::answer_call(line, said, answer),
            Asked::Pieces => pieces::answer_pieces(line, said, answer),
        }
    }
}
