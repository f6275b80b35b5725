// The verbs that ask for a judgement: which there are, and the answer to each.
ghost use Rattle.std.specs.Prelude.{◌≡◌, None};
ghost use Rattle.judge_questions.specs.Verbs.{Verb};

use answering::{Answer, judgements};
use asking::{hex, messages, words};

// Who is to judge.
#[derive(Clone, Copy)]
pub enum Judge {
    Structure,
    All,
}

impl Judge {
    // The judge that a verb names.
    // An Option and no TryFrom: a word that is no verb of this family is no error, and the next family is asked.
    pub fn of(verb: &[u8]) -> Option<Judge>
        ensures { (Verb verb.now → ⊥) → result ≡ None }
    {
        match verb {
            b"structure" => Some(Judge::Structure),
            b"verdict" => Some(Judge::All),
            _ => None,
        }
    }

    // Puts the answer to a line with such a verb, unless its other words are not one message.
    fn put_asked(self, line: &[u8], said: &mut [u8], answer: &mut Answer) -> Option<()> {
        if words::count(line) != 2 {
            return None;
        }
        let (message, _) = hex::lend_decoded(words::word(line, 1), said)?;
        let message = messages::held(message);
        match self {
            Judge::Structure => {
                judgements::put_judgement(answer, structure::judge_structure(message));
            }
            Judge::All => judgements::put_verdict(answer, verdict::verdict(message)),
        }
        Some(())
    }

    // Puts the answer to a line with such a verb, in the place of whatever was put before. `said` is lent for the bytes
    // that the line says. A line with another word behind the message, or with none, is no question.
    pub fn answer(self, line: &[u8], said: &mut [u8], answer: &mut Answer) {
        let put = self.put_asked(line, said, answer);
        answer.put_unless(put);
    }
}
