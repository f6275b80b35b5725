// The verbs that write a text into a buffer: which there are, and the answer to each.
ghost use Rattle.std.specs.Prelude.{◌≡◌, ◌≢◌, ◌≤◌, length, Some, None, IfSome, IfNone};
ghost use Rattle.asking.specs.Hex.{said, fitting};
ghost use Rattle.text_questions.specs.Verbs.{Verb};

use alphabet::{Delimiters, Fault};
use answering::{Answer, writings};
use asking::{hex, rooms, words};

// What is to be written.
#[derive(Clone, Copy)]
pub enum Writing {
    Escape,
    Unescape,
    Format,
}

// The five delimiters that a word says.
fn delimiters_of(word: &[u8]) -> Option<Delimiters>
    ensures some { IfSome result (λ delimiters. fitting 5 (said word.now) ≡ Some delimiters.bytes) }
    ensures none { IfNone result (IfSome (fitting 5 (said word.now)) (λ bytes. length bytes ≢ 5)) }
{
    let mut five = [0; 5];
    let count = hex::decode(word, &mut five)?;
    if count != 5 {
        return None;
    }
    Some(Delimiters { bytes: five })
}

impl Writing {
    // What a verb asks to be written.
    // An Option and no TryFrom: a word that is no verb of this family is no error, and the next family is asked.
    pub fn of(verb: &[u8]) -> Option<Writing>
        ensures { (Verb verb.now → ⊥) → result ≡ None }
    {
        match verb {
            b"escape" => Some(Writing::Escape),
            b"unescape" => Some(Writing::Unescape),
            b"format" => Some(Writing::Format),
            _ => None,
        }
    }

    // Calls the library once.
    fn write(self, delimiters: Delimiters, text: &[u8], buffer: &mut [u8]) -> Result<usize, Fault> {
        match self {
            Writing::Escape => escaping::escape(delimiters, text, buffer),
            Writing::Unescape => text::unescape(delimiters, text, buffer),
            Writing::Format => formatting::format(delimiters, text, buffer),
        }
    }

    // Writes a text into a buffer of so many bytes, and puts what came back. By a call of its own the buffer is filled
    // once: among the words that are decoded it would be cleared as well, which took as long again.
    fn put_written(self, answer: &mut Answer, delimiters: Delimiters, text: &[u8], room: usize)
        requires { room ≤ 65536 }
    {
        let mut buffer = rooms::untouched();
        let buffer = &mut buffer[..room];
        let written = self.write(delimiters, text, buffer);
        writings::put_written(answer, written, buffer);
    }

    // Puts the answer to a line with such a verb, unless its other words are not those of a text.
    fn put_asked(self, line: &[u8], said: &mut [u8], answer: &mut Answer) -> Option<()> {
        if words::count(line) != 4 {
            return None;
        }
        let (text, _) = hex::lend_decoded(words::word(line, 1), said)?;
        let delimiters = delimiters_of(words::word(line, 2))?;
        let room = rooms::room_of(words::word(line, 3))?;
        self.put_written(answer, delimiters, text, room);
        Some(())
    }

    // Puts the answer to a line with such a verb, in the place of whatever was put before: `?` where its other words
    // are not those of a text. `said` is lent for the bytes of the text.
    pub fn answer(self, line: &[u8], said: &mut [u8], answer: &mut Answer) {
        let put = self.put_asked(line, said, answer);
        answer.put_unless(put);
    }
}
