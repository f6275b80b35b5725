// The question `read MSG`: the number of the refusal and its place.
ghost use Rattle.std.specs.Prelude.{◌≡◌, [], length, is_some, IfSome, OnSome};
ghost use Rattle.asking.specs.Words.{words as Words·words};
ghost use Rattle.asking.specs.Hex.{fitting};
ghost use Rattle.judge_questions.specs.Readings.{read_asked, ReadAnswer, ReadNumbers, TwoNumbers};

use answering::Answer;
use asking::{hex, messages, words};

// Puts the answer to `read MSG`, unless the line is no question.
fn put_asked(line: &[u8], said: &mut [u8], answer: &mut Answer) -> Option<()>
    requires { answer.old ≡ [] }
    ensures asked { is_some result ≡ is_some (fitting (length said.old) (read_asked (Words·words line.now))) }
    ensures numbers { OnSome result (TwoNumbers answer.new) }
    ensures which { OnSome result (IfSome (fitting (length said.old) (read_asked (Words·words line.now)))
        (λ message. ReadNumbers message answer.new)) }
{
    if words::count(line) != 2 {
        return None;
    }
    let (message, _) = hex::lend_decoded(words::word(line, 1), said)?;
    let read = reading::read(messages::held(message));
    answer.put_fault(read.err(), b'\n');
    Some(())
}

// Puts the answer to `read MSG`, in the place of whatever was put before. `said` is lent for the bytes of the message.
pub fn answer_read(line: &[u8], said: &mut [u8], answer: &mut Answer)
    ensures read { ReadAnswer (fitting (length said.old) (read_asked (Words·words line.now))) answer.new }
    ensures which { IfSome (fitting (length said.old) (read_asked (Words·words line.now)))
        (λ message. ReadNumbers message answer.new) }
{
    answer.clear();
    let put = put_asked(line, said, answer);
    answer.put_unless(put);
}
