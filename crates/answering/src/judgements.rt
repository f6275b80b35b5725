// What a judge said of a message: the number of the refusal and its place, whether the message could have ended there,
// and the names that could have stood there. Where the message is accepted they are 0, 0, no and none.
ghost use Rattle.std.specs.Prelude.{◌+◌, ◌≤◌, length};
ghost use Rattle.answering.specs.Answers.{Fits};

use crate::{Answer, names};
use alphabet::Fault;
use fault::FaultRecord;

// Puts the number of the refusal and its place.
fn put_begin(answer: &mut Answer, judged: Result<(), FaultRecord>)
    requires { Fits answer.old 42 }
    ensures { length answer.new ≤ length answer.old + 42 }
{
    let fault = judged.err().map(|found| Fault {
        kind: found.kind,
        place: found.place,
    });
    answer.put_fault(fault, b' ');
}

// Puts what could have stood at the place: the end of the message, and names.
fn put_expected(answer: &mut Answer, judged: Result<(), FaultRecord>)
    requires { Fits answer.old 260 }
{
    match judged {
        Ok(()) => {
            answer.put_yes_or_no(false, b' ');
            answer.put_nothing(b'\n');
        }
        Err(found) => {
            answer.put_yes_or_no(found.could_end, b' ');
            names::put_names(answer, found.names);
        }
    }
}

// Puts a judgement, in the place of whatever was put before.
pub fn put_judgement(answer: &mut Answer, judged: Result<(), FaultRecord>) {
    answer.clear();
    put_begin(answer, judged);
    put_expected(answer, judged);
}

// Puts a verdict: the same, with field and repetition behind the place.
pub fn put_verdict(answer: &mut Answer, judged: Result<(), FaultRecord>) {
    answer.clear();
    let (field, repetition) = match judged {
        Ok(()) => (0, 0),
        Err(found) => (found.field, found.repetition),
    };
    put_begin(answer, judged);
    answer.put_number(field as u64, b' ');
    answer.put_number(repetition as u64, b' ');
    put_expected(answer, judged);
}
