// The three words with which each answer about an element begins: the number of the refusal, its place, and the
// element's state.
ghost use Rattle.std.specs.Prelude.{◌+◌, ◌≤◌, length};
ghost use Rattle.answering.specs.Answers.{Fits};

use alphabet::Fault;
use answering::Answer;
use element::State;
use value::{NoValue, Value};

// Puts the word for a state.
fn put_state(answer: &mut Answer, state: State, end: u8)
    requires { Fits answer.old 8 }
    ensures { length answer.new ≤ length answer.old + 8 }
{
    match state {
        State::Absent => answer.put_word(b"absent", end),
        State::Empty => answer.put_word(b"empty", end),
        State::Null => answer.put_word(b"null", end),
        State::Present => answer.put_word(b"present", end),
    }
}

// Puts the three words with which each answer about an element begins, in the place of whatever was put before: the
// number of the refusal, its place, and the state. After a refusal there is no element, and so no state.
pub fn put_begin(answer: &mut Answer, found: Result<State, Fault>, end: u8)
    ensures { length answer.new ≤ 50 }
{
    answer.clear();
    answer.put_fault(found.err(), b' ');
    match found {
        Ok(state) => put_state(answer, state, end),
        Err(_) => answer.put_nothing(end),
    }
}

// The same of a value, which is given back where there is one.
pub fn put_begin_of<T: Copy>(
    answer: &mut Answer,
    found: Result<Value<T>, NoValue>,
    end: u8,
) -> Option<T>
    ensures { length answer.new ≤ 50 }
{
    let (state, value) = match found {
        Ok(Value::Absent) => (Ok(State::Absent), None),
        Ok(Value::Empty) => (Ok(State::Empty), None),
        Ok(Value::Null) => (Ok(State::Null), None),
        Ok(Value::Present(value)) => (Ok(State::Present), Some(value)),
        Err(why) => (Err(Fault::from(why)), None),
    };
    put_begin(answer, state, end);
    value
}
