// `ack`: the acknowledgement of a message, for a time and an ID that two words say. It goes to a line and not to a
// terminal, so that its bytes are written as they are. Which letters it has and why is said beside it, on standard
// error.
#![tactic(auto)]

mod reasons;

ghost use Rattle.std.specs.Prelude.{◌≤◌};

use alphabet::{Fault, Refusal};
use command_line::word_at;
use element::Address;
use std::rt::Env;
use terminal::Output;

// The letters of an acknowledgement: its MSA-1, as whoever gets it reads them.
fn letters_of(answer: &[u8]) -> &[u8] {
    let address = Address {
        segment: 1,
        field: 1,
        repetition: 0,
        component: 0,
        subcomponent: 0,
    };
    element::raw(answer, address)
}

// Writes the acknowledgement of a message for a time and an ID, and returns whether its letters are AA; or why there is
// none. It is made in `room`. Its letters are said first, and why: the verdict on the message. The CR at its end lets a
// terminal write over what stands before it.
fn acknowledge<'a>(
    out: &mut Output,
    said: &mut Output,
    name: &[u8],
    message: &'a [u8],
    time: &'a [u8],
    id: &'a [u8],
    room: &mut [u8],
) -> Result<bool, Fault> {
    let length = acknowledgement::acknowledge(message, time, id, room)?;
    let bytes = places::piece(room, 0, length);
    said.print(name);
    said.print(b": ");
    said.print(letters_of(bytes));
    let is_accepted = drawing::print_in_line(said, message);
    out.write(bytes);
    Ok(is_accepted)
}

// Writes the acknowledgement of the message that a file holds by the two words from `first` on, a time and an ID. Its
// letters are said on a second output, and whether they are AA is returned; or why there is none.
pub fn acknowledge_by(
    rt: &impl Env,
    out: &mut Output,
    said: &mut Output,
    name: &[u8],
    message: &[u8],
    first: usize,
    room: &mut [u8],
) -> Result<bool, Fault>
    requires { first ≤ 9 }
{
    let mut time = io::buffer();
    let mut id = io::buffer();
    acknowledge(
        out,
        said,
        name,
        message,
        word_at(rt, first, &mut time),
        word_at(rt, first + 1, &mut id),
        room,
    )
}

// Says how long an ID may be.
fn print_id_length(out: &mut Output) {
    out.print_counted(b"  an ID has 1 to ", alphabet::id_limit(), b" bytes");
    out.end_line();
}

// Says of a file that its message is not acknowledged, and what helps: why, or what the time and the ID have to be.
pub fn print_refused(out: &mut Output, name: &[u8], message: &[u8], kind: Refusal) {
    wording::print_refused(out, name, kind);
    match kind {
        Refusal::NotAcknowledgeable => reasons::print_reason(out, message),
        Refusal::CallersTime => explaining::print_time_form(out),
        Refusal::CallersId => print_id_length(out),
        _ => {}
    }
}
