// The five commands on the message that a file holds, `check`, `show`, `get`, `lines` and `ack`, and the one on the
// frames of a file, `frames`. What they find is printed to the output that they are lent. Why there is nothing to
// find is said on standard error, as `check` says it where there is no message; and so are the letters of an
// acknowledgement, and why.
#![tactic(auto)]

ghost use Rattle.std.specs.Prelude.{◌≤◌};

use alphabet::Refusal;
use arguments::{Asked, Command};
use element::{Address, Element};
use files::File;
use std::rt::{Env, Files};
use terminal::Output;
use wording::LONGEST_MESSAGE;

// What a command comes to: every message was accepted, or what was asked for was found or written; some message was
// refused, or answered with AE or AR, a frame was dropped or left open, or there was none; or the command was not
// understood, a file could not be read, or what was to be printed could not be written. Their numbers are those that a
// shell is told, and the worst is the greatest.
#[derive(Clone, Copy, PartialEq, Eq, PartialOrd, Ord)]
pub enum Status {
    Done = 0,
    Refused = 1,
    Trouble = 2,
}

// As many numbers as the leaves of the longest message (`wording::LONGEST_MESSAGE`) may need: eight for each byte.
const ROWS_ROOM: usize = 524_288;

// The status by whether what was judged is accepted.
fn status_of(is_accepted: bool) -> Status {
    if is_accepted {
        Status::Done
    } else {
        Status::Refused
    }
}

// What a status comes to where something was said on standard error: trouble where that was not written.
fn once_said(said: &Output, status: Status) -> Status {
    if said.is_whole {
        status
    } else {
        Status::Trouble
    }
}

// Says of a file that it is refused, by the number and in words.
fn refuse(name: &[u8], kind: Refusal) -> Status {
    let mut said = terminal::standard_error();
    wording::print_refused(&mut said, name, kind);
    once_said(&said, Status::Refused)
}

// Says of a file that it holds no message, and where the fault stands.
fn refuse_message(file: File) -> Status {
    let mut said = terminal::standard_error();
    drawing::print_verdict(&mut said, file.name, file.bytes);
    once_said(&said, Status::Refused)
}

// Says of a file that it has more bytes than the command takes, where the command says a verdict.
fn refuse_long(asked: Asked, out: &mut Output, name: &[u8]) -> Status {
    if asked.command != Command::Check {
        let mut said = terminal::standard_error();
        wording::print_too_long(&mut said, name);
        return once_said(&said, Status::Refused);
    }
    if asked.json {
        objects::print_too_long(out, name);
    } else {
        wording::print_too_long(out, name);
    }
    Status::Refused
}

// `check`: the verdict on a message.
fn check(json: bool, out: &mut Output, file: File) -> Status {
    if json {
        return status_of(objects::print_check(out, file.name, file.bytes));
    }
    status_of(drawing::print_verdict(out, file.name, file.bytes))
}

// Room for the rows of the leaves of a message: eight numbers for each of its bytes. By a call of its own it is no list
// of so many numbers in the caller's proof.
fn room_for_rows() -> [u64; ROWS_ROOM] {
    [0; ROWS_ROOM]
}

// Shows a message that was read, in words or in JSON. `room` is lent for the text of each part, and `rows` for its
// leaves: so they stand on the stack once, where there is no room for them twice.
fn show_leaves(json: bool, out: &mut Output, file: File, room: &mut [u8], rows: &mut [u64]) {
    if json {
        element_objects::print_show(out, file.name, file.bytes, room, rows);
    } else {
        showing::show(out, file.bytes, room, rows);
    }
}

// `show`: every segment of a message.
fn show(json: bool, out: &mut Output, file: File, room: &mut [u8]) -> Status {
    if reading::read(file.bytes).is_err() {
        return refuse_message(file);
    }
    show_leaves(json, out, file, room, &mut room_for_rows());
    Status::Done
}

// Says what an element says: for `lines` its text, laid out in lines that are made in `room`, and for `get` its state
// and its bytes. A text that has no lines is refused, and shown as it was sent.
fn say_element(
    asked: Asked,
    out: &mut Output,
    file: File,
    address: Address,
    element: Element,
    room: &mut [u8],
) -> Status {
    if asked.json {
        element_objects::print_get(out, file.name, file.bytes, address, element, room);
        return Status::Done;
    }
    if asked.command == Command::Get {
        showing::show_element(out, file.bytes, address, element);
        return Status::Done;
    }
    let Err(fault) = showing::show_lines(out, file.bytes, address, element, room) else {
        return Status::Done;
    };
    let mut said = terminal::standard_error();
    wording::print_refused_text(&mut said, file.name, fault);
    once_said(&said, Status::Refused)
}

// `get` and `lines`: the element of a message at the address that the words behind the file's say. They are known to say
// one; one that no message has is refused by its number. `room` is lent for each word, and then for the lines.
fn get(rt: &impl Env, asked: Asked, out: &mut Output, file: File, room: &mut [u8]) -> Status {
    let address = addresses::address_at(rt, asked.file + 1, room, file.bytes);
    match element::find(file.bytes, address) {
        Ok(element) => say_element(asked, out, file, address, element, room),
        Err(fault) if fault.kind == Refusal::Address => refuse(file.name, fault.kind),
        Err(_) => refuse_message(file),
    }
}

// `ack`: the acknowledgement of a message, by the two words behind the file's. It is made in `room`, and with which
// letters and why is said on standard error. The status says it too: all is well where they are AA.
fn acknowledge(
    rt: &impl Env,
    asked: Asked,
    out: &mut Output,
    file: File,
    room: &mut [u8],
) -> Status {
    let first = asked.file + 1;
    let mut said = terminal::standard_error();
    let answered = acknowledging::acknowledge_by(
        rt, out, &mut said, file.name, file.bytes, first, room,
    );
    let status = match answered {
        Ok(is_accepted) => status_of(is_accepted),
        Err(fault) => {
            acknowledging::print_refused(&mut said, file.name, file.bytes, fault.kind);
            Status::Refused
        }
    };
    once_said(&said, status)
}

// How many bytes of a buffer are lent for a frame: no more than the command takes of a message.
fn frame_room(length: usize) -> usize
    ensures { result ≤ length }
{
    length.min(LONGEST_MESSAGE)
}

// Does what a command asks of the file that the argument at an index names. One that is longer than the command takes is
// refused before anything else is looked at. Three buffers are lent: for its name, for its bytes, or those of a frame,
// and for what is made of these.
pub fn answer_file(
    rt: &(impl Env + Files + Input),
    asked: Asked,
    out: &mut Output,
    index: usize,
    name: &mut [u8],
    message: &mut [u8],
    room: &mut [u8],
) -> Status {
    if asked.command == Command::Frames {
        let length = frame_room(message.len());
        let frame = &mut message[..length];
        return framing::tell_file(rt, asked.json, out, index, name, room, frame).map_or(
            Status::Trouble,
            status_of,
        );
    }
    let Some(file) = files::read(rt, index, name, message) else {
        return Status::Trouble;
    };
    if LONGEST_MESSAGE < file.bytes.len() {
        return refuse_long(asked, out, file.name);
    }
    match asked.command {
        Command::Check => check(asked.json, out, file),
        Command::Show => show(asked.json, out, file, room),
        Command::Get | Command::Lines => get(rt, asked, out, file, room),
        _ => acknowledge(rt, asked, out, file, room),
    }
}
