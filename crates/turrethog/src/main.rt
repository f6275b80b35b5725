// `turrethog` is the command of the person on the bench: it tells whether a file holds a message that is accepted,
// shows what it says, gets an element out of it or its lines, acknowledges it, and tells of each frame that was taken
// off a link. This file holds it together: it reads the arguments, lends the buffers, and hands the files on.
#![tactic(auto)]

mod status;

use arguments::{Asked, Command, Question, question_at};
use command_line::{word_at, word_count};
use commands::{Status, answer_file};
use status::Tally;
use std::rt::{Env, Files};

// One byte more than the command takes of a message (`wording::LONGEST_MESSAGE`): a file that fills it is longer.
const ROOM: usize = 65_537;

// Room for what is made of a message: the text of an element, its lines, an acknowledgement; and for a piece of a file
// of frames. Lines may have more bytes than the text that they are made of, since a command of a few bytes asks for
// many blanks or lines: eight times the longest message is more than any text needs that is written to be read.
const LARGE_ROOM: usize = 524_288;

// Does what a command asks of each file that the arguments name: that is one where words stand behind it. Returns the
// worst status.
fn answer_files(
    rt: &(impl Env + Files + Input),
    asked: Asked,
    name: &mut [u8],
    message: &mut [u8],
    room: &mut [u8],
) -> Status {
    let until = if asked.command.takes_files() {
        word_count(rt)
    } else {
        asked.file + 1
    };
    let mut out = terminal::standard_output();
    let mut tally = Tally::none();
    for index in asked.file..until {
        tally.count(answer_file(rt, asked, &mut out, index, name, message, room));
    }
    if (asked.command == Command::Check) & !asked.json {
        tally.print_summary(&mut out);
    }
    status::at_end(&out, tally.worst)
}

// Tells of the command itself where nothing was asked: its usage, on standard error.
fn tell_unasked() -> Status {
    wording::print_usage(&mut terminal::standard_error());
    Status::Trouble
}

// Does what the arguments from an index on ask: of the command itself, its usage or its version, or of files. What is
// wrong with words that ask neither was said.
fn run(
    rt: &(impl Env + Files + Input),
    index: usize,
    name: &mut [u8],
    message: &mut [u8],
    room: &mut [u8],
) -> Status {
    let asked = match question_at(rt, index, name) {
        Question::Nothing => return tell_unasked(),
        Question::Wrong => return Status::Trouble,
        Question::Asked(asked) => asked,
    };
    let mut out = terminal::standard_output();
    match asked.command {
        Command::Help => wording::print_usage(&mut out),
        Command::Version => wording::print_version(&mut out),
        _ => return answer_files(rt, asked, name, message, room),
    }
    status::at_end(&out, Status::Done)
}

// Whether the script asks to be told the status: that is the first argument, and all others stand behind it.
fn is_script(rt: &impl Env, word: &mut [u8]) -> bool {
    matches!(word_at(rt, 1, word), b"--status-on-3")
}

// Bytes for a message. By a call of its own it is no list of so many bytes in the caller's proof, nor is the next.
fn room_for_message() -> [u8; ROOM] {
    [0; ROOM]
}

// Bytes for what is made of it.
fn large_room() -> [u8; LARGE_ROOM] {
    [0; LARGE_ROOM]
}

fn main(rt: HostRuntime) {
    let mut name = io::buffer();
    let mut message = room_for_message();
    let mut room = large_room();
    if is_script(&rt, &mut name) {
        status::tell(run(&rt, 2, &mut name, &mut message, &mut room));
    } else {
        run(&rt, 1, &mut name, &mut message, &mut room);
    }
}
