// The words behind a file's name, which say an address, or a time and an ID. Where they are wrong that is a fault of the
// question and not of the file, so that they are judged before any file is read.
ghost use Rattle.std.specs.Prelude.{◌≤◌};

use crate::commands::Command;
use crate::wrong::{tell_id, tell_time};
use command_line::word_at;
use std::rt::Env;

// Whether a word is a time, as an acknowledgement takes it. Else that is said of it.
fn is_time(word: &[u8]) -> bool {
    let is_right = times::is_ts(word);
    if !is_right {
        tell_time(word);
    }
    is_right
}

// Whether a word is an ID, as an acknowledgement takes it. Else that is said of it.
fn is_id(word: &[u8]) -> bool {
    let is_right = (1 <= word.len()) & (word.len() <= alphabet::id_limit());
    if !is_right {
        tell_id();
    }
    is_right
}

// Whether the words from `first` on are such as a command takes behind a file's name. Else that is said of them.
pub fn are_asked(rt: &impl Env, command: Command, first: usize, word: &mut [u8]) -> bool
    requires { first ≤ 9 }
{
    match command {
        Command::Get | Command::Lines => addresses::is_address(rt, first, word),
        Command::Acknowledge => {
            is_time(word_at(rt, first, word)) && is_id(word_at(rt, first + 1, word))
        }
        _ => true,
    }
}
