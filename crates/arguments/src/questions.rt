// What a command line asks: a command, its options, and where its files stand. An option stands directly behind the
// command's word. A word that is written as one and is none is said to be that, before any file is read.
ghost use Rattle.std.specs.Prelude.{◌≤◌};

use crate::commands::{Command, JSON_OPTION, is_help};
use crate::words::are_asked;
use crate::wrong::{tell_command, tell_option, tell_words};
use command_line::{word_at, word_count};
use std::rt::Env;

// The last word at which a command is looked for, so that no count of words wraps.
const LAST_COMMAND: usize = 5;

// The command, whether its answers are asked for in JSON, and at which index its first file stands: 0 for one of the
// command itself.
#[derive(Clone, Copy)]
pub struct Asked {
    pub command: Command,
    pub json: bool,
    pub file: usize,
    ghost near: { file ≤ 8 },
}

// What a command line asks. No word at all asks nothing; and of words that are wrong, what is wrong with them was said.
// Three cases by name: an Option in a Result would not tell what each stands for.
#[derive(Clone, Copy)]
pub enum Question {
    Nothing,
    Wrong,
    Asked(Asked),
}

// Whether a word is written as an option is: - and something behind it. - alone is standard input.
fn is_option(word: &[u8]) -> bool {
    matches!(word, [b'-', _, ..])
}

// The index of the first word from one on that is written as an option, and stands before another.
fn option_among(rt: &impl Env, first: usize, until: usize, word: &mut [u8]) -> Option<usize> {
    for index in first..until {
        if is_option(word_at(rt, index, word)) {
            return Some(index);
        }
    }
    None
}

// What becomes of a command with the words from an index on, where one is written as an option: help, or nothing where
// it is wrong, which is said of it. What stands behind the file of an acknowledgement is a time and an ID, which may
// begin with any byte.
fn with_late_option(
    rt: &impl Env,
    command: Command,
    first: usize,
    word: &mut [u8],
) -> Option<Command>
    requires { first ≤ 8 }
{
    let until = if command == Command::Acknowledge {
        first + 1
    } else {
        word_count(rt)
    };
    let Some(index) = option_among(rt, first, until, word) else {
        return Some(command);
    };
    let option = word_at(rt, index, word);
    if is_help(option) {
        return Some(Command::Help);
    }
    tell_option(option);
    None
}

// How many words stand from an index on.
fn words_from(rt: &impl Env, first: usize) -> usize {
    word_count(rt).saturating_sub(first)
}

// The question of a command's word at an index, whose files stand from another on.
fn with_words(
    rt: &impl Env,
    command: Command,
    json: bool,
    index: usize,
    file: usize,
    word: &mut [u8],
) -> Question
    requires { file ≤ 8 }
{
    let Some(late) = with_late_option(rt, command, file, word) else {
        return Question::Wrong;
    };
    if late != command {
        return Question::Asked(Asked {
            command: late,
            json: false,
            file: 0,
        });
    }
    if !command.takes_words(words_from(rt, file)) {
        tell_words(command, word_at(rt, index, word));
        return Question::Wrong;
    }
    if !are_asked(rt, command, file + 1, word) {
        return Question::Wrong;
    }
    Question::Asked(Asked {
        command,
        json,
        file,
    })
}

// The question of a command's word at an index, by the option behind it.
fn with_option(rt: &impl Env, command: Command, index: usize, word: &mut [u8]) -> Question
    requires { index ≤ 5 }
{
    let json = command.takes_json() & (word_at(rt, index + 1, word) == JSON_OPTION);
    let file = if json { index + 2 } else { index + 1 };
    with_words(rt, command, json, index, file, word)
}

// The question that the words from an index on ask. The buffer is lent for each of them.
pub fn question_at(rt: &impl Env, index: usize, buffer: &mut [u8]) -> Question {
    if (LAST_COMMAND < index) | (words_from(rt, index) == 0) {
        return Question::Nothing;
    }
    let word = word_at(rt, index, buffer);
    if let Some(command) = Command::of(word) {
        return with_option(rt, command, index, buffer);
    }
    if is_option(word) {
        tell_option(word);
    } else {
        tell_command(word);
    }
    Question::Wrong
}
