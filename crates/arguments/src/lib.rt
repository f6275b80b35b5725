// What the words of a command line ask for: the command with its option, and where its files stand; and whether the
// words behind a file say an address, or a time and an ID. Words are counted from 1.
#![tactic(auto)]

mod commands;
mod questions;
mod words;
mod wrong;

pub use commands::Command;
pub use questions::{Asked, Question, question_at};
