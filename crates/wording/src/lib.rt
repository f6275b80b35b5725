// What the command says in words: a refusal by its number, what could have stood at a place, the state of an element,
// and what it can be asked itself. Each function is lent the output that it prints to.
#![tactic(auto)]

mod names;
mod refusals;
mod states;
mod usage;

// The most bytes of a message that the command takes, in a file or in a frame. The library takes more.
pub const LONGEST_MESSAGE: usize = 65_536;

pub use names::{letters_of, print_could_stand};
pub use refusals::{
    print_numbered, print_refused, print_refused_text, print_too_long, print_words,
};
pub use states::{print_behind, print_state};
pub use usage::{print_usage, print_version};
