// Writing a text: what bytes are written as inside a field. It is written to the front of a buffer that the caller
// lends, and a refusal leaves the buffer as it was.
#![tactic(auto)]

mod blocks;
mod pieces;
mod writing;

pub use pieces::LETTERS;
pub use writing::{check_delimiters, escape};
