// An element in an answer: the number of the refusal, its place and the element's state, and a time, part by part. It
// serves the program that answers questions and is no part of the library that is shipped. An answer begins with the
// element, so its functions put it in the place of whatever was put before.
#![tactic(auto)]

mod figures;
mod states;

pub use figures::put_time;
pub use states::{put_begin, put_begin_of};
