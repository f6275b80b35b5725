// What `check` and `frames` find, as objects of JSON for another program: one object a line, with the same members in
// the same order. docs/JSON.md tells of each.
#![tactic(auto)]

mod frames;
mod names;
mod verdicts;

pub use frames::{Counts, print_dropped, print_frame, print_open, print_tally};
use terminal::Output;
pub use verdicts::print_words;

// Prints the object of `check`: the verdict on the message that a file holds. Returns whether it is accepted.
pub fn print_check(out: &mut Output, file: &[u8], message: &[u8]) -> bool {
    members::open(out, file);
    let is_accepted = verdicts::print_verdict(out, message);
    members::close(out);
    is_accepted
}

// Prints the object of `check` for a file that has more bytes than the command takes.
pub fn print_too_long(out: &mut Output, file: &[u8]) {
    members::open(out, file);
    verdicts::print_too_long(out);
    members::close(out);
}
