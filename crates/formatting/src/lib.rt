// Formatted text: the plain lines that a text with commands becomes. They are written to the front of a buffer that the
// caller lends, and a refusal leaves the buffer as it was.
#![tactic(auto)]

mod bytes;
mod formatting;
mod laying;
mod orders;
mod page;
mod words;
mod writing;

pub use formatting::format;
