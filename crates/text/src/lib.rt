// Reading a text: what bytes that stand in a field say. It is written to the front of a buffer that the caller lends,
// and a refusal leaves the buffer as it was.
#![tactic(auto)]

mod sequences;
mod unescaping;

pub use sequences::is_known;
pub use unescaping::{check_text, unescape};
