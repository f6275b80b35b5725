// The questions about messages off the wire: `frame`, one call of the frame reader from any state, and `frames`, all
// the calls that pieces take from the start. The words are decoded, the reader is called, and the answer ends with the
// state and the whole buffer. An answer has its own room, and a line of which a piece says more than the lent buffer
// holds is no question: so no room is required.
#![tactic(auto)]

mod calls;
mod pieces;
mod verbs;

pub use verbs::Asked;
