// The frame reader called, and what it gave back put into an answer: one call with all that it says, or the events of
// the calls that a piece takes; and the state with the buffer, which end an answer. It is no part of the library that
// is shipped, so its functions require that there is room for what they put.
#![tactic(auto)]

pub mod calls;
pub mod events;
pub mod runs;
pub mod states;
