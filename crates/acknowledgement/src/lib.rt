// The acknowledgement of a message, which tells its sender whether it was accepted: written from his own header, the
// caller's time and ID, and the verdict. Any bytes may be handed in, and a refusal writes nothing.
#![tactic(auto)]

mod acknowledging;
mod pieces;
mod sender;

pub use acknowledging::acknowledge;
