// Messages off the wire: the frames of an MLLP link, read from pieces of any size into a buffer that the caller lends.
// The state goes in with each piece and comes back; the reader stops behind each frame and each dropped frame.
#![tactic(auto)]

mod feeding;
mod modes;
mod runs;
mod state;
mod steps;

pub use feeding::Fed;
pub use modes::Mode;
pub use state::{FrameState, most_dropped};
pub use steps::Stop;
