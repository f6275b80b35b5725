// Which bytes stand plainly in a text, and how far they go: what writing and reading a text share.
#![tactic(auto)]

mod runs;

pub use runs::{place_of, plain_run};
