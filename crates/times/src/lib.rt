// From bytes to a time: DT, TM and TS. Raw bytes are judged, with no unescaping.
#![tactic(auto)]

mod figures;
mod judging;
mod moments;

pub use judging::{is_dt, is_tm, is_ts};
pub use moments::{read_dt, read_tm, read_ts};
