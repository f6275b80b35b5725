// A number or a time asked of an element of a message: NM, SI, DT, TM and TS.
#![tactic(auto)]

mod asked;

pub use asked::{NoValue, Value, dt, nm, si, tm, ts};
