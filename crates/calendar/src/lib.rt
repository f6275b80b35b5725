// Dates, clocks and offsets: what was sent of a time, and whether there is such a day, such an hour and such an offset.
#![tactic(auto)]

mod dates;
mod figures;

pub use dates::{is_clock, is_date, is_offset, is_time};
pub use figures::{Clock, Date, Fraction, Offset, Sign, Time};
