// How a DT, a TM and a TS are written: how many digits stand in front, behind a point and behind a sign. Which figures
// they say, and whether there is such a time, is not asked here.
#![tactic(auto)]

mod layouts;
mod parts;

pub use layouts::{
    Form, is_dt_form, is_dt_length, is_fraction, is_front_length, is_time_form, is_zone, to_seconds,
};
pub use parts::{Parts, parts_of};
