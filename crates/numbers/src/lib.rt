// From bytes to a number: NM and SI, and the digits that they are written with. Raw bytes are judged, with no
// unescaping.
#![tactic(auto)]

mod digits;
mod marks;
mod numerals;

pub use digits::is_digits;
pub use marks::find_mark;
pub use numerals::{Number, before_point, check_nm, is_si, read_nm, read_si, si_value};
