// The ERR segment of an acknowledgement, which tells the sender what is wrong with his message and where: segment,
// sequence, field and a code. It goes by the verdict's record, which is the first fault in the judges' order.
#![tactic(auto)]

mod codes;
mod lines;
mod locating;
mod numerals;
mod places;

pub use lines::put_segment;
