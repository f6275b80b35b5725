// The library's answers about elements and segments as C sees them: structs of numbers, and how each answer becomes one.
// crates/boundary, which C calls, hands them out.
#![tactic(auto)]

mod elements;
mod segment;

pub use elements::{CClock, CDate, CElement, CNumber, COffset, CTime, address_of};
pub use segment::CSegment;
