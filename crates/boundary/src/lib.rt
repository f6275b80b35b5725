// The library as C calls it: numbers and slices in, one struct of numbers out. Each function calls one function of the
// library and says the same as it does; nothing is written but the buffer that is lent. Any lengths and any numbers may
// be handed in. The crate boundary_c exports each of them to C.
#![tactic(auto)]

mod answers;
mod elements;
mod framing;
mod judges;
mod limits;
mod lists;
mod segment;
mod texts;

pub use answers::{CAnswer, turrethog_read};
pub use elements::{
    turrethog_dt, turrethog_find, turrethog_nm, turrethog_si, turrethog_tm, turrethog_ts,
};
pub use framing::{CFed, CFrameState, turrethog_feed};
pub use judges::{
    CStructure, CVerdict, turrethog_could_stand, turrethog_structure, turrethog_verdict,
};
pub use limits::{
    turrethog_id_limit, turrethog_message_limit, turrethog_segment_limit, turrethog_version,
};
pub use lists::turrethog_leaves;
pub use segment::{turrethog_segment, turrethog_segments};
pub use texts::{turrethog_acknowledge, turrethog_escape, turrethog_format, turrethog_unescape};
