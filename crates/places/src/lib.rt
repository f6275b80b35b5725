// Where the parts of a message stand, and the address by which people name them; and the lines of a text. Places are
// looked for without a proof that a message was read: whoever draws or shows has any bytes.
#![tactic(auto)]

mod addresses;
mod lines;
mod parts;

pub use addresses::{print_address, print_found, print_numbered};
pub use lines::print_lines;
pub use parts::{
    Segment, Walk, count_segments, piece, segment_around, segment_bytes, segment_named, segments,
    which_of,
};
