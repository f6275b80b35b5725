// What every other crate shares: what a byte may be, the five delimiters, the refusals and the
// fault that carries one, the limits, how bytes fall into parts at a separator, and how a buffer is filled.
#![tactic(auto)]

mod answers;
mod bytes;
mod delimiters;
mod filling;
mod first;
mod hex;
mod limits;
mod parts;

pub use answers::{Fault, Refusal, fails_if};
pub use bytes::{
    CARRIAGE_RETURN, byte_at, find, first_not_allowed, hex_digit, hex_digit_value, hex_value,
    is_allowed, is_capital, is_digit, is_null, is_printable, is_without, same,
};
pub use delimiters::{Delimiters, first_wrong_delimiter, is_permitted};
pub use filling::{put, put_long};
pub use first::{BLOCK, clear_blocks, first_where};
pub use hex::all_hex;
pub use limits::{id_limit, message_limit, segment_limit};
pub use parts::{Part, nth_part};
