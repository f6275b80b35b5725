// Where a byte first stands that stands far off, as the end of a segment does: blocks without it are passed over whole,
// and behind these it is found by words.
ghost use Rattle.std.specs.Prelude.{◌≡◌};
ghost use Rattle.alphabet.specs.Bytes.{carriage_return};
ghost use Rattle.alphabet.specs.Lists.{find};

use crate::words::find_by_words;
use alphabet::{BLOCK, CARRIAGE_RETURN};

// The place of the first b, or the length where there is none: faster than `alphabet::find` where it is far off, and
// slower where it is near.
fn find_far(bytes: &[u8], b: u8) -> usize
    ensures { result ≡ find b bytes.now }
{
    let passed = alphabet::clear_blocks::<BLOCK, _>(bytes, |block| alphabet::is_without(block, b));
    passed + find_by_words(&bytes[passed..], b)
}

// The place of the first CR, which ends a segment, or the length where there is none. It is the one caller of the
// search above, which the compiler then makes for this byte alone.
pub fn find_return(bytes: &[u8]) -> usize
    ensures { result ≡ find carriage_return bytes.now }
{
    find_far(bytes, CARRIAGE_RETURN)
}
