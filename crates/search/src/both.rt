// Where one of two bytes first stands, for bytes that mostly stand near, and at times far off: by words first, and then
// over blocks without either.
ghost use Rattle.std.specs.Prelude.{◌≡◌};
ghost use Rattle.alphabet.specs.Lists.{first, either};

use crate::two::before_either;
use crate::words::find_two_by_words;

// How many bytes are looked at by words before blocks are.
const NEAR: usize = 64;

// The same from far off.
fn find_two_far(bytes: &[u8], one: u8, other: u8) -> usize
    ensures { result ≡ first (either one other) bytes.now }
{
    let passed = before_either(bytes, one, other);
    passed + find_two_by_words(&bytes[passed..], one, other)
}

// The place of the first byte that is one or the other, or the length where there is none.
pub fn find_two(bytes: &[u8], one: u8, other: u8) -> usize
    ensures { result ≡ first (either one other) bytes.now }
{
    let near = bytes.len().min(NEAR);
    let i = find_two_by_words(&bytes[..near], one, other);
    if i < near {
        return i;
    }
    near + find_two_far(&bytes[near..], one, other)
}
