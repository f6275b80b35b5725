// Where one of two bytes first stands, for bytes that stand far off. Wide blocks are passed over by a quick look, which
// asks how near their bytes come to a mask and takes many in one step; where it cannot tell, blocks are looked through
// for both bytes, and the last of them byte by byte. The mask matters for speed alone.
ghost use Rattle.std.specs.Prelude.{◌≡◌, ◌≤◌, length};
ghost use Rattle.std.specs.Int.Bits.{bit_xor};
ghost use Rattle.alphabet.specs.Lists.{first, either};
ghost use Rattle.search.specs.Two.{near, Without};

use crate::words::find_two_of_few;
use alphabet::BLOCK;

// How many bytes a wide block has.
const WIDE: usize = 256;

// A bound so that both bytes are as near to the mask.
fn bound_of(one: u8, other: u8, mask: u8) -> u8
    ensures { (bit_xor one mask ≤ result) × (bit_xor other mask ≤ result) }
{
    (one ^ mask).max(other ^ mask)
}

// Whether every byte is farther from the mask than the bound. Every byte is looked at and nothing branches.
fn is_far(bytes: &[u8], mask: u8, bound: u8) -> bool
    ensures { Without result 0 (near mask bound) bytes.now }
{
    let mut least: u8 = 255;
    for byte in bytes {
        least = least.min(*byte ^ mask);
    }
    bound < least
}

// Whether the bytes from i on, fewer than a wide block, are far: told of the last wide block, some of whose bytes were
// looked at before.
fn is_far_behind(bytes: &[u8], mask: u8, bound: u8, i: usize) -> bool
    ensures { Without result i (near mask bound) bytes.now }
{
    if bytes.len() <= i {
        return true;
    }
    if bytes.len() < WIDE {
        return false;
    }
    let last = bytes.len() - WIDE;
    if i < last {
        return false;
    }
    is_far(&bytes[last..], mask, bound)
}

// A place at or before the first byte that is one or the other: blocks without both are passed over whole.
pub fn before_either(bytes: &[u8], one: u8, other: u8) -> usize
    ensures within { result ≤ length bytes.now }
    ensures before { result ≤ first (either one other) bytes.now }
{
    alphabet::clear_blocks::<BLOCK, _>(bytes, |block| {
        let without_one = alphabet::is_without(block, one);
        let without_other = alphabet::is_without(block, other);
        without_one & without_other
    })
}

// The place of the first byte that is one or the other, or the length where there is none. It is found fast where other
// bytes are seldom as near to the mask as these two.
pub fn find_either(bytes: &[u8], one: u8, other: u8, mask: u8) -> usize
    ensures { result ≡ first (either one other) bytes.now }
{
    let bound = bound_of(one, other, mask);
    let far = alphabet::clear_blocks::<WIDE, _>(bytes, |block| is_far(block, mask, bound));
    if is_far_behind(bytes, mask, bound, far) {
        return bytes.len();
    }
    let closer = far + before_either(&bytes[far..], one, other);
    closer + find_two_of_few(&bytes[closer..], one, other)
}
