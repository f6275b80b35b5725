// Where one of five bytes first stands, told of 32 bytes together: the tests are free of branches and every byte of a
// block is looked at, so that the compiler takes many bytes in one step. The same search ends, where it is told to, at
// bytes that are not printable.
#![tactic(auto)]

mod both;
mod far;
mod one;
mod two;
mod words;

ghost use Rattle.std.specs.Prelude.{◌≡◌, cond, ◌&&◌, ◌≤◌, ltb, length};
ghost use Rattle.alphabet.specs.Lists.{first, among};
ghost use Rattle.alphabet.specs.Bytes.{stops};

use alphabet::BLOCK;
pub use both::find_two;
pub use far::find_return;
pub use one::find_one;
pub use two::find_either;
pub use words::{find_by_words, find_two_by_words, sought};

// How many bytes a block has, as a byte.
const BLOCK_BYTE: u8 = 32;

// Whether the byte b is one of the five.
pub fn is_among(five: [u8; 5], b: u8) -> bool
    ensures { result ≡ among five b }
{
    five.contains(&b)
}

// Whether the search ends at the byte b.
fn is_stop(five: [u8; 5], unprintable: bool, b: u8) -> bool
    ensures { result ≡ stops unprintable five b }
{
    let one = is_among(five, b);
    (unprintable & !alphabet::is_printable(b)) | one
}

// The lesser of `least` and, where the test holds, `place`. Where it does not hold the place is put behind the block,
// by a sum, so that the compiler does the same for every byte and takes many at once.
fn nearer(test: bool, place: u8, least: u8) -> u8
    requires { (place ≤ 32) × (least ≤ 32) }
    ensures { result ≡ cond (test && ltb place least) place least }
{
    let further = if test { 0 } else { BLOCK_BYTE };
    (place + further).min(least)
}

// The place in a block at which the search ends, or the block's length. The places are counted in bytes, so that the
// compiler takes many at once.
fn first_of_block(block: &[u8; BLOCK], five: [u8; 5], unprintable: bool) -> usize
    ensures { result ≡ first (stops unprintable five) block.now }
{
    let mut least = BLOCK_BYTE;
    for i in 0..BLOCK_BYTE {
        let test = is_stop(five, unprintable, block[i as usize]);
        least = nearer(test, i, least);
    }
    least as usize
}

// The place of the first byte that is one of the five or, where `unprintable` says so, is not printable; the length
// where there is none.
pub fn first_stop(bytes: &[u8], five: [u8; 5], unprintable: bool) -> usize
    ensures { result ≡ first (stops unprintable five) bytes.now }
{
    let (blocks, rest) = bytes.as_chunks::<BLOCK>();
    for (i, block) in blocks.iter().enumerate() {
        let n = first_of_block(block, five, unprintable);
        if n < BLOCK {
            return i * BLOCK + n;
        }
    }
    bytes.len() - rest.len() + alphabet::first_where(rest, |byte| is_stop(five, unprintable, byte))
}

// The place of the first byte that is one of the five, or the length where there is none. A byte may stand twice among
// the five, where fewer are looked for.
pub fn find_among(bytes: &[u8], five: [u8; 5]) -> usize
    ensures { result ≡ first (among five) bytes.now }
{
    first_stop(bytes, five, false)
}
