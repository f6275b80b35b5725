// What a byte may be, by document 01's 'Bytes and segments', where a byte first stands, and whether two texts are the
// same. The tests are free of branches and nested as their definitions are, so that they need no proof.
ghost use Rattle.std.specs.Prelude.{◌≡◌, ◌&&◌, ℕ, ◌%◌, ◌≤◌, leb, length, get_or};
ghost use Rattle.alphabet.specs.Bytes.{printable, allowed, not_allowed, capital, digit, hex_of, hex_said, hex_digit, is_null};
ghost use Rattle.alphabet.specs.Allowed.{height_of, turned_of};
ghost use Rattle.alphabet.specs.Lists.{first, find, same};

use crate::first::{clear_blocks, first_where};

// CR, which ends every segment.
pub const CARRIAGE_RETURN: u8 = 13;

// How many bytes are looked at together where a byte is sought that seldom stands there.
const WIDE: usize = 128;

// Printable ISO 8859/1: what may stand plainly in text.
pub fn is_printable(b: u8) -> bool
    ensures { result ≡ printable b }
{
    ((32 <= b) & (b <= 126)) | ((160 <= b) & (b <= 255))
}

// What may stand in a message.
pub fn is_allowed(b: u8) -> bool
    ensures { result ≡ allowed b }
{
    (b == CARRIAGE_RETURN) | (((32 <= b) & (b <= 126)) | ((160 <= b) & (b <= 255)))
}

pub fn is_capital(b: u8) -> bool
    ensures { result ≡ capital b }
{
    (65 <= b) & (b <= 90)
}

pub fn is_digit(b: u8) -> bool
    ensures { result ≡ digit b }
{
    (48 <= b) & (b <= 57)
}

// The number that a hex digit of either case says, or 16 for any other byte: for callers that know that it is one.
// Others ask `hex_digit_value`.
pub fn hex_value(b: u8) -> u8
    ensures { result ≡ hex_of b }
{
    if is_digit(b) {
        return b - 48;
    }
    if (65 <= b) & (b <= 70) {
        return b - 65 + 10;
    }
    if (97 <= b) & (b <= 102) {
        return b - 97 + 10;
    }
    16
}

// The number that a hex digit of either case says, or that the byte is none.
pub fn hex_digit_value(b: u8) -> Option<u8>
    ensures { result ≡ hex_said b }
{
    match b {
        b'0'..=b'9' => Some(b - b'0'),
        b'A'..=b'F' => Some(b - b'A' + 10),
        b'a'..=b'f' => Some(b - b'a' + 10),
        _ => None,
    }
}

// The capital hex digit of n's last four bits.
pub fn hex_digit(n: u8) -> u8
    ensures { result ≡ hex_digit (n % 16) }
{
    let low = n % 16;
    if low < 10 { 48 + low } else { 65 + (low - 10) }
}

// The byte at a place, or 0, which no message holds, past the end.
pub fn byte_at(bytes: &[u8], place: usize) -> u8
    ensures { result ≡ get_or bytes.now place 0 }
{
    bytes.get(place).copied().unwrap_or(0)
}

// Exactly two quotes, which is null.
pub fn is_null(bytes: &[u8]) -> bool
    ensures { result ≡ is_null bytes.now }
{
    bytes == b"\"\"".as_slice()
}

// Whether b is none of the bytes. Every byte is looked at and nothing branches, so that the compiler takes many at
// once.
pub fn is_without(bytes: &[u8], b: u8) -> bool
    ensures { result ≡ leb (length bytes.now) (find b bytes.now) }
{
    let mut without = true;
    for byte in bytes {
        without = without & (b != *byte);
    }
    without
}

// The place of the first b, or the length where there is none.
pub fn find(bytes: &[u8], b: u8) -> usize
    ensures { result ≡ find b bytes.now }
{
    first_where(bytes, |byte| b == byte)
}

// A number that is 32 or more for CR and for the bytes from 32 on, and for no others.
fn height(b: u8) -> u8
    ensures { result ≡ height_of b }
{
    if b == CARRIAGE_RETURN { 255 } else { b }
}

// A number that is over 222 for the bytes from 127 to 159, and for no others: 96 more, and from 0 again behind 255.
fn turned(b: u8) -> u8
    ensures { result ≡ turned_of b }
{
    if b < 160 { b + 96 } else { b - 160 }
}

// Whether all bytes may stand in a message. As in `is_without`, nothing branches: the least height and the most that
// is turned tell.
fn is_all_allowed(bytes: &[u8]) -> bool
    ensures { result ≡ leb (length bytes.now) (first not_allowed bytes.now) }
{
    let mut least: u8 = 255;
    let mut most: u8 = 0;
    for byte in bytes {
        least = least.min(height(*byte));
        most = most.max(turned(*byte));
    }
    (32 <= least) & (most <= 222)
}

// The place of the first byte that may not stand in a message, or the length where there is none, which is the usual
// case and told first.
pub fn first_not_allowed(bytes: &[u8]) -> usize
    ensures { result ≡ first not_allowed bytes.now }
{
    if is_all_allowed(bytes) {
        return bytes.len();
    }
    let passed = clear_blocks::<WIDE, _>(bytes, |block| is_all_allowed(block));
    passed + first_where(&bytes[passed..], |byte| !is_allowed(byte))
}

// Whether two texts are the same, byte for byte.
pub fn same(one: &[u8], other: &[u8]) -> bool
    ensures { result ≡ same one.now other.now }
{
    one == other
}
