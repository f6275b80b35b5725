// Where a byte, or one of two, first stands, told of eight bytes together: they are taken as one number, and a bit of
// each says whether it is sought. Faster than byte by byte from the start, and than blocks where the byte is near.
ghost use Rattle.std.specs.Prelude.{◌≡◌, ◌≤◌, length};
ghost use Rattle.alphabet.specs.Lists.{first, find, either};
ghost use Rattle.search.specs.Words.{other_than, marks};

// How many bytes make a word.
const WORD: usize = 8;

const ONES: u64 = 0x0101010101010101;

const SEVENS: u64 = 0x7F7F7F7F7F7F7F7F;

const HIGHS: u64 = 0x8080808080808080;

// The highest bit of each byte of a word that is not b, and no other bit. No sum passes from one byte to the next.
fn other_than(word: u64, b: u8) -> u64
    ensures { result ≡ other_than word b }
{
    let x = word ^ ((b as u64) * ONES);
    (((x & SEVENS) + SEVENS) | x) & HIGHS
}

// The highest bit of each of eight bytes that is one or the other, and no other bit.
pub fn sought(bytes: &[u8; 8], one: u8, other: u8) -> u64
    ensures { result ≡ marks (either one other) bytes.now }
{
    let word = u64::from_le_bytes(*bytes);
    let neither = other_than(word, one) & other_than(word, other);
    neither ^ HIGHS
}

// The place of the first byte that is one or the other, byte by byte, where few are left.
pub fn find_two_of_few(bytes: &[u8], one: u8, other: u8) -> usize
    ensures within { result ≤ length bytes.now }
    ensures found { result ≡ first (either one other) bytes.now }
{
    alphabet::first_where(bytes, |byte| (one == byte) | (other == byte))
}

// The place of the first byte that is one or the other, or the length where there is none. It walks by what is left,
// and not over `as_chunks`, which takes more where the byte is near.
pub fn find_two_by_words(bytes: &[u8], one: u8, other: u8) -> usize
    ensures { result ≡ first (either one other) bytes.now }
{
    let mut rest = bytes;
    while let Some((word, after)) = rest.split_first_chunk::<WORD>() {
        let found = sought(word, one, other);
        if found != 0 {
            return bytes.len() - rest.len() + (found.trailing_zeros() / 8) as usize;
        }
        rest = after;
    }
    bytes.len() - rest.len() + find_two_of_few(rest, one, other)
}

// The place of the first b, or the length where there is none.
pub fn find_by_words(bytes: &[u8], b: u8) -> usize
    ensures { result ≡ find b bytes.now }
{
    find_two_by_words(bytes, b, b)
}
