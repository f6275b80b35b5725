// What may stand between two escape delimiters, and the bytes that it says: a letter of the table, or X and pairs of
// hex digits.
ghost use Rattle.std.specs.Prelude.{◌≡◌, true, ◌+◌, ◌≤◌, length};
ghost use Rattle.alphabet.specs.Hex.{all_hex, pairs_of};
ghost use Rattle.text.specs.Unescape.{known, meaning};
ghost use Rattle.alphabet.specs.Filling.{pasted};

use alphabet::Delimiters;
use escaping::LETTERS;
use plain::place_of;

// Whether what stands between two escape delimiters is known.
pub fn is_known(inside: &[u8]) -> bool
    ensures { result ≡ known inside.now }
{
    if inside.len() == 0 {
        return false;
    }
    let letter = inside[0];
    if inside.len() == 1 {
        return place_of(LETTERS, letter) < 5;
    }
    if letter != 88 {
        return false;
    }
    alphabet::all_hex(&inside[1..])
}

// Writes the bytes that pairs of digits say into the buffer from `at` on, and returns the place behind them.
fn put_pairs(digits: &[u8], buffer: &mut [u8], at: usize) -> usize
    requires { (all_hex digits.now ≡ true) × (at + length (pairs_of digits.now) ≤ length buffer.old) }
    ensures value { result ≡ at + length (pairs_of digits.now) }
    ensures buffer_after { buffer.new ≡ pasted buffer.old at (pairs_of digits.now) }
{
    let mut i = 0;
    let mut place = at;
    while i < digits.len() {
        let high = alphabet::hex_value(digits[i]);
        let low = alphabet::hex_value(digits[i + 1]);
        buffer[place] = high * 16 + low;
        place += 1;
        i += 2;
    }
    place
}

// Writes the bytes that a known sequence says into the buffer from `at` on, and returns the place behind them.
pub fn put_meaning(delimiters: Delimiters, inside: &[u8], buffer: &mut [u8], at: usize) -> usize
    requires { (known inside.now ≡ true)
        × (at + length (meaning delimiters.bytes inside.now) ≤ length buffer.old) }
    ensures value { result ≡ at + length (meaning delimiters.bytes inside.now) }
    ensures buffer_after { buffer.new
        ≡ pasted buffer.old at (meaning delimiters.bytes inside.now) }
{
    if inside.len() == 1 {
        let five = delimiters.bytes;
        let i = place_of(LETTERS, inside[0]);
        buffer[at] = five[i];
        return at + 1;
    }
    put_pairs(&inside[1..], buffer, at)
}
