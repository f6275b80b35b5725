// What one byte of a text is written as: a delimiter by its letter, a byte that may not stand plainly by its hex
// digits, and any other byte plainly.
ghost use Rattle.std.specs.Prelude.{◌≡◌, ◌+◌, ◌≤◌, length};
ghost use Rattle.escaping.specs.Escape.{escape_byte};
ghost use Rattle.alphabet.specs.Filling.{pasted};

use alphabet::Delimiters;

// The letter of each delimiter, in the delimiters' order: F S R E T.
pub const LETTERS: [u8; 5] = [70, 83, 82, 69, 84];

// Writes what the byte b is written as into the buffer from `at` on, and returns the place behind it.
pub fn put_written(delimiters: Delimiters, b: u8, buffer: &mut [u8], at: usize) -> usize
    requires { at + length (escape_byte delimiters.bytes b) ≤ length buffer.old }
    ensures value { result ≡ at + length (escape_byte delimiters.bytes b) }
    ensures buffer_after { buffer.new ≡ pasted buffer.old at (escape_byte delimiters.bytes b) }
{
    let five = delimiters.bytes;
    let mark = five[3];
    let i = plain::place_of(five, b);
    if i < 5 {
        buffer[at] = mark;
        buffer[at + 1] = LETTERS[i];
        buffer[at + 2] = mark;
        return at + 3;
    }
    if alphabet::is_printable(b) {
        buffer[at] = b;
        return at + 1;
    }
    buffer[at] = mark;
    buffer[at + 1] = 88;
    buffer[at + 2] = alphabet::hex_digit(b / 16);
    buffer[at + 3] = alphabet::hex_digit(b);
    buffer[at + 4] = mark;
    at + 5
}
