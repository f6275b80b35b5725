// How many bytes a text is written as, told of many bytes at once: the sum is free of branches, so that the compiler
// takes many bytes in one step.
ghost use Rattle.std.specs.Prelude.{◌≡◌, ◌≤◌, length};
ghost use Rattle.escaping.specs.Escape.{escape_byte, escape_bytes};

use alphabet::Delimiters;

// How many bytes the byte b is written as.
fn written_length(delimiters: Delimiters, b: u8) -> u8
    ensures { result ≡ length (escape_byte delimiters.bytes b) }
{
    let five = delimiters.bytes;
    let delimiter = search::is_among(five, b);
    let plain = alphabet::is_printable(b);
    if delimiter {
        return 3;
    }
    if plain { 1 } else { 5 }
}

// How many bytes a block, or less than one, is written as: five for each at most, so that the sum is counted in bytes.
pub fn block_length(delimiters: Delimiters, block: &[u8]) -> usize
    requires { length block.now ≤ 32 }
    ensures { result ≡ length (escape_bytes delimiters.bytes block.now) }
{
    let mut n: u8 = 0;
    for b in block {
        n += written_length(delimiters, *b);
    }
    usize::from(n)
}
