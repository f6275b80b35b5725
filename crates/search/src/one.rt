// Where one byte first stands, for a byte that stands some dozens of bytes off, as the next escape of a text does.
// Blocks without it are passed over, and of the block that has it a half and a quarter, so that few bytes are left to
// be looked at one by one.
ghost use Rattle.std.specs.Prelude.{◌≡◌, ◌≤◌, length};
ghost use Rattle.alphabet.specs.Lists.{find};

use alphabet::BLOCK;

// The place behind the n bytes from i on, where they are there and none of them is b; else i.
fn past(bytes: &[u8], b: u8, i: usize, n: usize) -> usize
    requires { i ≤ find b bytes.now }
    ensures { result ≤ find b bytes.now }
{
    if bytes.len() - i < n {
        return i;
    }
    if !alphabet::is_without(&bytes[i..i + n], b) {
        return i;
    }
    i + n
}

// The place of the first b in a block or less, or the length where there is none.
fn find_within(bytes: &[u8], b: u8) -> usize
    ensures within { result ≤ length bytes.now }
    ensures found { result ≡ find b bytes.now }
{
    let half = past(bytes, b, 0, 16);
    let start = past(bytes, b, half, 8);
    start + alphabet::find(&bytes[start..], b)
}

// The place of the first b, or the length where there is none.
pub fn find_one(bytes: &[u8], b: u8) -> usize
    ensures { result ≡ find b bytes.now }
{
    let passed = alphabet::clear_blocks::<BLOCK, _>(bytes, |block| alphabet::is_without(block, b));
    passed + find_within(&bytes[passed..], b)
}
