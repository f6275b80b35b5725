// Bytes that stand plainly in a text: neither a delimiter nor one that may not stand in a field.
ghost use Rattle.std.specs.Prelude.{◌≡◌};
ghost use Rattle.alphabet.specs.Lists.{find, first};
ghost use Rattle.plain.specs.Plain.{special};

use alphabet::Delimiters;

// The place of b among five bytes, as the delimiters or their letters, or 5.
pub fn place_of(five: [u8; 5], b: u8) -> usize
    ensures { result ≡ find b five }
{
    alphabet::find(&five, b)
}

// How many bytes at the front of a text stand plainly.
pub fn plain_run(delimiters: Delimiters, text: &[u8]) -> usize
    ensures { result ≡ first (special delimiters.bytes) text.now }
{
    let five = delimiters.bytes;
    search::first_stop(text, five, true)
}
