// A word that says a number: decimal digits, of a number that 64 bits hold. An empty word, any other byte and a larger
// number say nothing.
ghost use Rattle.std.specs.Prelude.{◌≡◌};
ghost use Rattle.asking.specs.Decimals.{number as Decimals·number};

// The number that a word says.
pub fn decode(word: &[u8]) -> Option<u64>
    ensures { result ≡ Decimals·number word.now }
{
    if word.is_empty() {
        return None;
    }
    let mut value: u64 = 0;
    for byte in word {
        if !byte.is_ascii_digit() {
            return None;
        }
        let digit = u64::from(byte - b'0');
        value = value.checked_mul(10)?.checked_add(digit)?;
    }
    Some(value)
}
