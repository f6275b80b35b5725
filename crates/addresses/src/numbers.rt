// The number that decimal digits say.

// The number that a word of decimal digits says. Other bytes say none, nor does a value past 64 bits.
pub fn number_of(word: &[u8]) -> Option<usize> {
    if word.is_empty() {
        return None;
    }
    let mut value = 0usize;
    for byte in word {
        if !alphabet::is_digit(*byte) {
            return None;
        }
        let digit = usize::from(alphabet::hex_value(*byte));
        value = value.checked_mul(10)?.checked_add(digit)?;
    }
    Some(value)
}
