// A word that says bytes: `-` says none, and otherwise each pair of hex digits says one. They are decoded into a buffer
// that the caller lends, and a word that says more than fits says nothing.
ghost use Rattle.std.specs.Prelude.{◌/◌, ◌≡◌, ◌≤◌, true, length, take, Some, None, IfSome, IfNone, option_map};
ghost use Rattle.alphabet.specs.Hex.{all_hex, pairs_of};
ghost use Rattle.asking.specs.Hex.{said, fitting};

// Writes the bytes that pairs of hex digits say over a buffer of as many bytes.
fn put_pairs(word: &[u8], buffer: &mut [u8])
    requires word_value { all_hex word.now ≡ true }
    requires as_long { length word.now / 2 ≡ length buffer.old }
    ensures { buffer.new ≡ pairs_of word.now }
{
    for place in 0..buffer.len() {
        let high = alphabet::hex_value(word[2 * place]);
        let low = alphabet::hex_value(word[2 * place + 1]);
        buffer[place] = high * 16 + low;
    }
}

// The digits of a word that says bytes, of which `-` has none. They are judged here, so that the writing loop has
// nothing to refuse.
fn digits_of(word: &[u8]) -> Option<&[u8]>
    ensures said { said word.now ≡ option_map (λ digits. pairs_of digits.now) result }
    ensures pairs { IfSome result (λ digits. all_hex digits.now ≡ true) }
{
    if alphabet::same(word, b"-") {
        return Some(&word[..0]);
    }
    if word.is_empty() {
        return None;
    }
    if !alphabet::all_hex(word) {
        return None;
    }
    Some(word)
}

// Decodes a word to the front of a buffer, where the bytes that it says stand then, and tells how many they are.
pub fn decode(word: &[u8], buffer: &mut [u8]) -> Option<usize>
    ensures within { IfSome result (λ count. count ≤ length buffer.new) }
    ensures some { IfSome result (λ count. fitting (length buffer.old) (said word.now) ≡ Some (take count buffer.new)) }
    ensures none { IfNone result (fitting (length buffer.old) (said word.now) ≡ None) }
{
    let digits = digits_of(word)?;
    let count = digits.len() / 2;
    if buffer.len() < count {
        return None;
    }
    put_pairs(digits, &mut buffer[..count]);
    Some(count)
}

// Decodes a word to the front of a buffer, and lends the bytes that it says and the buffer behind them. Once they are
// given back nothing is known of the buffer.
pub fn lend_decoded<'a>(word: &[u8], buffer: &'a mut [u8]) -> Option<(&'a [u8], &'a mut [u8])>
    ensures some { IfSome result (λ lent. fitting (length buffer.old) (said word.now) ≡ Some lent.0.now) }
    ensures none { IfNone result (fitting (length buffer.old) (said word.now) ≡ None) }
{
    let digits = digits_of(word)?;
    let (bytes, behind) = buffer.split_at_mut_checked(digits.len() / 2)?;
    put_pairs(digits, bytes);
    Some((&*bytes, behind))
}
