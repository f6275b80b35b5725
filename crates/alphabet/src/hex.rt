// Pairs of hex digits, which say bytes in escapes and in questions.
ghost use Rattle.std.specs.Prelude.{◌≡◌};
ghost use Rattle.alphabet.specs.Hex.{all_hex};

// Pairs of hex digits and nothing else.
pub fn all_hex(digits: &[u8]) -> bool
    ensures { result ≡ all_hex digits.now }
{
    (digits.len() % 2 == 0) && digits.iter().all(|digit| digit.is_ascii_hexdigit())
}
