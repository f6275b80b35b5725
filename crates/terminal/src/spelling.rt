// How bytes are spelt in printable ASCII: which stand as they are, and what stands for each other. Whoever reads what
// was written meets no control byte in any spelling, since each one proves that of itself.
ghost use Rattle.std.specs.Prelude.{◌≡◌, ◌≤◌, ℕ, List, Bool, true, not, length, take};
ghost use Rattle.alphabet.specs.Lists.{first};
ghost use Rattle.terminal.specs.Terminal.{plain, in_braces, Visible, AllVisible};
ghost use Rattle.terminal.specs.Visible.{plain_visible, all_braces_visible};

// What stands for a byte that does not stand as it is: so many bytes from the front.
// An array with a length, for no heap is used.
#[derive(Clone, Copy)]
pub struct Spelt {
    pub text: [u8; 6],
    pub length: usize,
    ghost fits: { length ≤ 6 },
}

impl Spelt {
    // Those bytes.
    pub fn bytes(&self) -> &[u8]
        ensures { result.now ≡ take self.now.length self.now.text }
    {
        &self.text[..self.length]
    }
}

// A way to spell bytes: all that it writes is printable ASCII.
pub trait Spelling {
    ghost plain: { ℕ → Bool };

    ghost spelt: { ℕ → List ℕ };

    // Whether a byte stands as it is.
    fn is_plain(byte: u8) -> bool
        ensures { result ≡ plain byte };

    // What stands for a byte that does not.
    fn spelt(byte: u8) -> Spelt
        ensures { take result.length result.text ≡ spelt byte };

    ghost plain_seen: { (b : ℕ) → plain b ≡ true → Visible b };

    ghost spelt_seen: { (b : ℕ) → AllVisible (spelt b) };
}

// How many bytes from the front on stand as they are.
pub fn plain_run<S: Spelling>(bytes: &[u8]) -> usize
    ensures run { result ≡ first (λ b. not (S.plain b)) bytes.now }
    ensures bound { result ≤ length bytes.now }
{
    for (i, byte) in bytes.iter().enumerate() {
        if !S::is_plain(*byte) {
            return i;
        }
    }
    bytes.len()
}

// The spelling for people: printable ASCII, but for an opening brace; and any other byte as a brace, two hex digits and
// a brace.
pub struct InBraces;

impl Spelling for InBraces {
    ghost plain = { plain };

    ghost spelt = { in_braces };

    ghost plain_seen = { plain_visible };

    ghost spelt_seen = { all_braces_visible };

    fn is_plain(byte: u8) -> bool {
        ((32 <= byte) & (byte <= 126)) & !(byte == 123)
    }

    fn spelt(byte: u8) -> Spelt {
        let high = alphabet::hex_digit(byte / 16);
        let low = alphabet::hex_digit(byte);
        Spelt {
            text: [123, high, low, 125, 0, 0],
            length: 4,
        }
    }
}
