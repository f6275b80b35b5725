// Where a byte that passes a test first stands, and how blocks without one are passed over: what the searches share,
// here and in the crate `search`.
ghost use Rattle.std.specs.Prelude.{◌≡◌, ◌<◌, ◌≤◌, ℕ, Bool, length};
ghost use Rattle.std.specs.Fn.{FnReturnsAt};
ghost use Rattle.alphabet.specs.Lists.{first, Tells, Clears};

// How many bytes are looked at together.
pub const BLOCK: usize = 32;

// The place of the first byte that passes, or the length where none does.
pub fn first_where<F: Fn(u8) -> bool>(bytes: &[u8], test: F) -> usize
    requires { F.IsAlwaysCallable test }
    ensures within { result ≤ length bytes.now }
    ensures found { (passes : ℕ → Bool) → Tells (F.post test) passes → result ≡ first passes bytes.now }
{
    bytes.iter().position(|b| test(*b)).unwrap_or(bytes.len())
}

// A place at or before the first byte that is sought: blocks of N bytes without it, as `is_clear` tells, are passed
// over whole.
pub fn clear_blocks<const N: usize, F: Fn(&[u8]) -> bool>(bytes: &[u8], is_clear: F) -> usize
    requires size { (0 < N) × (N < 65536) }
    requires callable { F.IsAlwaysCallable is_clear }
    ensures within { result ≤ length bytes.now }
    ensures before { (sought : ℕ → Bool) → Clears (FnReturnsAt F.Fn is_clear) N sought
        → result ≤ first sought bytes.now }
{
    let (blocks, rest) = bytes.as_chunks::<N>();
    for (i, block) in blocks.iter().enumerate() {
        if !is_clear(block) {
            return i * N;
        }
    }
    bytes.len() - rest.len()
}
