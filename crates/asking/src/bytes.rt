// Bytes are copied to a place of a buffer: that is how lines are gathered and answers made.
ghost use Rattle.std.specs.Prelude.{◌≡◌, ◌++◌, ◌+◌, ◌≤◌, length, take};

// Copies `text` into `buffer` from place `at` on, and returns the place behind it.
pub fn put(buffer: &mut [u8], at: usize, text: &[u8]) -> usize
    requires { at + length text.now ≤ length buffer.old }
    ensures value { result ≡ at + length text.now }
    ensures buffer_after { take result buffer.new ≡ take at buffer.old ++ text.now }
{
    let end = at + text.len();
    buffer[at..end].copy_from_slice(text);
    end
}
