// Writing into a buffer that the caller lends. Whoever writes has measured before, so that there is room; where there
// is none nothing is written.
ghost use Rattle.std.specs.Prelude.{◌≡◌, ◌+◌, ◌≤◌, length, take, drop};
ghost use Rattle.alphabet.specs.Filling.{pasted, put_at, behind};

// How many bytes are copied together.
const STRIDE: usize = 16;

// Copies the source into the buffer from `at` on, and returns the place behind it.
pub fn put(buffer: &mut [u8], at: usize, source: &[u8]) -> usize
    ensures value { result ≡ behind (length buffer.old) at (length source.now) }
    ensures buffer_after { buffer.new ≡ put_at buffer.old at source.now }
{
    if buffer.len() < at {
        return at;
    }
    if buffer.len() - at < source.len() {
        return at;
    }
    let mut i = 0;
    let mut place = at;
    while i < source.len() {
        buffer[place] = source[i];
        place += 1;
        i += 1;
    }
    place
}

// So many bytes of the source, from a place on. They are held before they are written, so that the compiler takes them
// in one step wherever the buffer lies.
fn stride_from(source: &[u8], from: usize) -> [u8; STRIDE]
    requires { from + 16 ≤ length source.now }
    ensures { result ≡ take 16 (drop from source.now) }
{
    let mut stride = [0; STRIDE];
    let mut i = 0;
    while i < STRIDE {
        stride[i] = source[from + i];
        i += 1;
    }
    stride
}

// Copies them into the buffer from `at` on.
fn put_stride(buffer: &mut [u8], at: usize, source: &[u8], from: usize)
    requires { (at + 16 ≤ length buffer.old) × (from + 16 ≤ length source.now) }
    ensures { buffer.new ≡ pasted buffer.old at (take 16 (drop from source.now)) }
{
    let stride = stride_from(source, from);
    let mut i = 0;
    while i < STRIDE {
        buffer[at + i] = stride[i];
        i += 1;
    }
}

// The same as `put`, for a source of some dozens of bytes or more: faster there, and slower where it is short. The last
// bytes are copied with some before them, which were copied already.
pub fn put_long(buffer: &mut [u8], at: usize, source: &[u8]) -> usize
    ensures value { result ≡ behind (length buffer.old) at (length source.now) }
    ensures buffer_after { buffer.new ≡ put_at buffer.old at source.now }
{
    if source.len() < STRIDE {
        return put(buffer, at, source);
    }
    if buffer.len() < at {
        return at;
    }
    if buffer.len() - at < source.len() {
        return at;
    }
    let mut i = 0;
    while STRIDE <= source.len() - i {
        put_stride(buffer, at + i, source, i);
        i += STRIDE;
    }
    let end = at + source.len();
    put_stride(buffer, end - STRIDE, source, source.len() - STRIDE);
    end
}
