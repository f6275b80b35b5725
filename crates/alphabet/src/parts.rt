// How bytes fall into parts at a separator: segments, fields, repetitions, components and subcomponents alike. Walks
// that go from part to part step by `find` instead, and cite the same laws; a lookup walks by starts (crate `element`).
ghost use Rattle.std.specs.Prelude.{◌≡◌, ◌+◌, ◌≤◌, length, drop};
ghost use Rattle.alphabet.specs.Lists.{find};
ghost use Rattle.alphabet.specs.Parts.{part_at};

use crate::bytes::find;

// Where a part stands, from `start` up to and without `end`.
#[derive(Clone, Copy, PartialEq, Eq)]
pub struct Part {
    pub start: usize,
    pub end: usize,
}

// Where the part that begins at `start` ends.
fn end_of(bytes: &[u8], separator: u8, start: usize) -> usize
    requires { start ≤ length bytes.now }
    ensures inside { result ≤ length bytes.now }
    ensures found { result ≡ start + find separator (drop start bytes.now) }
{
    start + find(&bytes[start..], separator)
}

// Where the part of the given index, from 0, stands, or that there are fewer parts. It reads no byte behind that part's
// end.
pub fn nth_part(bytes: &[u8], separator: u8, index: usize) -> Option<Part>
    ensures { result ≡ part_at separator bytes.now index }
{
    let mut start = 0;
    for _ in 0..index {
        let end = end_of(bytes, separator, start);
        if end == bytes.len() {
            return None;
        }
        start = end + 1;
    }
    let end = end_of(bytes, separator, start);
    Some(Part { start, end })
}
