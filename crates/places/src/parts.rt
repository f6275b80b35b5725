// The segments of a message, and the piece of bytes between two places. A piece is had of any two numbers, so that
// whoever draws owes no proof that they are places.
ghost use Rattle.std.specs.Prelude.{◌≡◌, ◌-◌, ◌≤◌, length};
ghost use Rattle.std.specs.Iterator.{at_most};

use alphabet::{CARRIAGE_RETURN, Part};

// A segment of a message, or what stands behind the last CR: its number, from 0, the place where it begins, and its
// bytes, without the CR that ends it.
#[derive(Clone, Copy)]
pub struct Segment<'a> {
    pub number: usize,
    pub start: usize,
    pub bytes: &'a [u8],
}

impl<'a> Segment<'a> {
    // Its name, or as much of it as there is.
    pub fn name(self) -> &'a [u8]
        ensures { length result.now ≤ 3 }
    {
        piece(self.bytes, 0, 3)
    }
}

// The segments of a message in their order: those that are still to come, and the number and the place of the first.
#[derive(Drop)]
pub struct Walk<'a> {
    number: usize,
    start: usize,
    rest: &'a [u8],
}

impl<'a> Iterator for Walk<'a> {
    type Item = Segment<'a>;

    ghost remaining = { λ s. at_most (length s.rest.now) };

    fn next(&mut self) -> Option<Segment<'a>> {
        let rest = self.rest;
        if rest.is_empty() {
            return None;
        }
        let end = alphabet::find(rest, CARRIAGE_RETURN);
        let segment = Segment {
            number: self.number,
            start: self.start,
            bytes: piece(rest, 0, end),
        };
        let passed = end.saturating_add(1);
        self.number = self.number.saturating_add(1);
        self.start = self.start.saturating_add(passed);
        self.rest = piece(rest, passed, rest.len());
        Some(segment)
    }
}

// The segments of a message: one for each CR, and one for what stands behind the last, where that is anything.
pub fn segments(message: &[u8]) -> Walk<'_>
    ensures bytes { result.rest.now ≡ message.now }
    ensures number { result.number ≡ 0 }
    ensures place { result.start ≡ 0 }
{
    Walk {
        number: 0,
        start: 0,
        rest: message,
    }
}

// The bytes from `start` up to and without `end`, and none where these are no places of the bytes.
pub fn piece(bytes: &[u8], start: usize, end: usize) -> &[u8]
    ensures { length result.now ≤ end - start }
{
    bytes.get(start..end).unwrap_or(&[])
}

// The segment in which the byte at a place stands, or which it ends; the last for a place behind the message.
pub fn segment_around(message: &[u8], place: usize) -> Segment<'_> {
    let before = &message[..place.min(message.len())];
    let start = before
        .iter()
        .rposition(|byte| *byte == CARRIAGE_RETURN)
        .map_or(0, |last| last + 1);
    let rest = &message[start..];
    Segment {
        number: count_segments(before),
        start,
        bytes: piece(rest, 0, alphabet::find(rest, CARRIAGE_RETURN)),
    }
}

// How many segments a message has: one for each CR. They are walked along: counted over the bytes one by one, `check` of
// a long message took half as many instructions again.
pub fn count_segments(message: &[u8]) -> usize {
    let is_ended = message.is_empty() || message.ends_with(&[CARRIAGE_RETURN]);
    segments(message)
        .count()
        .saturating_sub(usize::from(!is_ended))
}

// The bytes of the segment of a number, and none where there is no such segment.
pub fn segment_bytes(message: &[u8], number: usize) -> &[u8] {
    let part = reading::segment_at(message, number);
    let Some(Part { start, end }) = part else {
        return &[];
    };
    piece(message, start, end)
}

// How many segments of a message have a name.
fn count_named(message: &[u8], name: &[u8]) -> usize {
    segments(message)
        .filter(|segment| segment.name() == name)
        .count()
}

// Which of its name a segment of a message is, the first being 1, and 0 where no other has its name.
pub fn which_of(message: &[u8], segment: Segment) -> usize {
    let name = segment.name();
    if count_named(message, name) < 2 {
        return 0;
    }
    count_named(piece(message, 0, segment.start), name).saturating_add(1)
}

// The number of the segment of a name that is the first, the second or another of it; that of none, the count of the
// segments, where there are not so many.
// The count is no segment's number, so that an address with it is refused as any other that is not there.
pub fn segment_named(message: &[u8], name: &[u8], which: usize) -> usize {
    segments(message)
        .filter(|segment| segment.name() == name)
        .nth(which.saturating_sub(1))
        .map_or_else(|| segments(message).count(), |segment| segment.number)
}
