// The delimiters of a message and where its segments stand. They are read from the message and never assumed.
ghost use Rattle.std.specs.Prelude.{◌≡◌, ◌+◌, ltb, length, drop};
ghost use Rattle.alphabet.specs.Bytes.{carriage_return};
ghost use Rattle.alphabet.specs.Lists.{find};
ghost use Rattle.alphabet.specs.Parts.{part_at, began};
ghost use Rattle.reading.specs.Segments.{delimiters_of, segment_at, name_of};

use alphabet::{Delimiters, Part};

// Bytes 3 to 7; 0 stands for a byte that is not there, and 0 is no delimiter.
pub fn delimiters_of(message: &[u8]) -> Delimiters
    ensures { result.bytes ≡ delimiters_of message.now }
{
    let field = alphabet::byte_at(message, 3);
    let component = alphabet::byte_at(message, 4);
    let repetition = alphabet::byte_at(message, 5);
    let escape = alphabet::byte_at(message, 6);
    let subcomponent = alphabet::byte_at(message, 7);
    Delimiters {
        bytes: [field, component, repetition, escape, subcomponent],
    }
}

// The place of the CR that ends the segment which begins at `start`, or the message's end where there is none; from
// past the end it is `start` itself. A walk over the segments goes on behind it.
pub fn segment_end(message: &[u8], start: usize) -> usize
    ensures { result ≡ start + find carriage_return (drop start message.now) }
{
    if message.len() <= start {
        return start;
    }
    start + search::find_return(&message[start..])
}

// Where the part of the given index, from 0, of the bytes split at CR begins; each CR is sought as what stands far off.
fn line_start(message: &[u8], index: usize) -> Option<usize>
    ensures { result ≡ began (part_at carriage_return message.now index) }
{
    let mut begin = 0;
    for _ in 0..index {
        let end = segment_end(message, begin);
        if message.len() <= end {
            return None;
        }
        begin = end + 1;
    }
    Some(begin)
}

// Whether a CR stands at `start` or behind. A message that was read ends in CR: its last byte tells, and none is sought.
fn is_ended(message: &[u8], start: usize) -> bool
    ensures { result ≡ ltb (start + find carriage_return (drop start message.now)) (length message.now) }
{
    if message.len() <= start {
        return false;
    }
    if message[message.len() - 1] == alphabet::CARRIAGE_RETURN {
        return true;
    }
    segment_end(message, start) < message.len()
}

// Where the segment of the given index, from 0, begins. What stands behind the last CR is no segment.
pub fn segment_start(message: &[u8], index: usize) -> Option<usize>
    ensures { result ≡ began (segment_at message.now index) }
{
    let start = line_start(message, index)?;
    if is_ended(message, start) {
        Some(start)
    } else {
        None
    }
}

// Where the segment of the given index, from 0, stands, without its CR.
pub fn segment_at(message: &[u8], index: usize) -> Option<Part>
    ensures { result ≡ segment_at message.now index }
{
    let start = segment_start(message, index)?;
    let end = segment_end(message, start);
    Some(Part { start, end })
}

// The name of a segment, its first three bytes, as one number in base 256.
pub fn name_of(segment: &[u8]) -> u32
    ensures { result ≡ name_of segment.now }
{
    let first = alphabet::byte_at(segment, 0) as u32;
    let second = alphabet::byte_at(segment, 1) as u32;
    let third = alphabet::byte_at(segment, 2) as u32;
    (first * 256 + second) * 256 + third
}
