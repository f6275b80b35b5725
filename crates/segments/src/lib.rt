// The segments of a message, asked for one by one: how many there are, and of each its name and where it stands. Any
// bytes may be handed in as the message and any number as the index.
#![tactic(auto)]

ghost use Rattle.std.specs.Prelude.{◌≡◌, length};
ghost use Rattle.reading.specs.Segments.{segments};
ghost use Rattle.segments.specs.Asked.{counting, segment_found};

use alphabet::{Fault, Refusal};

// A segment: its name as one number in base 256, and the bytes of the message that it is, from `start` up to and without
// `end`, where its CR stands.
#[derive(Clone, Copy, PartialEq, Eq)]
pub struct Segment {
    pub name: u32,
    pub start: usize,
    pub end: usize,
}

// How many segments stand in some bytes: one before each CR. It walks from CR to CR, which are sought by blocks: counted
// over the bytes one by one, they take twice as long.
fn count_in(message: &[u8]) -> usize
    ensures { result ≡ length (segments message.now) }
{
    let mut count = 0;
    let mut start = 0;
    loop {
        let end = reading::segment_end(message, start);
        if message.len() <= end {
            return count;
        }
        start = end + 1;
        count += 1;
    }
}

// How many segments a message has, or why it cannot be asked.
#[tactic(auto, unfolding(crate::specs::Asked::counting))]
pub fn count(message: &[u8]) -> Result<usize, Fault>
    ensures { result ≡ counting message.now }
{
    reading::read(message)?;
    Ok(count_in(message))
}

// The segment of the given index, from 0, or why it cannot be asked for.
pub fn find_segment(message: &[u8], index: usize) -> Result<Segment, Fault>
    ensures { result ≡ segment_found message.now index }
{
    reading::read(message)?;
    let Some(part) = reading::segment_at(message, index) else {
        return Err(Fault {
            kind: Refusal::Address,
            place: 0,
        });
    };
    let name = reading::name_of(&message[part.start..part.end]);
    Ok(Segment {
        name,
        start: part.start,
        end: part.end,
    })
}
