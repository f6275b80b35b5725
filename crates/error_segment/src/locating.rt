// Where the segment at fault stands, and which one of its name it is. One walk tells both: it keeps the names that it
// passes, and counts them when it knows the name that is asked for. There is room for few names and for many, since room
// has to be cleared; a place past both, which no message that was read has, takes two walks.
ghost use Rattle.std.specs.Prelude.{◌≡◌, ◌++◌, ◌+◌, ◌≤◌, length, take, drop, None};
ghost use Rattle.reading.specs.Segments.{name_of};
ghost use Rattle.structure.specs.SegmentNames.{segment_names};
ghost use Rattle.error_segment.specs.Errors.{faulty, count_of};
ghost use Rattle.error_segment.specs.Pieces.{StandsAt, LocatedAt};

use alphabet::Part;

// How many names there is room for.
const FEW: usize = 256;

const MANY: usize = 4096;

// Where a segment stands, if there is one, and how many of its name stand up to and with it.
#[derive(Clone, Copy)]
pub struct Located {
    pub segment: Option<Part>,
    pub sequence: usize,
}

// Room for the names that a walk passes. By a call of its own it is no list of so many numbers in the caller's proof, nor
// is the next.
fn room_for_few() -> [u32; FEW]
    ensures { length result ≡ 256 }
{
    [0; FEW]
}

// Room for as many as a message may have segments.
fn room_for_many() -> [u32; MANY]
    ensures { length result ≡ 4096 }
{
    [0; MANY]
}

// How many of some names are this one.
fn count_of(names: &[u32], name: u32) -> usize
    ensures { result ≡ count_of name names.now }
{
    let mut count = 0;
    for known in names {
        if *known == name {
            count += 1;
        }
    }
    count
}

// No segment, behind all that have these names. The name of no bytes is 0, which a segment of zeros has too.
fn located_nowhere(names: &[u32]) -> Located
    ensures { (result.segment ≡ None) × (result.sequence ≡ count_of 0 names.now) }
{
    Located {
        segment: None,
        sequence: count_of(names, 0),
    }
}

// The segment that begins at `start`, behind those that have these names.
fn located_at(message: &[u8], start: usize, names: &[u32]) -> Located
    requires { length names.now ≤ 4096 }
    ensures { StandsAt message.now (faulty (drop start message.now) 0) result.segment
        × (result.sequence
        ≡ count_of (name_of (faulty (drop start message.now) 0))
        (names.now ++ take 1 (segment_names (drop start message.now)))) }
{
    let end = reading::segment_end(message, start);
    if message.len() <= end {
        return located_nowhere(names);
    }
    let name = reading::name_of(&message[start..end]);
    Located {
        segment: Some(Part { start, end }),
        sequence: count_of(names, name) + 1,
    }
}

// The segment of a number, from 0, where there is room for the names before it: one walk.
fn locate_near(message: &[u8], place: usize, names: &mut [u32]) -> Located
    requires place_in_bounds { place ≤ length names.old }
    requires place_bound { place ≤ 4096 }
    ensures { LocatedAt message.now place result }
{
    let mut start = 0;
    for number in 0..place {
        let end = reading::segment_end(message, start);
        if message.len() <= end {
            return located_nowhere(&names[..number]);
        }
        names[number] = reading::name_of(&message[start..end]);
        start = end + 1;
    }
    located_at(message, start, &names[..place])
}

// How many segments up to and with that of a number have the name: one walk.
fn sequence_of(message: &[u8], place: usize, name: u32) -> usize
    ensures { result ≡ count_of name (take (place + 1) (segment_names message.now)) }
{
    let mut count = 0;
    let mut number = 0;
    let mut start = 0;
    while number <= place {
        let end = reading::segment_end(message, start);
        if message.len() <= end {
            return count;
        }
        if reading::name_of(&message[start..end]) == name {
            count += 1;
        }
        number += 1;
        start = end + 1;
    }
    count
}

// The segment of any number: one walk to it, and one that counts.
fn locate_far(message: &[u8], place: usize) -> Located
    ensures { LocatedAt message.now place result }
{
    let Some(part) = reading::segment_at(message, place) else {
        return Located {
            segment: None,
            sequence: sequence_of(message, place, 0),
        };
    };
    let name = reading::name_of(&message[part.start..part.end]);
    Located {
        segment: Some(part),
        sequence: sequence_of(message, place, name),
    }
}

// The segment of a number, from 0, and which one of its name it is.
pub fn locate(message: &[u8], place: usize) -> Located
    ensures { LocatedAt message.now place result }
{
    if place < FEW {
        return locate_near(message, place, &mut room_for_few());
    }
    if place < MANY {
        return locate_near(message, place, &mut room_for_many());
    }
    locate_far(message, place)
}
