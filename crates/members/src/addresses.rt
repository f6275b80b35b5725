// Where a part of a message stands: the number of its segment from 0, the segment's name, which one of that name it is
// from 1, and for a field its numbers.
use crate::{print_number, print_string};
use terminal::Output;

// Which one of its name a segment is: how many up to and with it have that name.
pub fn occurrence_at(message: &[u8], number: usize) -> usize {
    let segment = places::segment_bytes(message, number);
    let name = places::piece(segment, 0, 3);
    places::segments(message)
        .take_while(|segment| segment.number <= number)
        .filter(|segment| segment.name() == name)
        .count()
}

// Prints the members of a segment, of which one of its name it is known.
pub fn print_segment(out: &mut Output, segment: &[u8], number: usize, occurrence: usize) {
    print_number(out, b",\"segment\":", number);
    print_string(out, b",\"name\":\"", places::piece(segment, 0, 3));
    print_number(out, b",\"occurrence\":", occurrence);
}
