// What `show` and `get` find, as objects of JSON for another program: an object a line for each leaf of a message, or for
// the one element that is asked for. docs/JSON.md tells of each member.
#![tactic(auto)]

mod values;

use element::{Address, Element};
use showing::Leaf;
use terminal::Output;
use values::Around;

// Prints the object of an element of a segment, which is told by the number of its address.
fn print_object(out: &mut Output, file: &[u8], around: Around, leaf: Leaf, room: &mut [u8]) {
    members::open(out, file);
    members::print_segment(out, around.segment, leaf.address.segment, around.occurrence);
    values::print_address(out, leaf.address);
    around.print_element(out, leaf, room);
    members::close(out);
}

// Prints the objects of `show`: each leaf of a message that was read. `room` is lent for the text of each, and `buffer`
// for the rows of the leaves: eight numbers for each byte of the message. Without that room nothing is printed.
pub fn print_show(
    out: &mut Output,
    file: &[u8],
    message: &[u8],
    room: &mut [u8],
    buffer: &mut [u64],
) {
    let Ok(count) = leaves::list(message, buffer) else {
        return;
    };
    let rows = showing::first_rows(buffer, count);
    for (segment, rows) in showing::with_leaves(message, rows) {
        let around = Around {
            message,
            segment: segment.bytes,
            occurrence: members::occurrence_at(message, segment.number),
        };
        for row in rows {
            print_object(out, file, around, Leaf::from(*row), room);
        }
    }
}

// Prints the object of `get`: one element of a message that was read.
pub fn print_get(
    out: &mut Output,
    file: &[u8],
    message: &[u8],
    address: Address,
    element: Element,
    room: &mut [u8],
) {
    let around = Around {
        message,
        segment: places::segment_bytes(message, address.segment),
        occurrence: members::occurrence_at(message, address.segment),
    };
    print_object(out, file, around, Leaf { address, element }, room);
}
