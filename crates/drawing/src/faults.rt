// Where a fault of a message stands, drawn: the byte, the segment, the field or the repetition that is meant; and what
// helps, told below it.
use crate::naming::{Place, meant, name_place};
use alphabet::{Fault, Refusal};
use element::{Address, State};
use fault::FaultRecord;
use terminal::Output;

// Draws the byte at a place of the file, in its segment.
fn draw_byte(out: &mut Output, message: &[u8], place: usize) {
    let segment = places::segment_around(message, place);
    marks::draw_byte(out, segment.bytes, place.saturating_sub(segment.start));
}

// Draws the place behind the last of so many segments.
fn draw_end(out: &mut Output, message: &[u8], count: usize) {
    let segment = places::segment_bytes(message, count.saturating_sub(1));
    marks::draw_byte(out, segment, segment.len());
}

// Draws an element of a message. One that is absent would stand at the end of its segment.
fn draw_element(out: &mut Output, message: &[u8], address: Address) {
    let Some(part) = reading::segment_at(message, address.segment) else {
        return;
    };
    let segment = places::piece(message, part.start, part.end);
    match element::find(message, address) {
        Ok(element) if element.state != State::Absent => marks::draw(
            out,
            segment,
            element.start.saturating_sub(part.start),
            element.end.saturating_sub(part.start),
        ),
        _ => marks::draw_byte(out, segment, segment.len()),
    }
}

// Names the place of a fault, and draws it. A message that is drawn is no longer than the command takes, so that 1 is one
// of no bytes: it has no place to draw.
pub fn draw(out: &mut Output, message: &[u8], fault: FaultRecord) {
    if fault.kind == Refusal::Length {
        out.print_line(b"  this file has none");
        return;
    }
    let place = meant(fault);
    out.print(b"  ");
    name_place(out, message, place);
    out.print_line(b":");
    match place {
        Place::Byte(at) => draw_byte(out, message, at),
        Place::Segment(number) => {
            marks::draw(out, places::segment_bytes(message, number), 0, 3);
        }
        Place::EndBehind(count) => draw_end(out, message, count),
        Place::Field(address) => draw_element(out, message, address),
    }
}

// Says below a refusal what helps: what could have stood at the place, what would have been right there, or a hint.
pub fn help(out: &mut Output, message: &[u8], fault: FaultRecord) {
    match meant(fault) {
        Place::Byte(place) => hints::print_hint(
            out,
            message,
            Fault {
                kind: fault.kind,
                place,
            },
        ),
        Place::Segment(_) | Place::EndBehind(_) => {
            wording::print_could_stand(out, fault.names, fault.could_end);
        }
        Place::Field(_) => explaining::explain(out, message, fault),
    }
}
