// The verdict on a message: its number, whether the message is accepted, and what it is or what is wrong with it. The
// place of a fault is a byte's offset for 1 to 8; and a segment for structure and fields, with the field and the
// repetition where there is one.
use crate::names::print_could_stand;
use alphabet::Refusal;
use fault::FaultRecord;
use members::{occurrence_at, print_flag, print_number, print_segment, print_string};
use terminal::Output;

// Prints the type of a message in letters of a string: its two components, as people write them.
fn print_type(out: &mut Output, message: &[u8]) {
    let code = element::raw(message, element::type_address(1));
    let event = element::raw(message, element::type_address(2));
    print_string(out, b",\"type\":\"", code);
    print_string(out, b",\"event\":\"", event);
}

// Prints the number of a verdict, and whether it is that the message is accepted.
fn print_front(out: &mut Output, number: u8) {
    print_number(out, b",\"number\":", usize::from(number));
    print_flag(out, b",\"accepted\":", number == 0);
}

// Prints the members of a message that is accepted.
fn print_accepted(out: &mut Output, message: &[u8]) {
    print_front(out, 0);
    print_type(out, message);
    print_number(out, b",\"segments\":", places::count_segments(message));
    print_number(out, b",\"bytes\":", message.len());
}

// Prints a refusal in words. They have no letter that a string would escape.
pub fn print_words(out: &mut Output, kind: Refusal) {
    out.write(b",\"words\":\"");
    wording::print_words(out, kind);
    out.write(b"\"");
}

// Prints the number and the words of what is refused.
pub fn print_refused(out: &mut Output, kind: Refusal) {
    print_front(out, u8::from(kind));
    print_words(out, kind);
}

// Prints the place of a fault in the bytes: the byte, and the segment that it stands in.
fn print_byte(out: &mut Output, place: usize, segment: usize) {
    print_number(out, b",\"byte\":", place);
    print_number(out, b",\"segment\":", segment);
}

// Prints a segment that is there: its number, its name, and which one of that name it is.
fn print_numbered_segment(out: &mut Output, message: &[u8], number: usize) {
    let segment = places::segment_bytes(message, number);
    print_segment(out, segment, number, occurrence_at(message, number));
}

// Prints the place of a fault of a field.
fn print_field(out: &mut Output, message: &[u8], segment: usize, field: usize, repetition: usize) {
    print_numbered_segment(out, message, segment);
    print_number(out, b",\"field\":", field);
    print_number(out, b",\"repetition\":", repetition);
}

// Prints the place of a fault by what it is. Where no structure is known it is the message's type; where a segment is
// misplaced or is missing at the end, what could have stood there is printed behind it.
fn print_place(out: &mut Output, message: &[u8], fault: FaultRecord) {
    match fault.kind {
        Refusal::NoStructure => print_field(out, message, 0, 9, 1),
        Refusal::SegmentMisplaced => {
            print_numbered_segment(out, message, fault.place);
            print_could_stand(out, fault.names, fault.could_end);
        }
        Refusal::EndedEarly => {
            print_number(out, b",\"segment\":", fault.place);
            print_could_stand(out, fault.names, fault.could_end);
        }
        Refusal::RequiredMissing
        | Refusal::BreaksForm
        | Refusal::NotListed
        | Refusal::RequiredNull
        | Refusal::ValueWithoutType
        | Refusal::Repeated
        | Refusal::ValueTooLong => {
            print_field(out, message, fault.place, fault.field, fault.repetition);
        }
        _ => print_byte(
            out,
            fault.place,
            places::segment_around(message, fault.place).number,
        ),
    }
}

// Prints the members of the verdict on a message, and returns whether it is accepted.
pub fn print_verdict(out: &mut Output, message: &[u8]) -> bool {
    let Err(fault) = verdict::verdict(message) else {
        print_accepted(out, message);
        return true;
    };
    print_refused(out, fault.kind);
    print_place(out, message, fault);
    false
}

// Prints the members of the verdict on a file that has more bytes than the command takes.
pub fn print_too_long(out: &mut Output) {
    print_refused(out, Refusal::Length);
    print_byte(out, 0, 0);
}
