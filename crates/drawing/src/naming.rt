// Where a fault of a message stands, in words: a byte, a segment, the end of the message, or a field and its
// repetition.
use alphabet::Refusal;
use element::Address;
use fault::FaultRecord;
use terminal::Output;

// What is meant by a fault: a byte of the message, a segment, the end behind so many segments, or a field.
#[derive(Clone, Copy)]
pub enum Place {
    Byte(usize),
    Segment(usize),
    EndBehind(usize),
    Field(Address),
}

// A field of a segment, or one of its repetitions; 0 is the whole of it.
fn field_at(segment: usize, field: usize, repetition: usize) -> Place {
    Place::Field(Address {
        segment,
        field,
        repetition,
        component: 0,
        subcomponent: 0,
    })
}

// What is meant by a fault. Where no structure is known that is the message's type, and where a field has too many
// repetitions it is the whole of it.
pub fn meant(fault: FaultRecord) -> Place {
    match fault.kind {
        Refusal::NoStructure => field_at(0, 9, fault.repetition),
        Refusal::SegmentMisplaced => Place::Segment(fault.place),
        Refusal::EndedEarly => Place::EndBehind(fault.place),
        Refusal::Repeated => field_at(fault.place, fault.field, 0),
        Refusal::RequiredMissing
        | Refusal::BreaksForm
        | Refusal::NotListed
        | Refusal::RequiredNull
        | Refusal::ValueWithoutType
        | Refusal::ValueTooLong => field_at(fault.place, fault.field, fault.repetition),
        _ => Place::Byte(fault.place),
    }
}

// Names the byte at a place, and its segment.
fn name_byte(out: &mut Output, message: &[u8], place: usize) {
    let segment = places::segment_around(message, place);
    out.print_counted(b"byte ", place, b", in segment ");
    out.print_number(segment.number);
}

// Names a segment: its number, and its own name.
fn name_segment(out: &mut Output, before: &[u8], message: &[u8], number: usize) {
    let segment = places::segment_bytes(message, number);
    out.print_counted(before, number, b", ");
    out.print(places::piece(segment, 0, 3));
}

// Names a field, or one of its repetitions, by its address and by the name that HL7 gives it; and its segment. The first
// repetition is told as the field.
fn name_field(out: &mut Output, message: &[u8], address: Address) {
    let segment = places::segment_bytes(message, address.segment);
    let told = if address.repetition == 1 {
        Address {
            repetition: 0,
            ..address
        }
    } else {
        address
    };
    places::print_address(out, segment, told, 0);
    explaining::print_field_name(out, segment, address.field);
    out.print(b", in segment ");
    out.print_number(address.segment);
}

// Names a place.
pub fn name_place(out: &mut Output, message: &[u8], place: Place) {
    match place {
        Place::Byte(at) => name_byte(out, message, at),
        Place::Segment(number) => name_segment(out, b"segment ", message, number),
        Place::EndBehind(count) => {
            name_segment(out, b"behind segment ", message, count.saturating_sub(1));
        }
        Place::Field(address) => name_field(out, message, address),
    }
}
