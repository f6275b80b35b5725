// The address of an element as people write it: PID-5, PID-5.1, PID-3[2].1, and OBX[3]-5 in the third OBX. A number that
// is 0 is the whole, and is left out; so is which segment of its name it is where no other has that name.
use crate::parts;
use crate::parts::Segment;
use alphabet::Part;
use element::Address;
use terminal::Output;

// The longest address: a name, five numbers of up to 20 digits and what stands between them.
const LONGEST: usize = 112;

// An address that is being written: so many bytes at the front of a text.
// An array with a length, for no heap is used.
#[derive(Drop)]
struct Line {
    text: [u8; LONGEST],
    length: usize,
}

impl Line {
    // The address of a segment's name alone. Behind what is written stand spaces.
    fn of(segment: &[u8]) -> Line {
        let mut line = Line {
            text: [b' '; LONGEST],
            length: 0,
        };
        line.put(parts::piece(segment, 0, 3));
        line
    }

    // Puts bytes behind it.
    fn put(&mut self, bytes: &[u8]) {
        self.length = alphabet::put(&mut self.text, self.length, bytes);
    }

    // Puts a mark and a number behind it, or nothing for 0.
    fn put_number(&mut self, mark: u8, number: usize) {
        if number == 0 {
            return;
        }
        let mut digits = [0u8; 20];
        let count = io::decimal(number as u64, &mut digits);
        self.put(&[mark]);
        self.put(&digits[..count]);
    }

    // Puts a number in brackets behind it, or nothing for 0.
    fn put_in_brackets(&mut self, number: usize) {
        self.put_number(b'[', number);
        if number != 0 {
            self.put(b"]");
        }
    }
}

// Prints an address of a segment that is the so-manieth of its name, and spaces behind it up to a column.
pub fn print_numbered(
    out: &mut Output,
    segment: &[u8],
    which: usize,
    address: Address,
    column: usize,
) {
    let mut line = Line::of(segment);
    line.put_in_brackets(which);
    line.put_number(b'-', address.field);
    line.put_in_brackets(address.repetition);
    line.put_number(b'.', address.component);
    line.put_number(b'.', address.subcomponent);
    out.print(parts::piece(&line.text, 0, line.length.max(column)));
}

// Prints an address of a segment by its name alone, and spaces behind it up to a column.
pub fn print_address(out: &mut Output, segment: &[u8], address: Address, column: usize) {
    print_numbered(out, segment, 0, address, column);
}

// Prints an address of a message, with which of its name the segment is where another has that name too.
pub fn print_found(out: &mut Output, message: &[u8], address: Address) {
    let part = reading::segment_at(message, address.segment);
    let Some(Part { start, end }) = part else {
        return;
    };
    let segment = Segment {
        number: address.segment,
        start,
        bytes: parts::piece(message, start, end),
    };
    let which = parts::which_of(message, segment);
    print_numbered(out, segment.bytes, which, address, 0);
}
