// `show`: every segment of a message and its leaves, the parts that are split no further, each with its address, its
// state and its text. The leaves come as rows of numbers, of which nothing is assumed, and an address tells the levels
// that are split. A result of formatted text is laid out in lines below its address. `get` shows one element, and
// `lines` lays it out.
#![tactic(auto)]

mod leaf;
mod splits;

use alphabet::{Delimiters, Fault, Refusal};
use element::{Address, Element, State};
pub use leaf::{Leaf, LeafWalk, Row, first_rows, with_leaves};
use places::Segment;
use splits::Split;
use terminal::Output;

// The column in which the state of each part stands.
const COLUMN: usize = 16;

// A segment of a message, and which of its name it is, or 0 where no other has its name.
#[derive(Clone, Copy)]
struct Numbered<'a> {
    message: &'a [u8],
    segment: Segment<'a>,
    which: usize,
}

// The address of a field. Where its segment stands is told by the line above all of its parts.
fn field_address(number: usize) -> Address {
    Address {
        segment: 0,
        field: number,
        repetition: 0,
        component: 0,
        subcomponent: 0,
    }
}

// Prints bytes as they were sent, and why they say no text.
fn print_as_sent(out: &mut Output, bytes: &[u8], kind: Refusal) {
    wording::print_behind(out, bytes);
    out.print(b"  (as sent: ");
    wording::print_words(out, kind);
    out.print(b")");
}

// Prints the text that bytes say, or the bytes as they were sent and why they say none. `room` is lent for the text.
fn print_text(out: &mut Output, delimiters: Delimiters, bytes: &[u8], room: &mut [u8]) {
    match text::unescape(delimiters, bytes, room) {
        Ok(length) => wording::print_behind(out, places::piece(room, 0, length)),
        Err(fault) => print_as_sent(out, bytes, fault.kind),
    }
    out.end_line();
}

// Ends the line of an address, and prints the lines of the formatted text that bytes say below it; or the bytes as they
// were sent, and why they have none. `room` is lent for the lines.
fn print_lines_below(out: &mut Output, delimiters: Delimiters, bytes: &[u8], room: &mut [u8]) {
    match formatting::format(delimiters, bytes, room) {
        Ok(length) => {
            out.end_line();
            places::print_lines(out, b"      ", places::piece(room, 0, length));
        }
        Err(fault) => {
            print_as_sent(out, bytes, fault.kind);
            out.end_line();
        }
    }
}

// Whether a field of a segment has formatted text: OBX-5, the value, where OBX-2, its type, is FT.
pub fn is_formatted(delimiters: Delimiters, segment: &[u8], field: usize) -> bool {
    let separators = delimiters.bytes;
    (field == 5)
        && matches!(segment, [b'O', b'B', b'X', ..])
        && matches!(element::part_in(segment, separators[0], 2), b"FT")
}

impl<'a> Numbered<'a> {
    // Prints the front of a part's line: its address and its state.
    fn print_front(self, out: &mut Output, address: Address, state: State) {
        out.print(b"  ");
        places::print_numbered(out, self.segment.bytes, self.which, address, COLUMN);
        wording::print_state(out, state);
    }

    // Shows a leaf, by the address that it is told by: its text where it is present, and else its bytes.
    fn show_leaf(self, out: &mut Output, told: Address, element: Element, room: &mut [u8]) {
        let delimiters = reading::delimiters_of(self.message);
        let bytes = places::piece(self.message, element.start, element.end);
        self.print_front(out, told, element.state);
        if element.state != State::Present {
            wording::print_behind(out, bytes);
            out.end_line();
        } else if is_formatted(delimiters, self.segment.bytes, told.field) {
            print_lines_below(out, delimiters, bytes, room);
        } else {
            print_text(out, delimiters, bytes, room);
        }
    }

    // Shows the leaves of some rows.
    fn show_leaves(self, out: &mut Output, rows: &[Row], room: &mut [u8]) {
        let mut split = Split::none();
        let mut rest = rows;
        while let Some((row, behind)) = rest.split_first() {
            let leaf = Leaf::from(*row);
            split = split.at(leaf, behind);
            self.show_leaf(out, split.told(leaf.address), leaf.element, room);
            rest = behind;
        }
    }

    // Shows a field of the header that is never split: the field separator, or the four delimiters behind it.
    fn show_delimiters(self, out: &mut Output, number: usize, start: usize, end: usize) {
        self.print_front(out, field_address(number), State::Present);
        wording::print_behind(out, places::piece(self.segment.bytes, start, end));
        out.end_line();
    }

    // Shows the segment, with the rows of its leaves. The first two of all are the delimiters that MSH holds, which are
    // shown as they are. The address of a segment's own is its name, and which of that name it is.
    fn show(self, out: &mut Output, rows: &[Row], room: &mut [u8]) {
        out.print_counted(b"", self.segment.number, b" ");
        places::print_numbered(out, self.segment.bytes, self.which, field_address(0), 0);
        out.end_line();
        if self.segment.number != 0 {
            self.show_leaves(out, rows, room);
            return;
        }
        self.show_delimiters(out, 1, 3, 4);
        self.show_delimiters(out, 2, 4, 8);
        self.show_leaves(out, rows.get(2..).unwrap_or(&[]), room);
    }
}

// Shows the segments of a message that was read. `room` is lent for the text of each part, and `buffer` for the rows of
// the leaves: eight numbers for each byte of the message. Without that room nothing is shown.
pub fn show(out: &mut Output, message: &[u8], room: &mut [u8], buffer: &mut [u64]) {
    let Ok(count) = leaves::list(message, buffer) else {
        return;
    };
    for (segment, rows) in with_leaves(message, first_rows(buffer, count)) {
        let numbered = Numbered {
            message,
            segment,
            which: places::which_of(message, segment),
        };
        numbered.show(out, rows, room);
    }
}

// The address of an element as it stands among all parts of a message: a repetition that stands alone is left out.
fn as_shown(message: &[u8], address: Address) -> Address {
    let second = Address {
        repetition: 2,
        ..field_in(address)
    };
    let is_alone = match element::find(message, second) {
        Ok(element) => element.state == State::Absent,
        Err(_) => true,
    };
    if is_alone & (address.repetition == 1) {
        return Address {
            repetition: 0,
            ..address
        };
    }
    address
}

// The whole field of an address.
fn field_in(address: Address) -> Address {
    Address {
        segment: address.segment,
        field: address.field,
        repetition: 0,
        component: 0,
        subcomponent: 0,
    }
}

// Shows one element of a message that was read: its address, its state, and its bytes as they were sent.
pub fn show_element(out: &mut Output, message: &[u8], address: Address, element: Element) {
    places::print_found(out, message, as_shown(message, address));
    wording::print_state(out, element.state);
    wording::print_behind(out, element::bytes_at(message, element));
    out.end_line();
}

// Lays out one element of a message that was read: the lines of its formatted text, made in `room`, and nothing else.
// One that is not present, or has no lines, is shown as it was sent; why it has none is returned.
pub fn show_lines(
    out: &mut Output,
    message: &[u8],
    address: Address,
    element: Element,
    room: &mut [u8],
) -> Result<(), Fault> {
    if element.state != State::Present {
        show_element(out, message, address, element);
        return Ok(());
    }
    let delimiters = reading::delimiters_of(message);
    match formatting::format(delimiters, element::bytes_at(message, element), room) {
        Ok(length) => {
            places::print_lines(out, b"", places::piece(room, 0, length));
            Ok(())
        }
        Err(fault) => {
            show_element(out, message, address, element);
            Err(fault)
        }
    }
}
