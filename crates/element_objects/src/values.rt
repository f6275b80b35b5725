// An element as members: its state, where it stands, and what it says. Absent, empty, null and present are told apart by
// the state, and what it says stands only where it is present.
use alphabet::{Delimiters, Fault, Refusal};
use element::{Address, State};
use members::{print_number, print_string};
use showing::Leaf;
use terminal::Output;

// What stands around an element: its message, and its segment, with which one of its name that is.
#[derive(Clone, Copy)]
pub struct Around<'a> {
    pub message: &'a [u8],
    pub segment: &'a [u8],
    pub occurrence: usize,
}

// Prints the numbers of an address behind its segment. 0 is the whole.
pub fn print_address(out: &mut Output, address: Address) {
    print_number(out, b",\"field\":", address.field);
    print_number(out, b",\"repetition\":", address.repetition);
    print_number(out, b",\"component\":", address.component);
    print_number(out, b",\"subcomponent\":", address.subcomponent);
}

// The member that tells a state, in a word.
fn state_member(state: State) -> &'static [u8] {
    match state {
        State::Absent => b",\"state\":\"absent\"",
        State::Empty => b",\"state\":\"empty\"",
        State::Null => b",\"state\":\"null\"",
        State::Present => b",\"state\":\"present\"",
    }
}

// Prints bytes as they were sent, and why they say no text.
fn print_as_sent(out: &mut Output, bytes: &[u8], kind: Refusal) {
    print_string(out, b",\"raw\":\"", bytes);
    print_number(out, b",\"number\":", usize::from(u8::from(kind)));
    objects::print_words(out, kind);
}

// Makes the text that bytes say in `room`: its lines where it is formatted, and else the text unescaped.
fn make_text(
    delimiters: Delimiters,
    bytes: &[u8],
    is_formatted: bool,
    room: &mut [u8],
) -> Result<usize, Fault> {
    if is_formatted {
        return formatting::format(delimiters, bytes, room);
    }
    text::unescape(delimiters, bytes, room)
}

impl<'a> Around<'a> {
    // Prints what an element that is present says: the text of its bytes, or the bytes as they were sent and why they
    // say none. `room` is lent for the text. The first two fields of the header are the delimiters, and no text.
    fn print_value(self, out: &mut Output, address: Address, bytes: &[u8], room: &mut [u8]) {
        if (address.segment == 0) & (address.field <= 2) {
            print_string(out, b",\"raw\":\"", bytes);
            return;
        }
        let delimiters = reading::delimiters_of(self.message);
        let is_formatted = showing::is_formatted(delimiters, self.segment, address.field);
        match make_text(delimiters, bytes, is_formatted, room) {
            Ok(length) => print_string(out, b",\"text\":\"", places::piece(room, 0, length)),
            Err(fault) => print_as_sent(out, bytes, fault.kind),
        }
    }

    // Prints an element. One that is absent stands nowhere.
    pub fn print_element(self, out: &mut Output, leaf: Leaf, room: &mut [u8]) {
        let element = leaf.element;
        out.write(state_member(element.state));
        if element.state == State::Absent {
            return;
        }
        print_number(out, b",\"start\":", element.start);
        print_number(out, b",\"end\":", element.end);
        if element.state == State::Present {
            let bytes = element::bytes_at(self.message, element);
            self.print_value(out, leaf.address, bytes, room);
        }
    }
}
