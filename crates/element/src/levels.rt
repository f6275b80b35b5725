// From a segment down to a subcomponent: each level splits the part above it at its own separator. A part above is
// known by where it begins and by the bytes that end it. Only the element itself has its end sought, so that nothing
// behind it is looked at, but for the rest of a block.
ghost use Rattle.std.specs.Prelude.{◌≡◌, drop};
ghost use Rattle.alphabet.specs.Lists.{first, among};
ghost use Rattle.alphabet.specs.Parts.{began, ended_by};
ghost use Rattle.reading.specs.Segments.{segment_at};
ghost use Rattle.element.specs.Levels.{field_at, below, subcomponent_at, unsplit, element_at};
ghost use Rattle.element.specs.Ends.{level_ends, end_of, field_ends, StartsPart, field_index};

use crate::address::Address;
use crate::walking::field_start;
use alphabet::{CARRIAGE_RETURN, Part};

// How many bytes are looked at one by one for an element's end, before blocks are: most elements are short.
const NEAR: usize = 8;

// The message from a place on, and no bytes past its end.
fn rest_from(message: &[u8], start: usize) -> &[u8]
    ensures { result.now ≡ drop start message.now }
{
    if message.len() <= start {
        return &message[..0];
    }
    &message[start..]
}

// Where part `index`, from 0, of the part at the front of `bytes` begins. That part ends at the first of `stops`. They are
// asked for before the separator, which may be one of them where no message was read.
fn start_in(bytes: &[u8], stops: [u8; 5], separator: u8, index: usize) -> Option<usize>
    ensures { StartsPart separator (among stops) bytes.now (Some 0) index result }
{
    let mut left = index;
    for (i, &b) in bytes.iter().enumerate() {
        if left == 0 {
            return Some(i);
        }
        if search::is_among(stops, b) {
            return None;
        }
        left = if b == separator { left - 1 } else { left };
    }
    if left == 0 { Some(bytes.len()) } else { None }
}

// Where part `index`, from 0, of the part of the message that begins at `start` begins. The splitter is handed the bytes
// from there on.
fn part_start(
    message: &[u8],
    start: usize,
    stops: [u8; 5],
    separator: u8,
    index: usize,
) -> Option<usize>
    ensures { StartsPart separator (among stops) message.now (Some start) index result }
{
    let further = start_in(rest_from(message, start), stops, separator, index)?;
    Some(start + further)
}

// Where number `number`, from 1, of a level below the part that begins at `start` begins; 0 is the whole, which begins
// where the part does.
fn start_below(
    message: &[u8],
    start: usize,
    stops: [u8; 5],
    separator: u8,
    number: usize,
) -> Option<usize>
    ensures { ended_by (level_ends separator number (among stops)) message.now result ≡ below separator message.now (ended_by (among stops) message.now (Some start)) number }
{
    if number == 0 {
        return Some(start);
    }
    part_start(message, start, stops, separator, number - 1)
}

// The stop that a level adds: its separator; or CR, a stop already, where the address leaves the level out.
fn end_of(separator: u8, number: usize) -> u8
    ensures { result ≡ end_of separator number }
{
    if number == 0 {
        CARRIAGE_RETURN
    } else {
        separator
    }
}

// The place of the first of `stops`, or the length where there is none.
fn end_in(bytes: &[u8], stops: [u8; 5]) -> usize
    ensures { result ≡ first (among stops) bytes.now }
{
    let near = bytes.len().min(NEAR);
    for i in 0..near {
        if search::is_among(stops, bytes[i]) {
            return i;
        }
    }
    near + search::find_among(&bytes[near..], stops)
}

// The part that begins at `start` and ends at the first of `stops`.
fn part_from(message: &[u8], start: usize, stops: [u8; 5]) -> Part
    ensures { Some result ≡ ended_by (among stops) message.now (Some start) }
{
    let end = start + end_in(rest_from(message, start), stops);
    Part { start, end }
}

// The repetition in a field, the component in that, the subcomponent in that. Each level hands on where it begins and
// one stop more.
fn split_field(message: &[u8], field: usize, address: Address) -> Option<Part>
    requires { ended_by (among (field_ends message.now)) message.now (Some field) ≡ field_at message.now address }
    ensures { result ≡ subcomponent_at message.now address }
{
    let cr = CARRIAGE_RETURN;
    let separator = alphabet::byte_at(message, 3);
    let component = alphabet::byte_at(message, 4);
    let repetition = alphabet::byte_at(message, 5);
    let subcomponent = alphabet::byte_at(message, 7);
    let repetition_end = end_of(repetition, address.repetition);
    let component_end = end_of(component, address.component);
    let subcomponent_end = end_of(subcomponent, address.subcomponent);
    let stops = [cr, separator, cr, cr, cr];
    let first = start_below(message, field, stops, repetition, address.repetition)?;
    let stops = [cr, separator, repetition_end, cr, cr];
    let second = start_below(message, first, stops, component, address.component)?;
    let stops = [cr, separator, repetition_end, component_end, cr];
    let third = start_below(message, second, stops, subcomponent, address.subcomponent)?;
    let stops = [
        cr,
        separator,
        repetition_end,
        component_end,
        subcomponent_end,
    ];
    Some(part_from(message, third, stops))
}

// MSH-1 and MSH-2 are not split: repetition, component and subcomponent 0 or 1 give the whole, and there are no more.
fn header_element(field: Part, address: Address) -> Option<Part>
    ensures { result ≡ unsplit (Some field) address }
{
    let first = address.repetition <= 1;
    let whole = first & ((address.component <= 1) & (address.subcomponent <= 1));
    if whole { Some(field) } else { None }
}

// Which part of its segment a field is. MSH, the first segment, has its fields counted from the separator itself: here,
// and once more in `fields`.
fn index_of(segment: usize, field: usize) -> usize
    ensures { result ≡ field_index segment field }
{
    if segment != 0 {
        return field;
    }
    if field == 0 { 0 } else { field - 1 }
}

// Where an element stands. `segment` is where its segment begins, where there is one: MSH-1 stands where it stands.
pub fn part_of(message: &[u8], segment: Option<usize>, address: Address) -> Option<Part>
    requires { segment ≡ began (segment_at message.now address.segment) }
    ensures { result ≡ element_at message.now address }
{
    if (address.segment == 0) & (address.field == 1) {
        return header_element(Part { start: 3, end: 4 }, address);
    }
    let start = segment?;
    let cr = CARRIAGE_RETURN;
    let separator = alphabet::byte_at(message, 3);
    let index = index_of(address.segment, address.field);
    let field = field_start(message, start, separator, index)?;
    if (address.segment == 0) & (address.field <= 2) {
        let part = part_from(message, field, [cr, separator, cr, cr, cr]);
        return header_element(part, address);
    }
    split_field(message, field, address)
}
