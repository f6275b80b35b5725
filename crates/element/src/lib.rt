// Where an element of a message stands and in which of the four states it is: absent, empty, null or present.
// Any bytes may be handed in as the message and any numbers as the address.
#![tactic(auto)]

mod address;
mod levels;
mod states;
mod walking;

ghost use Rattle.std.specs.Prelude.{◌≡◌, [], ◌∷◌, ◌≤◌, length, get_or};
ghost use Rattle.alphabet.specs.Answers.{in_order};
ghost use Rattle.alphabet.specs.Parts.{split, began};
ghost use Rattle.reading.specs.Segments.{segment_at};
ghost use Rattle.reading.specs.Reading.{reading};
ghost use Rattle.element.specs.Addresses.{address_check};
ghost use Rattle.element.specs.Finding.{element_of, found, bytes_at, element_bytes, raw_bytes};

use address::check_address;
pub use address::{Address, type_address};
use alphabet::{Fault, Part, Refusal};
use levels::part_of;
pub use states::{State, is_present, state_of};

// An element: its state, and the bytes of the message that it is, from `start` up to and without `end`.
// An absent element stands nowhere: 0 and 0.
// It holds no Option: `found` promises 0 and 0 of an absent element, as C gets it.
#[derive(Clone, Copy, PartialEq, Eq)]
pub struct Element {
    pub state: State,
    pub start: usize,
    pub end: usize,
}

// What is asked before the segment is sought: a reading fault, then 19 for a bad address.
fn check_question(message: &[u8], address: Address) -> Result<(), Fault>
    ensures { result ≡ in_order (reading message.now ∷ address_check address ∷ []) }
{
    reading::read(message)?;
    check_address(address)
}

// The element at an address of a message that was read. `segment` is where its segment begins.
fn element_of(message: &[u8], segment: usize, address: Address) -> Element
    requires { (8 ≤ length message.now) × (Some segment ≡ began (segment_at message.now address.segment)) }
    ensures { result ≡ element_of message.now address }
{
    let Some(part) = part_of(message, Some(segment), address) else {
        return Element {
            state: State::Absent,
            start: 0,
            end: 0,
        };
    };
    let delimiters = reading::delimiters_of(message);
    let state = state_of(delimiters, &message[part.start..part.end]);
    Element {
        state,
        start: part.start,
        end: part.end,
    }
}

// The element at an address, or why it cannot be asked for.
pub fn find(message: &[u8], address: Address) -> Result<Element, Fault>
    ensures { result ≡ found message.now address }
{
    check_question(message, address)?;
    // No such segment is 19 as well: its start alone tells.
    let Some(segment) = reading::segment_start(message, address.segment) else {
        return Err(Fault {
            kind: Refusal::Address,
            place: 0,
        });
    };
    Ok(element_of(message, segment, address))
}

// The bytes of an element of a message: the part of the message where it stands, and none where it stands nowhere.
pub fn bytes_at(message: &[u8], element: Element) -> &[u8]
    ensures { result.now ≡ bytes_at message.now element }
{
    match message.get(element.start..element.end) {
        Some(bytes) => bytes,
        None => &message[..0],
    }
}

// The same by its address; none where it is absent or was refused.
pub fn bytes_of(message: &[u8], address: Address) -> &[u8]
    ensures { result.now ≡ element_bytes message.now address }
{
    match find(message, address) {
        Ok(element) => bytes_at(message, element),
        Err(_) => &message[..0],
    }
}

// Part `index`, from 0, of some bytes at a separator; none where there are fewer parts. Judges that have found a field
// split it by this.
pub fn part_in(bytes: &[u8], separator: u8, index: usize) -> &[u8]
    ensures { result.now ≡ get_or (split separator bytes.now) index [] }
{
    match alphabet::nth_part(bytes, separator, index) {
        Some(part) => &bytes[part.start..part.end],
        None => &bytes[..0],
    }
}

// The bytes at an address as they were sent, for judges that have read the message already: no fault is looked for, and
// there are none where nothing stands.
pub fn raw(message: &[u8], address: Address) -> &[u8]
    ensures { result.now ≡ raw_bytes message.now address }
{
    if message.len() < 4 {
        return &message[..0];
    }
    let segment = reading::segment_start(message, address.segment);
    match part_of(message, segment, address) {
        Some(part) => &message[part.start..part.end],
        None => &message[..0],
    }
}
