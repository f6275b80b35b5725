// The walk along a message from leaf to leaf: the bytes that end leaves are marked, block by block, and each mark ends
// one leaf and says what the next one's address is.
ghost use Rattle.std.specs.Prelude.{◌≡◌, List, [], ◌∷◌, ◌++◌, ◌+◌, ◌*◌, ◌≤◌, ◌<◌, length, take};
ghost use Rattle.alphabet.specs.Filling.{over, pasted};
ghost use Rattle.alphabet.specs.Answers.{passes};
ghost use Rattle.reading.specs.Segments.{delimiters_of};
ghost use Rattle.reading.specs.Reading.{reading};
ghost use Rattle.leaves.specs.Leaves.{addressed, rows, leaves_of};
ghost use Rattle.leaves.specs.Walks.{ends_of, passed, AtMost, shown, state_at, Ends, Marks, Stands, Writes, WritesAll};

use crate::marks::{MARKED, mark};
use element::Address;

// A segment's name is no leaf. In a name a walk's start is so much more than where the name begins: behind every byte of
// a message. So one comparison with the end tells a name and an empty leaf from most others.
const NAMED: usize = 1_048_576;

// Where a walk stands: the address of the leaf that it is in, where that begins, and where its row will stand.
#[derive(Clone, Copy)]
struct Walk {
    address: Address,
    start: usize,
    at: usize,
}

// The state of a leaf, as its number, and 0 for a name. A leaf has no separators, so it is empty where it has no bytes.
// Most others are told by their first byte alone.
// It is a number, since the row has it so for C.
fn state_number(message: &[u8], start: usize, end: usize) -> u64
    requires { end ≤ length message.now }
    ensures { result ≡ state_at message.now start end }
{
    if start >= end {
        if start == end {
            return 1;
        }
        return 0;
    }
    if message[start] != 34 {
        return 3;
    }
    let second = alphabet::byte_at(message, start + 1);
    if (start + 2 == end) & (second == 34) {
        return 2;
    }
    3
}

// Writes a row into the buffer from `at` on.
fn put_row(buffer: &mut [u64], at: usize, address: Address, state: u64, start: usize, end: usize)
    requires { at + 8 ≤ length buffer.old }
    ensures { buffer.new ≡ pasted buffer.old at
        (address.segment ∷ address.field ∷ address.repetition ∷ address.component ∷ address.subcomponent
        ∷ state ∷ start ∷ end ∷ []) }
{
    buffer[at] = address.segment as u64;
    buffer[at + 1] = address.field as u64;
    buffer[at + 2] = address.repetition as u64;
    buffer[at + 3] = address.component as u64;
    buffer[at + 4] = address.subcomponent as u64;
    buffer[at + 5] = state;
    buffer[at + 6] = start as u64;
    buffer[at + 7] = end as u64;
}

fn address_of(
    segment: usize,
    field: usize,
    repetition: usize,
    component: usize,
    subcomponent: usize,
) -> Address
    ensures { result ≡ addressed segment field repetition component subcomponent }
{
    Address {
        segment,
        field,
        repetition,
        component,
        subcomponent,
    }
}

// A walk that stands in the leaf at an address.
fn walk_from(address: Address, start: usize, at: usize) -> Walk
    ensures { (result.address ≡ address) × (result.start ≡ start) × (result.at ≡ at) }
{
    Walk { address, start, at }
}

// The walk behind a byte at `end` that ends the leaf at an address.
fn pass(ends: [u8; 5], b: u8, address: Address, end: usize, at: usize) -> Walk
    requires { AtMost 1048576 address × (end < 1048576) }
    ensures address_value { (result.address ≡ passed ends b address) × (result.at ≡ at) }
    ensures start_value { (address.field ≡ 0 → ⊥) → result.start ≡ shown result.address (end + 1) }
{
    let segment = address.segment;
    let field = address.field;
    let repetition = address.repetition;
    let component = address.component;
    let next = end + 1;
    if b == ends[1] {
        return walk_from(address_of(segment, field + 1, 1, 1, 1), next, at);
    }
    if b == ends[2] {
        let to = address_of(segment, field, repetition, component + 1, 1);
        return walk_from(to, next, at);
    }
    if b == ends[0] {
        return walk_from(address_of(segment + 1, 0, 1, 1, 1), next + NAMED, at);
    }
    if b == ends[3] {
        return walk_from(address_of(segment, field, repetition + 1, 1, 1), next, at);
    }
    let part = address.subcomponent + 1;
    let to = address_of(segment, field, repetition, component, part);
    walk_from(to, next, at)
}

// The same behind a byte that ends a name.
fn pass_name(ends: [u8; 5], b: u8, walk: Walk, end: usize) -> Walk
    requires { AtMost 1048576 walk.address × (end < 1048576) }
    ensures { (result.address ≡ passed ends b walk.address) × (result.at ≡ walk.at)
        × (result.start ≡ shown result.address (end + 1)) }
{
    let next = pass(ends, b, walk.address, end, walk.at);
    if next.address.field == 0 {
        return walk_from(next.address, end + 1 + NAMED, walk.at);
    }
    walk_from(next.address, end + 1, walk.at)
}

// One leaf, which ends at `end`: its row is written, and the walk stands behind it.
fn turn(message: &[u8], buffer: &mut [u64], ends: [u8; 5], walk: Walk, end: usize) -> Walk
    requires { Ends message.now end
        × Stands message.now buffer.old walk.address walk.start walk.at end
        × (ends ≡ ends_of message.now) × (reading message.now ≡ passes) }
    ensures stands { Stands message.now buffer.new result.address result.start result.at (end + 1) }
    ensures writes { Writes message.now buffer.old walk.address walk.start walk.at
        buffer.new result.address result.start result.at }
{
    let state = state_number(message, walk.start, end);
    if state == 0 {
        return pass_name(ends, message[end], walk, end);
    }
    put_row(buffer, walk.at, walk.address, state, walk.start, end);
    pass(ends, message[end], walk.address, end, walk.at + 8)
}

// The leaves that end in a block, which begins at `place` and has these marks: their rows are written, and the walk
// stands in the leaf that does not end there. Each turn takes the lowest mark away.
fn list_block(
    message: &[u8],
    buffer: &mut [u64],
    ends: [u8; 5],
    marks: u64,
    place: usize,
    walk: Walk,
) -> Walk
    requires { Marks message.now place marks
        × Stands message.now buffer.old walk.address walk.start walk.at place
        × (ends ≡ ends_of message.now) × (reading message.now ≡ passes) }
    ensures stands { Stands message.now buffer.new result.address result.start result.at
        (place + 48) }
    ensures writes { Writes message.now buffer.old walk.address walk.start walk.at
        buffer.new result.address result.start result.at }
{
    let mut bits = marks;
    let mut here = walk;
    while bits != 0 {
        let n = u64::trailing_zeros(bits);
        here = turn(message, buffer, ends, here, place + n as usize);
        bits = bits & (bits - 1);
    }
    here
}

// One byte: where it ends a leaf that is a turn, and else the walk stands where it stood.
fn step(message: &[u8], buffer: &mut [u64], ends: [u8; 5], walk: Walk, place: usize) -> Walk
    requires { (place < length message.now)
        × Stands message.now buffer.old walk.address walk.start walk.at place
        × (ends ≡ ends_of message.now) × (reading message.now ≡ passes) }
    ensures stands { Stands message.now buffer.new result.address result.start result.at (place + 1) }
    ensures writes { Writes message.now buffer.old walk.address walk.start walk.at
        buffer.new result.address result.start result.at }
{
    if search::is_among(ends, message[place]) {
        return turn(message, buffer, ends, walk, place);
    }
    walk
}

// The rows of all leaves from the one on in which a walk stands, byte by byte, where there are fewer than make a block;
// the place behind them.
fn list_few(message: &[u8], buffer: &mut [u64], ends: [u8; 5], walk: Walk, from: usize) -> usize
    requires { (from ≤ length message.now)
        × Stands message.now buffer.old walk.address walk.start walk.at from
        × (ends ≡ ends_of message.now) × (reading message.now ≡ passes) }
    ensures { WritesAll message.now buffer.old walk.address walk.start walk.at
        buffer.new result }
{
    let mut here = walk;
    for i in from..message.len() {
        here = step(message, buffer, ends, here, i);
    }
    here.at
}

// The bytes that end a leaf: CR, and the separators of fields, components, repetitions and subcomponents.
fn ends_of(message: &[u8]) -> [u8; 5]
    ensures { result ≡ ends_of message.now }
{
    let field = alphabet::byte_at(message, 3);
    let component = alphabet::byte_at(message, 4);
    let repetition = alphabet::byte_at(message, 5);
    let subcomponent = alphabet::byte_at(message, 7);
    [
        alphabet::CARRIAGE_RETURN,
        field,
        component,
        repetition,
        subcomponent,
    ]
}

// The rows of all leaves from the one on in which a walk stands, block by block; the place behind them.
fn list_rest(message: &[u8], buffer: &mut [u64], walk: Walk, from: usize) -> usize
    requires { (from ≤ length message.now)
        × Stands message.now buffer.old walk.address walk.start walk.at from
        × (reading message.now ≡ passes) }
    ensures { WritesAll message.now buffer.old walk.address walk.start walk.at
        buffer.new result }
{
    let ends = ends_of(message);
    let mut place = from;
    let mut here = walk;
    while MARKED <= message.len() - place {
        let marks = mark(&message[place..place + MARKED], ends);
        here = list_block(message, buffer, ends, marks, place, here);
        place += MARKED;
    }
    list_few(message, buffer, ends, here, place)
}

// The rows of all leaves of a message, at the front of the buffer, and how many numbers they have. The two fields of MSH
// that are not split come first; behind byte 8 the walk begins.
pub fn list_all(message: &[u8], buffer: &mut [u64]) -> usize
    requires { (length (rows (leaves_of message.now)) ≤ length buffer.old) × (reading message.now ≡ passes) }
    ensures value { result ≡ length (rows (leaves_of message.now)) }
    ensures buffer_after { buffer.new ≡ over (rows (leaves_of message.now)) buffer.old }
{
    let encoding = address_of(0, 2, 1, 1, 1);
    put_row(buffer, 0, address_of(0, 1, 1, 1, 1), 3, 3, 4);
    put_row(buffer, 8, encoding, 3, 4, 8);
    let walk = pass(ends_of(message), message[8], encoding, 8, 16);
    list_rest(message, buffer, walk, 9)
}
