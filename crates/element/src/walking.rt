// The walk along a segment to one of its fields, from where the segment begins. It ends with the field's start or the
// segment's CR, and looks at nothing behind, but for the rest of a block.
ghost use Rattle.std.specs.Prelude.{◌≡◌, ◌+◌, ◌≤◌, eqb, length};
ghost use Rattle.alphabet.specs.Bytes.{carriage_return};
ghost use Rattle.alphabet.specs.Parts.{split};
ghost use Rattle.element.specs.Ends.{StartsPart, OnTheWay};

use alphabet::{BLOCK, CARRIAGE_RETURN};

// From which part of a segment on the walk to it passes over blocks.
const FAR: usize = 8;

// How many separators a block has, one fewer than it has parts: counted in a byte, so that the compiler takes many at
// once.
fn separators_in(block: &[u8], separator: u8) -> u8
    requires { length block.now ≤ 32 }
    ensures { result + 1 ≡ length (split separator block.now) }
{
    let mut count: u8 = 0;
    for &b in block {
        if b == separator {
            count += 1;
        }
    }
    count
}

// How far a walk along a segment has come, and how many separators it has still to pass.
#[derive(Clone, Copy)]
struct Walk {
    place: usize,
    left: usize,
}

// The walk from `start` to part `index` over whole blocks: those without CR and with fewer separators than are left.
fn pass_blocks(message: &[u8], start: usize, separator: u8, index: usize) -> Walk
    requires { 1 ≤ index }
    ensures { OnTheWay separator message.now start index result.place result.left }
{
    let mut i = start;
    let mut left = index;
    while i < message.len() {
        if message.len() - i < BLOCK {
            return Walk {
                place: i,
                left: left,
            };
        }
        let block = &message[i..i + BLOCK];
        if !alphabet::is_without(block, CARRIAGE_RETURN) {
            return Walk {
                place: i,
                left: left,
            };
        }
        let count = separators_in(block, separator) as usize;
        if left <= count {
            return Walk {
                place: i,
                left: left,
            };
        }
        left -= count;
        i += BLOCK;
    }
    Walk {
        place: i,
        left: left,
    }
}

// The beginning of that walk: parts of low numbers stand near, and no block is worth its cost there.
fn begin_walk(message: &[u8], start: usize, separator: u8, index: usize) -> Walk
    requires { 1 ≤ index }
    ensures { OnTheWay separator message.now start index result.place result.left }
{
    if index < FAR {
        return Walk {
            place: start,
            left: index,
        };
    }
    pass_blocks(message, start, separator, index)
}

// Where part `index`, from 0, of the segment that begins at `start` begins: a field, or the name.
pub fn field_start(message: &[u8], start: usize, separator: u8, index: usize) -> Option<usize>
    ensures { StartsPart separator (eqb carriage_return) message.now (Some start) index result }
{
    if index == 0 {
        return Some(start);
    }
    let walk = begin_walk(message, start, separator, index);
    let mut left = walk.left;
    for i in walk.place..message.len() {
        let b = message[i];
        if b == CARRIAGE_RETURN {
            return None;
        }
        if b == separator {
            if left == 1 {
                return Some(i + 1);
            }
            left -= 1;
        }
    }
    None
}
