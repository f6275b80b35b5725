// A line is gathered over as many pieces of the input as it takes. One that is longer than the room for it is not kept,
// and is known to be too long until it ends.
ghost use Rattle.std.specs.Prelude.{ℕ, List, [], ◌++◌, ◌≡◌, ◌≤◌, length, take, Option, Some, None, option_map, IfSome};
ghost use Rattle.asking.specs.Lines.{Gathered};

use crate::bytes;
use std::marker::Model;

// How many bytes are gathered of a line, or none where it is too long.
pub type Line = Option<usize>;

// A line as it is gathered, in room for so many bytes.
// An array with how many it holds, for no heap is used.
#[derive(Drop)]
pub struct GatheredLine<const ROOM: usize> {
    bytes: [u8; ROOM],
    held: Line,
}

// A line is its bytes, or nothing where it is too long.
impl<const ROOM: usize> Model for GatheredLine<ROOM> {
    ghost Value = { Option (List ℕ) };

    ghost view = { λ line. option_map (λ held. take held line.bytes) line.held };

    ghost invariant = { λ line. IfSome line.held (λ held. held ≤ ROOM) };
}

impl<const ROOM: usize> GatheredLine<ROOM> {
    // A line of which nothing has come.
    pub fn new() -> GatheredLine<ROOM>
        ensures { result ≡ Some [] }
    {
        GatheredLine {
            bytes: [0; ROOM],
            held: Some(0),
        }
    }

    // Its bytes, unless it is too long.
    pub fn text(&self) -> Option<&[u8]>
        ensures { option_map (λ text. text.now) result ≡ self.now }
    {
        match self.held {
            Some(held) => Some(&self.bytes[..held]),
            None => None,
        }
    }

    // Begins the next line.
    pub fn clear(&mut self)
        ensures { self.new ≡ Some [] }
    {
        self.held = Some(0);
    }

    // Adds `part` to the line.
    pub fn gather(&mut self, part: &[u8])
        ensures { (bytes : List ℕ) → Gathered ROOM self.old bytes → Gathered ROOM self.new (bytes ++ part.now) }
    {
        self.held = match self.held {
            Some(held) if part.len() <= ROOM - held => Some(bytes::put(
                &mut self.bytes,
                held,
                part,
            )),
            _ => None,
        };
    }
}
