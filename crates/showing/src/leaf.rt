// The leaves of a message, as rows of numbers give them. Nothing is assumed of a row: its numbers may be any.
ghost use Rattle.std.specs.Prelude.{◌≡◌, length, slice_index};
ghost use Rattle.std.specs.Iterator.{at_most};

use element::{Address, Element, State};
use places::{Segment, Walk};

// A row: the number of the segment, those of the field, the repetition, the component and the subcomponent, the state,
// and where the leaf begins and ends.
// They are numbers, since `leaves::list` writes them into the caller's buffer, and C has the same rows.
pub type Row = [u64; 8];

// A leaf: its address, and what stands there.
#[derive(Clone, Copy)]
pub struct Leaf {
    pub address: Address,
    pub element: Element,
}

impl From<Row> for Leaf {
    ghost from_gives = { λ row leaf. leaf.address.field ≡ slice_index row 1 };

    fn from(row: Row) -> Leaf {
        let [
            segment,
            field,
            repetition,
            component,
            subcomponent,
            state,
            start,
            end,
        ] = row;
        Leaf {
            address: Address {
                segment: segment as usize,
                field: field as usize,
                repetition: repetition as usize,
                component: component as usize,
                subcomponent: subcomponent as usize,
            },
            element: Element {
                state: match state {
                    0 => State::Absent,
                    1 => State::Empty,
                    2 => State::Null,
                    _ => State::Present,
                },
                start: start as usize,
                end: end as usize,
            },
        }
    }
}

// The rows at the front of a buffer, where it has room for as many.
pub fn first_rows(buffer: &[u64], count: usize) -> &[Row] {
    let (rows, _) = buffer.as_chunks::<8>();
    rows.get(..count).unwrap_or(&[])
}

// The segments of a message that are still to come, and the rows of their leaves.
#[derive(Drop)]
pub struct LeafWalk<'a> {
    segments: Walk<'a>,
    rows: &'a [Row],
}

// A segment comes with the rows of its own leaves. Segments are counted here and not by the rows, since one that is a
// name alone has none.
impl<'a> Iterator for LeafWalk<'a> {
    type Item = (Segment<'a>, &'a [Row]);

    ghost remaining = { λ s. at_most (length s.segments.rest.now) };

    fn next(&mut self) -> Option<(Segment<'a>, &'a [Row])> {
        let segment = self.segments.next()?;
        let number = segment.number as u64;
        let rows = self.rows;
        let count = rows
            .iter()
            .position(|row| row[0] != number)
            .unwrap_or(rows.len());
        self.rows = rows.get(count..).unwrap_or(&[]);
        Some((segment, rows.get(..count).unwrap_or(&[])))
    }
}

// The segments of a message, each with the rows of its leaves.
pub fn with_leaves<'a>(message: &'a [u8], rows: &'a [Row]) -> LeafWalk<'a>
    ensures message { result.segments.rest.now ≡ message.now }
    ensures rows { result.rows.now ≡ rows.now }
{
    LeafWalk {
        segments: places::segments(message),
        rows,
    }
}
