// A segment of a message as C sees it.
ghost use Rattle.std.specs.Prelude.{◌≡◌};
ghost use Rattle.seen.specs.Seen.{segment_seen};

use alphabet::Fault;
use segments::Segment;

// A number of the table and its place, or the name, three bytes with the first highest, and where the segment stands:
// from `start` up to `end`, where its CR is.
#[repr(C)]
#[derive(Clone, Copy)]
pub struct CSegment {
    pub number: u32,
    pub name: u32,
    pub place: usize,
    pub start: usize,
    pub end: usize,
}

// A segment as C sees it.
impl From<Result<Segment, Fault>> for CSegment {
    ghost from_gives = { λ found r. r ≡ segment_seen found };

    fn from(found: Result<Segment, Fault>) -> CSegment {
        match found {
            Ok(segment) => CSegment {
                number: 0,
                name: segment.name,
                place: 0,
                start: segment.start,
                end: segment.end,
            },
            Err(fault) => CSegment {
                number: u32::from(u8::from(fault.kind)),
                name: 0,
                place: fault.place,
                start: 0,
                end: 0,
            },
        }
    }
}
