// One walk over the segments of a message for the reader and the structure: each segment is read, and takes the
// structure's walk one on. A reading fault stands before any of the structure's, so the walk goes on to the end.
ghost use Rattle.std.specs.Prelude.{◌≡◌};
ghost use Rattle.reading.specs.Reading.{segments_check};
ghost use Rattle.structure.specs.Shapes.{Shape};
ghost use Rattle.structure.specs.Engine.{into, Tables};
ghost use Rattle.structure.specs.OneWalk.{unlisted_answer, JudgedAsRead};

use crate::judging::tell;
use crate::rows::Rows;
use crate::walking::{advance, begin, finish};
use alphabet::{Fault, Refusal};
use fault::FaultRecord;

// The answer about a message whose type chooses no structure, where only its segments are left to be read.
pub fn judge_unlisted(message: &[u8]) -> Result<(), FaultRecord>
    ensures { result ≡ unlisted_answer (segments_check message.now) }
{
    reading::check_segments(message)?;
    Err(FaultRecord::from(Fault {
        kind: Refusal::NoStructure,
        place: 0,
    }))
}

// Judges the segments of a message as they are read, by tables, for whatever structure they are the tables of.
pub fn judge_segments(message: &[u8], rows: Rows<'_>) -> Result<(), FaultRecord>
    ensures { (s : Shape)
        → Tables s rows.entry.names.now rows.entry.follow.now rows.entry.last (into 1)
        → JudgedAsRead s message.now result }
{
    let separator = alphabet::byte_at(message, 3);
    let mut course = begin();
    let mut number = 0;
    let mut start = 0;
    let mut end = reading::segment_end(message, start);
    while end < message.len() {
        let segment = &message[start..end];
        reading::check_segment(segment, separator, number, start)?;
        let name = reading::name_of(segment);
        course = advance(rows, course, number, name);
        number += 1;
        start = end + 1;
        end = reading::segment_end(message, start);
    }
    tell(finish(course, number), rows.names)
}
