// How a walk by a structure's tables becomes a judgement: accepted, or a segment that cannot stand where it stands, or
// a message that ended early, with the names that could have stood there.
ghost use Rattle.std.specs.Prelude.{◌≡◌, ◌≤◌, length};
ghost use Rattle.structure.specs.Shapes.{Shape};
ghost use Rattle.structure.specs.SegmentNames.{segment_names};
ghost use Rattle.structure.specs.Judged.{Judged};
ghost use Rattle.structure.specs.Engine.{into, Tables, Tells, recorded};

use crate::listing::names_at;
use crate::rows::Rows;
use crate::walking::{Stop, walk};
use alphabet::Refusal;
use fault::FaultRecord;

// The record of why a walk stopped.
fn record_of(stop: Stop, names: &[u32]) -> FaultRecord
    requires { length names.now ≤ 64 }
    ensures { result ≡ recorded stop names.now }
{
    let (kind, place, could_end, places) = match stop {
        Stop::Misplaced(stuck) => (
            Refusal::SegmentMisplaced,
            stuck.place,
            stuck.next.ends,
            stuck.next.places,
        ),
        Stop::Early { place, places } => (Refusal::EndedEarly, place, false, places),
    };
    FaultRecord {
        kind,
        place,
        field: 0,
        repetition: 0,
        could_end,
        names: names_at(names, places),
    }
}

// Tells what a walk by some tables came to, for whatever structure they are the tables of.
#[tactic(auto, using(crate::proofs::Telling::told))]
pub fn tell(walked: Result<(), Stop>, names: &[u32]) -> Result<(), FaultRecord>
    requires { length names.now ≤ 64 }
    ensures { Tells walked names.now result }
{
    walked.map_err(|stop| record_of(stop, names))
}

// Judges the names of a message by tables, for whatever structure they are the tables of.
pub fn judge_by(message: &[u8], rows: Rows<'_>) -> Result<(), FaultRecord>
    ensures { (s : Shape)
        → Tables s rows.entry.names.now rows.entry.follow.now rows.entry.last (into 1)
        → Judged s (segment_names message.now) result }
{
    tell(walk(message, rows), rows.names)
}
