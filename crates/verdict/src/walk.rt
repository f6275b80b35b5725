// One walk over the segments of a message for all three judges: each segment is read, takes the structure's walk one on,
// and is judged by the rows of its name.
ghost use Rattle.std.specs.Prelude.{◌≡◌, ◌+◌, ◌^◌, ◌<◌, true, length};
ghost use Rattle.std.specs.Result.{is_ok};
ghost use Rattle.field_table.specs.Table.{rows};
ghost use Rattle.structure.specs.Shapes.{Shape};
ghost use Rattle.structure.specs.Engine.{into, Tables};
ghost use Rattle.fields.specs.Judging.{Fault, or_fault};
ghost use Rattle.fields.specs.Walk.{judged_in};
ghost use Rattle.verdict.specs.Walk.{Decides};

use alphabet::Delimiters;
use fault::{FaultRecord, FieldFault};
use structure::{Course, Rows};

// Judges the fields of one segment more, unless the verdict is known without them: a fault was found before, or the
// structure has refused.
fn judge_more(
    found: Result<(), FieldFault>,
    course: Course,
    delimiters: Delimiters,
    segment: &[u8],
    number: usize,
) -> Result<(), FieldFault>
    requires { length segment.now + 1 < 2 ^ 64 }
    ensures { is_ok course ≡ true → (later : Fault)
        → or_fault result later
        ≡ or_fault found (or_fault (judged_in rows delimiters.bytes number segment.now) later) }
{
    found?;
    if course.is_err() {
        return Ok(());
    }
    fields::judge_segment(delimiters, segment, number)
}

// The verdict on the segments of a message, by tables, for whatever structure they are the tables of. The structure's
// refusal stands before any field's.
pub fn judge_segments(message: &[u8], rows: Rows<'_>) -> Result<(), FaultRecord>
    ensures { (s : Shape)
        → Tables s rows.entry.names.now rows.entry.follow.now rows.entry.last (into 1)
        → Decides s message.now result }
{
    let delimiters = reading::delimiters_of(message);
    let separator = alphabet::byte_at(message, 3);
    let mut course = structure::begin();
    let mut found = Ok(());
    let mut number = 0;
    let mut start = 0;
    let mut end = reading::segment_end(message, start);
    while end < message.len() {
        let segment = &message[start..end];
        reading::check_segment(segment, separator, number, start)?;
        let name = reading::name_of(segment);
        course = structure::advance(rows, course, number, name);
        found = judge_more(found, course, delimiters, segment, number);
        number += 1;
        start = end + 1;
        end = reading::segment_end(message, start);
    }
    let walked = structure::finish(course, number);
    structure::tell(walked, rows.names)?;
    Ok(found?)
}
