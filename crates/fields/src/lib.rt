// The fields of a message judged by the table of document 01, 'Fields judged': numbers 31 to 37.
// The judge takes any bytes, and looks for no fault of reading: whoever asks it has read the message.
#![tactic(auto)]

mod plain;
mod walk;

ghost use Rattle.std.specs.Prelude.{◌≡◌, ◌+◌, ◌^◌, ◌<◌, length};
ghost use Rattle.field_table.specs.Table.{rows};
ghost use Rattle.fields.specs.Judging.{name_at};
ghost use Rattle.fields.specs.Walk.{NoneBefore, NoneFrom, judged_in};

use alphabet::Delimiters;
use fault::FieldFault;
use field_table::COUNT;
use walk::{Cursor, judge_row};

// The name of a segment: that of the first is MSH.
fn name_of(number: usize, segment: &[u8]) -> u32
    ensures { result ≡ name_at number segment.now }
{
    if number == 0 {
        return field_table::MSH;
    }
    reading::name_of(segment)
}

// Where the rows of a name begin: none before is of it. The compiler knows the table, and makes of this search a choice
// among its names.
fn first_row(name: u32) -> usize
    ensures { NoneBefore rows name result }
{
    for index in 0..COUNT {
        let row = field_table::row_at(index);
        if row.segment == name {
            return index;
        }
    }
    COUNT
}

// Where the rows of a name end: none from there on is of it.
fn end_of_rows(name: u32) -> usize
    ensures { NoneFrom rows name result }
{
    let mut index = COUNT;
    while 0 < index {
        let row = field_table::row_at(index - 1);
        if row.segment == name {
            break;
        }
        index -= 1;
    }
    index
}

// What the rows of a name find in a segment of that name, one by one, to the first fault: those from `from` up to and
// without `to`, which has all of them.
fn judge_rows(
    delimiters: Delimiters,
    segment: &[u8],
    number: usize,
    name: u32,
    from: usize,
    to: usize,
) -> Result<(), FieldFault>
    requires { NoneBefore rows name from × NoneFrom rows name to × (name ≡ name_at number segment.now)
        × (length segment.now + 1 < 2 ^ 64) }
    ensures { result ≡ judged_in rows delimiters.bytes number segment.now }
{
    let mut cursor = Cursor { index: 0, place: 0 };
    for index in from..to {
        let row = field_table::row_at(index);
        if row.segment != name {
            continue;
        }
        match judge_row(delimiters, segment, number, row, cursor) {
            Ok(next) => cursor = next,
            Err(fault) => {
                return Err(FieldFault {
                    kind: fault.kind,
                    segment: number,
                    field: row.field,
                    repetition: fault.place,
                });
            }
        }
    }
    Ok(())
}

// The first fault of the fields of one segment. Most segments are seen at once to have none.
pub fn judge_segment(
    delimiters: Delimiters,
    segment: &[u8],
    number: usize,
) -> Result<(), FieldFault>
    requires { length segment.now + 1 < 2 ^ 64 }
    ensures { result ≡ judged_in rows delimiters.bytes number segment.now }
{
    let name = name_of(number, segment);
    let from = first_row(name);
    let to = end_of_rows(name);
    if plain::is_seen_sound(delimiters, segment, number, name, from, to) {
        return Ok(());
    }
    judge_rows(delimiters, segment, number, name, from, to)
}
