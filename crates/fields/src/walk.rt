// A walk along the bytes of one segment: a cursor goes forward from field to field, so that the rows of a segment,
// whose fields rise, pass over its bytes once. A row that asks for a field behind the cursor is answered from the
// segment's start.
ghost use Rattle.std.specs.Prelude.{◌≡◌, ◌+◌, ◌^◌, ◌≤◌, ◌<◌, true, cond, [], length, get_or, drop};
ghost use Rattle.alphabet.specs.Lists.{find};
ghost use Rattle.alphabet.specs.Parts.{split};
ghost use Rattle.rules.specs.Rules.{is_said, said_field, is_any};
ghost use Rattle.fields.specs.Walk.{field_index, field_bytes, first_of, Stands, Reaches, Finds, Begins, Goes, Steps, Judges};

use alphabet::{Delimiters, Fault};
use field_table::{Kind, Row};
use rules::{
    check_opening, check_own, check_repetition, component_of, is_any, kind_of, said_field,
};

// Part `index` of a segment, from 0, begins at `place`.
#[derive(Clone, Copy)]
pub struct Cursor {
    pub index: usize,
    pub place: usize,
}

// A part of a segment, from `start` up to and without `end`, its repetition 1 up to and without `first`; and the cursor
// from which to seek the next.
#[derive(Clone, Copy)]
struct Sought {
    pub cursor: Cursor,
    pub start: usize,
    pub first: usize,
    pub end: usize,
}

// A row of a segment as it is judged, where no check has failed: where those of its repetitions stand that are left, from
// `start` up to and without `end`, or none where `start` is past `end`; the number of the first of them; and what they
// are to be judged by.
#[derive(Clone, Copy)]
struct Turn {
    pub cursor: Cursor,
    pub start: usize,
    pub end: usize,
    pub repetition: usize,
    pub component: usize,
    pub kind: Kind,
}

// The cursor, or the segment's start where the part that is wanted stands before it.
fn rewound(segment: &[u8], separator: u8, cursor: Cursor, wanted: usize) -> Cursor
    requires { Stands separator segment.now cursor }
    ensures { Stands separator segment.now result × (result.index ≤ wanted) }
{
    if wanted < cursor.index {
        return Cursor { index: 0, place: 0 };
    }
    cursor
}

// The cursor behind a part that was found, from which the next is sought; at the part itself where it is the last.
fn behind(segment: &[u8], separator: u8, cursor: Cursor, end: usize) -> Cursor
    requires { Stands separator segment.now cursor
        × (end ≡ cursor.place + find separator (drop cursor.place segment.now)) }
    ensures { Stands separator segment.now result }
{
    if end < segment.len() {
        return Cursor {
            index: cursor.index + 1,
            place: end + 1,
        };
    }
    cursor
}

// The cursor at the part of an index, from 0; where there are fewer parts, at the last of them.
fn reach(segment: &[u8], separator: u8, cursor: Cursor, wanted: usize) -> Cursor
    requires { Stands separator segment.now cursor }
    ensures { Reaches separator segment.now wanted result }
{
    let from = rewound(segment, separator, cursor, wanted);
    let mut index = from.index;
    let mut place = from.place;
    while index < wanted {
        let end = place + alphabet::find(&segment[place..], separator);
        if end == segment.len() {
            return Cursor {
                index: index,
                place: place,
            };
        }
        place = end + 1;
        index += 1;
    }
    Cursor {
        index: index,
        place: place,
    }
}

// Where the part ends of which repetition 1 ends at `first`.
fn end_behind(segment: &[u8], separator: u8, first: usize) -> usize
    requires { first ≤ length segment.now }
    ensures { result ≡ first + find separator (drop first segment.now) }
{
    if first == segment.len() {
        return first;
    }
    if segment[first] == separator {
        return first;
    }
    first + search::find_by_words(&segment[first..], separator)
}

// The part of an index, from 0; where there is none, no bytes.
fn seek(segment: &[u8], delimiters: Delimiters, cursor: Cursor, wanted: usize) -> Sought
    requires { Stands (get_or delimiters.bytes 0 0) segment.now cursor }
    ensures { Finds delimiters.bytes segment.now
        (get_or (split (get_or delimiters.bytes 0 0) segment.now) wanted []) result }
{
    let bytes = delimiters.bytes;
    let at = reach(segment, bytes[0], cursor, wanted);
    let start = at.place;
    if at.index < wanted {
        return Sought {
            cursor: at,
            start: start,
            first: start,
            end: start,
        };
    }
    let first = start + search::find_two(&segment[start..], bytes[0], bytes[2]);
    let end = end_behind(segment, bytes[0], first);
    Sought {
        cursor: behind(segment, bytes[0], at, end),
        start: start,
        first: first,
        end: end,
    }
}

// Which part of its segment a field is: MSH, the first segment, has its fields counted from its separator.
fn index_of(number: usize, field: usize) -> usize
    ensures { result ≡ field_index number field }
{
    if number != 0 {
        return field;
    }
    if field == 0 {
        return 0;
    }
    field - 1
}

// A field of a segment, by its number: the first two of MSH are never split, and held against none.
fn field_in(
    delimiters: Delimiters,
    segment: &[u8],
    number: usize,
    field: usize,
    cursor: Cursor,
) -> Sought
    requires { Stands (get_or delimiters.bytes 0 0) segment.now cursor }
    ensures { Finds delimiters.bytes segment.now
        (field_bytes delimiters.bytes segment.now number field) result }
{
    if (number == 0) & (field <= 2) {
        return Sought {
            cursor: cursor,
            start: 0,
            first: 0,
            end: 0,
        };
    }
    seek(segment, delimiters, cursor, index_of(number, field))
}

// The bytes of a field of a segment, sought from its start; none where it is absent.
fn field_bytes(delimiters: Delimiters, segment: &[u8], number: usize, field: usize) -> &[u8]
    ensures { result.now ≡ field_bytes delimiters.bytes segment.now number field }
{
    if (number == 0) & (field <= 2) {
        return &segment[..0];
    }
    let bytes = delimiters.bytes;
    element::part_in(segment, bytes[0], index_of(number, field))
}

// Repetition 1 of a field of a segment, as of the one that says a row's type.
fn said_in(delimiters: Delimiters, segment: &[u8], number: usize, field: usize) -> &[u8]
    ensures { result.now ≡ first_of delimiters.bytes segment.now number field }
{
    let whole = field_bytes(delimiters, segment, number, field);
    let bytes = delimiters.bytes;
    let end = alphabet::find(whole, bytes[2]);
    &whole[..end]
}

// Where the repetitions begin that are left to be judged: none are where any bytes pass.
fn left_from(kind: Kind, start: usize, end: usize) -> usize
    requires { end + 1 < 2 ^ 64 }
    ensures { result ≡ cond (is_any kind) (end + 1) start }
{
    if is_any(kind) {
        return end + 1;
    }
    start
}

// A row whose type another field says, with its field found.
fn begin_said(
    delimiters: Delimiters,
    segment: &[u8],
    number: usize,
    row: Row,
    by: usize,
    sought: Sought,
) -> Result<Turn, Fault>
    requires { Finds delimiters.bytes segment.now (field_bytes delimiters.bytes segment.now number row.field) sought
        × (is_said row.kind ≡ true) × (by ≡ said_field row.kind) × (length segment.now + 1 < 2 ^ 64) }
    ensures { Begins delimiters.bytes segment.now number row result }
{
    let start = sought.start;
    let first = sought.first;
    let end = sought.end;
    let said = said_in(delimiters, segment, number, by);
    check_opening(
        delimiters,
        row,
        said,
        &segment[start..first],
        first < end,
        &segment[start..end],
    )?;
    let kind = kind_of(row.kind, said);
    Ok(Turn {
        cursor: sought.cursor,
        start: left_from(kind, start, end),
        end,
        repetition: 1,
        component: component_of(row, said),
        kind,
    })
}

// Begins a row of a segment: its field is sought from the cursor, and its opening checked, with repetition 1 where the
// row says its own type.
fn begin_row(
    delimiters: Delimiters,
    segment: &[u8],
    number: usize,
    row: Row,
    cursor: Cursor,
) -> Result<Turn, Fault>
    requires { Stands (get_or delimiters.bytes 0 0) segment.now cursor × (length segment.now + 1 < 2 ^ 64) }
    ensures { Begins delimiters.bytes segment.now number row result }
{
    let sought = field_in(delimiters, segment, number, row.field, cursor);
    if let Some(by) = said_field(row.kind) {
        return begin_said(delimiters, segment, number, row, by, sought);
    }
    let start = sought.start;
    let first = sought.first;
    let end = sought.end;
    check_own(delimiters, row, &segment[start..first], first < end)?;
    Ok(Turn {
        cursor: sought.cursor,
        start: left_from(row.kind, first + 1, end),
        end,
        repetition: 2,
        component: row.component,
        kind: row.kind,
    })
}

// Judges the next of the repetitions that are left.
fn next_repetition(delimiters: Delimiters, segment: &[u8], turn: Turn) -> Result<Turn, Fault>
    requires { Goes segment.now turn }
    ensures { Steps delimiters.bytes segment.now turn result }
{
    let bytes = delimiters.bytes;
    let start = turn.start;
    let end = turn.end;
    let next = start + search::find_by_words(&segment[start..end], bytes[2]);
    check_repetition(
        delimiters,
        turn.component,
        turn.kind,
        turn.repetition,
        &segment[start..next],
    )?;
    Ok(Turn {
        cursor: turn.cursor,
        start: next + 1,
        end,
        repetition: turn.repetition + 1,
        component: turn.component,
        kind: turn.kind,
    })
}

// Judges a row of a segment: its opening, and then its repetitions in turn. Gives the cursor from which to seek the next.
// The turn says itself where it ends and which repetition it is, since a fault is told with that number.
pub fn judge_row(
    delimiters: Delimiters,
    segment: &[u8],
    number: usize,
    row: Row,
    cursor: Cursor,
) -> Result<Cursor, Fault>
    requires { Stands (get_or delimiters.bytes 0 0) segment.now cursor × (length segment.now + 1 < 2 ^ 64) }
    ensures { Judges delimiters.bytes segment.now number row result }
{
    let mut turn = begin_row(delimiters, segment, number, row, cursor)?;
    let next = turn.cursor;
    while turn.start <= turn.end {
        turn = next_repetition(delimiters, segment, turn)?;
    }
    Ok(next)
}
