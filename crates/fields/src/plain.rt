// A quick look at a segment that is as nearly all are: short, and with each field that is judged seen at once to be
// sound. Where its fields end is noted in one walk. That it does not see a segment to be sound says nothing: the rows
// are then judged one by one, from the cursor of `walk`.
ghost use Rattle.std.specs.Prelude.{◌≡◌, true, cond, ℕ, ◌≤◌, eqb, get_or, Some};
ghost use Rattle.alphabet.specs.Answers.{passes};
ghost use Rattle.ends.specs.Ends.{Noted};
ghost use Rattle.field_table.specs.Table.{rows};
ghost use Rattle.rules.specs.Plain.{Permitted};
ghost use Rattle.fields.specs.Judging.{sound, name_at};
ghost use Rattle.fields.specs.Walk.{row_in, judged_in, NoneBefore, NoneFrom, Indexed};

use alphabet::Delimiters;
use ends::ROOM;
use field_table::Row;

// In a longer segment a field may be long, whose end is found faster by blocks.
const LONG: usize = 512;

// By how much less than its number a field's place in its segment is: MSH, the first segment, has its fields counted from
// its separator.
fn base_of(number: usize) -> usize
    ensures { result ≡ cond (eqb number 0) 1 0 }
{
    if number == 0 {
        return 1;
    }
    0
}

// The place of a field in its segment, of which ends are noted up to `most`, where it has one there that is split.
fn index_in(field: usize, base: usize, most: usize) -> Option<usize>
    requires { base ≤ 1 }
    ensures { (index : ℕ) → result ≡ Some index → Indexed field base most index }
{
    if field <= 2 * base {
        return None;
    }
    let index = field - base;
    if (most < index) | (ROOM <= index) {
        return None;
    }
    Some(index)
}

// Whether a row's field is seen at once to be sound.
fn is_row_plain(
    delimiters: Delimiters,
    segment: &[u8],
    base: usize,
    row: Row,
    ends: &[usize; 16],
    most: usize,
) -> bool
    requires { base ≤ 1 }
    ensures { result ≡ true → Permitted delimiters.bytes → (number : ℕ) → base ≡ cond (eqb number 0) 1 0
        → Noted (get_or delimiters.bytes 0 0) segment.now most ends.now
        → row_in delimiters.bytes segment.now number row ≡ passes }
{
    let Some(index) = index_in(row.field, base, most) else {
        return false;
    };
    let bytes = ends::part(segment, ends, index);
    let Some(by) = rules::said_field(row.kind) else {
        return rules::is_plain(delimiters, row, bytes);
    };
    let Some(said_index) = index_in(by, base, most) else {
        return false;
    };
    let said = ends::part(segment, ends, said_index);
    rules::is_plain_said(row, said, bytes)
}

// Whether the rows from `from` up to `to`, which has all those of a name, are seen at once to find no fault in a segment of
// that name.
pub fn is_plain(
    delimiters: Delimiters,
    segment: &[u8],
    number: usize,
    name: u32,
    from: usize,
    to: usize,
) -> bool
    requires { NoneBefore rows name from × NoneFrom rows name to }
    ensures { result ≡ true → Permitted delimiters.bytes → name ≡ name_at number segment.now
        → judged_in rows delimiters.bytes number segment.now ≡ sound }
{
    if to <= from {
        return true;
    }
    if LONG < segment.len() {
        return false;
    }
    let bytes = delimiters.bytes;
    let last = field_table::row_at(to - 1);
    let most = last.field;
    let mut ends = [0usize; 16];
    ends::note(segment, bytes[0], most, &mut ends);
    let base = base_of(number);
    for index in from..to {
        let row = field_table::row_at(index);
        if row.segment != name {
            continue;
        }
        if !is_row_plain(delimiters, segment, base, row, &ends, most) {
            return false;
        }
    }
    true
}

// The same of any delimiters: where they are not those of a message that can be read, nothing is seen at once.
pub fn is_seen_sound(
    delimiters: Delimiters,
    segment: &[u8],
    number: usize,
    name: u32,
    from: usize,
    to: usize,
) -> bool
    requires { NoneBefore rows name from × NoneFrom rows name to }
    ensures { result ≡ true → name ≡ name_at number segment.now
        → judged_in rows delimiters.bytes number segment.now ≡ sound }
{
    if alphabet::first_wrong_delimiter(delimiters) != 5 {
        return false;
    }
    is_plain(delimiters, segment, number, name, from, to)
}
