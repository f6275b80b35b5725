// The line of an ERR segment, put together of its pieces in a small buffer: 71 bytes at most, whatever the numbers, so
// that a buffer of 80 always takes it. The pieces share a lifetime, so that one array can hold them.
ghost use Rattle.std.specs.Prelude.{◌≡◌, ◌≤◌, length};
ghost use Rattle.alphabet.specs.Filling.{over};
ghost use Rattle.reading.specs.Message.{ended};
ghost use Rattle.together.specs.Together.{together};
ghost use Rattle.error_segment.specs.Errors.{error_lines};
ghost use Rattle.error_segment.specs.Pieces.{said, marks_of, line_pieces};

use crate::codes::error_code;
use crate::locating::locate;
use crate::numerals::{Numeral, no_numeral, numeral_of};
use crate::places::{field_position, name_at, points_nowhere};
use alphabet::Delimiters;
use fault::FaultRecord;

// What stands around the parts: the name, the separators of fields and of components, and CR.
fn marks_of(delimiters: Delimiters) -> [u8; 6]
    ensures { result ≡ marks_of delimiters.bytes }
{
    [
        b'E',
        b'R',
        b'R',
        delimiters.bytes[0],
        delimiters.bytes[1],
        alphabet::CARRIAGE_RETURN,
    ]
}

// Puts a line of these parts to the front of a buffer, and returns its length.
fn put_line<'a>(
    name: &'a [u8],
    sequence: &'a [u8],
    field: &'a [u8],
    code: &'a [u8],
    marks: &'a [u8],
    line: &mut [u8],
) -> usize
    requires name_len_bound { (length name.now ≤ 3) × (length marks.now ≡ 6) × (80 ≤ length line.old) }
    requires sequence_len_bound { (length sequence.now ≤ 20) × (length field.now ≤ 20) × (length code.now ≤ 20) }
    ensures value { result ≡ length (together (line_pieces name.now sequence.now field.now
        code.now marks.now)) }
    ensures line_after { line.new
        ≡ over (together (line_pieces name.now sequence.now field.now
        code.now marks.now)) line.old }
{
    let front = &marks[..4];
    let between = &marks[4..5];
    let end = &marks[5..6];
    let pieces = [
        front, name, between, sequence, between, field, between, code, end,
    ];
    together::put(&pieces, 80, line).unwrap()
}

// Puts a line of a name and of three numerals.
fn put_parts(
    name: &[u8],
    sequence: Numeral,
    field: Numeral,
    code: Numeral,
    delimiters: Delimiters,
    line: &mut [u8],
) -> usize
    requires name_len_bound { (length name.now ≤ 3) × (80 ≤ length line.old) }
    requires start_bound { (sequence.start ≤ 20) × (field.start ≤ 20) × (code.start ≤ 20) }
    ensures value { result ≡ length (together (line_pieces name.now (said sequence) (said field) (said code)
        (marks_of delimiters.bytes))) }
    ensures line_after { line.new
        ≡ over (together (line_pieces name.now (said sequence) (said field) (said code)
        (marks_of delimiters.bytes))) line.old }
{
    let marks = marks_of(delimiters);
    put_line(
        name,
        sequence.as_slice(),
        field.as_slice(),
        code.as_slice(),
        &marks,
        line,
    )
}

// Writes the ERR segment of a message, with its CR, to the front of a buffer, and returns its length: 0 where the
// message is accepted.
pub fn put_segment(message: &[u8], found: Result<(), FaultRecord>, line: &mut [u8; 80]) -> usize
    ensures value { result ≡ length (ended (error_lines message.now found)) }
    ensures line_after { line.new ≡ over (ended (error_lines message.now found)) line.old }
{
    let Err(fault) = found else {
        return 0;
    };
    let delimiters = reading::delimiters_of(message);
    let code = numeral_of(error_code(fault.kind, fault.place, fault.field));
    if points_nowhere(fault.kind) {
        return put_parts(
            &message[..0],
            no_numeral(),
            no_numeral(),
            code,
            delimiters,
            line,
        );
    }
    let located = locate(message, fault.place);
    let sequence = numeral_of(located.sequence);
    let field = field_position(fault.kind, fault.field);
    let name = name_at(message, located.segment);
    put_parts(name, sequence, field, code, delimiters, line)
}
