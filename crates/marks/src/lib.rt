// A segment is drawn on a line, and on the next one stand marks under the bytes that are meant. Both lines have 80
// columns at most: a wide segment is cut to a window around the marks, and dots stand where it goes on. No bytes are
// marked by one mark, at the place where they would be.
#![tactic(auto)]

ghost use Rattle.std.specs.Prelude.{◌≤◌, length};
ghost use Rattle.std.specs.Iterator.{UpTo};

use terminal::Output;

// The most columns of a segment that is drawn whole: four blanks stand before it, and a mark may stand behind its end.
const WHOLE: usize = 75;

// The most columns that are drawn of a segment that is cut: dots stand on both sides.
const WIDTH: usize = 72;

// How many of them stand before the marks, at most.
const BEFORE: usize = 36;

// How many columns a byte takes that is printed: one, or four where it stands in braces.
fn columns_of(byte: u8) -> usize {
    if terminal::is_plain(byte) { 1 } else { 4 }
}

// How many of some bytes in a row take no more than so many columns.
fn count_fitting<'a, I: Iterator<Item = &'a u8> + Drop>(bytes: I, columns: usize) -> usize
    requires can { I.can_next bytes }
    requires ends { UpTo (I.remaining bytes) 18446744073709551615 }
{
    bytes
        .scan(columns, |left, byte| {
            *left = left.checked_sub(columns_of(*byte))?;
            Some(())
        })
        .count()
}

// The place up to which the bytes from `start` on take no more than so many columns.
fn fitting_end(bytes: &[u8], start: usize, columns: usize) -> usize
    ensures { result ≤ length bytes.now }
{
    let rest = places::piece(bytes, start, bytes.len());
    let count = count_fitting(rest.iter(), columns);
    start.saturating_add(count).min(bytes.len())
}

// The place from which on the bytes before `end` take no more than so many columns.
fn fitting_start(bytes: &[u8], end: usize, columns: usize) -> usize
    ensures { result ≤ end }
{
    let before = places::piece(bytes, 0, end);
    end.saturating_sub(count_fitting(before.iter().rev(), columns))
}

// Whether a segment is drawn whole.
fn is_whole(segment: &[u8]) -> bool {
    fitting_end(segment, 0, WHOLE) == segment.len()
}

// The place from which on a segment is drawn that is cut, for marks from `start` on. Near its end more stands before
// them, so that the line is filled.
fn window_start(segment: &[u8], start: usize) -> usize
    requires { start ≤ length segment.now }
    ensures { result ≤ start }
{
    let around = fitting_start(segment, start, BEFORE);
    let at_end = fitting_start(segment, segment.len(), WIDTH);
    around.min(at_end)
}

// Prints what stands before each of the two lines: for a segment that was cut, two bytes more.
fn print_before(out: &mut Output, from: usize, dots: &[u8]) {
    out.print(b"    ");
    if from != 0 {
        out.print(dots);
    }
}

// Draws the window of a segment.
fn draw_segment(out: &mut Output, segment: &[u8], from: usize, until: usize) {
    print_before(out, from, b"..");
    out.print(places::piece(segment, from, until));
    if until < segment.len() {
        out.print(b"..");
    }
    out.end_line();
}

// Draws the marks: under the bytes from `start` up to and without `end`.
fn draw_marks(out: &mut Output, segment: &[u8], from: usize, start: usize, end: usize) {
    print_before(out, from, b"  ");
    out.print_under(places::piece(segment, from, start), b' ');
    let marked = places::piece(segment, start, end);
    if marked.is_empty() {
        out.print(b"^");
    } else {
        out.print_under(marked, b'^');
    }
    out.end_line();
}

// Draws a segment with marks under its bytes from `start` up to and without `end`.
pub fn draw(out: &mut Output, segment: &[u8], start: usize, end: usize) {
    let first = start.min(segment.len());
    if is_whole(segment) {
        draw_segment(out, segment, 0, segment.len());
        draw_marks(out, segment, 0, first, end.min(segment.len()));
        return;
    }
    let from = window_start(segment, first);
    let until = fitting_end(segment, from, WIDTH);
    draw_segment(out, segment, from, until);
    draw_marks(out, segment, from, first, end.min(until));
}

// Draws a segment with a mark under the byte at a place.
pub fn draw_byte(out: &mut Output, segment: &[u8], place: usize) {
    let first = place.min(segment.len());
    draw(out, segment, first, first + 1);
}
