// The lines of a text of several: LF ends each, also where it is the last byte, and stands in none of them. Each is
// printed on a line of its own, and any other byte as elsewhere.
use terminal::Output;

// LF, which ends a line.
const LINE_FEED: u8 = 10;

// Prints the lines of a text, with the same bytes before each that is not empty.
pub fn print_lines(out: &mut Output, before: &[u8], text: &[u8]) {
    for ended in text.split_inclusive(|byte| *byte == LINE_FEED) {
        let line = ended.strip_suffix(&[LINE_FEED]).unwrap_or(ended);
        if !line.is_empty() {
            out.print(before);
            out.print(line);
        }
        out.end_line();
    }
}
