// A line is cut into words at each space. Two spaces have an empty word between them, and a space at an end of the line
// has one beside it, so that a line with a space too many has a word too many.
ghost use Rattle.std.specs.Prelude.{◌≡◌, [], length, get_or};
ghost use Rattle.asking.specs.Words.{words};

use alphabet::Part;

// How many words a line has.
pub fn count(line: &[u8]) -> usize
    ensures { result ≡ length (words line.now) }
{
    line.iter().filter(|byte| **byte == b' ').count() + 1
}

// The word at a place of a line, where the first is at place 0. There is an empty one at every place behind the last.
// The words come one by one and not as an array of slices, since what returns one of any size is not proved yet.
pub fn word(line: &[u8], place: usize) -> &[u8]
    ensures { result.now ≡ get_or (words line.now) place [] }
{
    match alphabet::nth_part(line, b' ', place) {
        Some(Part { start, end }) => &line[start..end],
        None => &line[..0],
    }
}
