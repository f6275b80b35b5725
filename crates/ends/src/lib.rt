// Where the parts of some bytes end, noted in one walk, for one who asks for many of them, as for the fields of a
// segment. The separators are marked eight bytes at a time, and each mark is an end. A part is then cut out between its
// noted end and that of the one before it.
#![tactic(auto)]

ghost use Rattle.std.specs.Prelude.{◌≡◌, [], ℕ, ◌+◌, ◌≤◌, ◌<◌, length, get_or};
ghost use Rattle.alphabet.specs.Parts.{split};
ghost use Rattle.ends.specs.Ends.{Noted, Reached, Marked};

// How many ends there is room for.
pub const ROOM: usize = 16;

// How many bytes are marked together.
const WORD: usize = 8;

// Notes the ends in the word that begins at `place` and has these marks, and returns how many are noted by then. Each
// turn takes the lowest mark away. The bytes and the separator stand in the contract alone, here and in `note_end`. The
// ends are an array with a count, for no heap is used.
fn note_word(
    bytes: &[u8],
    separator: u8,
    ends: &mut [usize; ROOM],
    from: usize,
    place: usize,
    marked: u64,
) -> usize
    requires marks { Marked separator bytes.now place marked }
    requires reached { Reached separator bytes.now from place ends.old }
    ensures { Reached separator bytes.now result (place + 8) ends.new }
{
    let mut count = from;
    let mut found = marked;
    while found != 0 {
        if count == ROOM {
            return count;
        }
        ends[count] = place + (found.trailing_zeros() / 8) as usize;
        count += 1;
        found = found & (found - 1);
    }
    count
}

// Notes the ends from `start` on, byte by byte, where there are fewer bytes than make a word.
fn note_rest(
    bytes: &[u8],
    separator: u8,
    ends: &mut [usize; ROOM],
    from: usize,
    start: usize,
) -> usize
    requires within { start ≤ length bytes.now }
    requires reached { Reached separator bytes.now from start ends.old }
    ensures { Reached separator bytes.now result (length bytes.now) ends.new }
{
    let mut count = from;
    for i in start..bytes.len() {
        if bytes[i] == separator {
            if count == ROOM {
                return count;
            }
            ends[count] = i;
            count += 1;
        }
    }
    count
}

// Notes that the parts that are left up to `most` end where the bytes do: the last part, and those that are absent.
fn note_end(bytes: &[u8], separator: u8, most: usize, ends: &mut [usize; ROOM], from: usize)
    requires { Reached separator bytes.now from (length bytes.now) ends.old }
    ensures { Noted separator bytes.now most ends.new }
{
    for k in from..ROOM {
        if most < k {
            return;
        }
        ends[k] = bytes.len();
    }
}

// Notes where the parts up to the one of the index `most` end, as far as there is room. The walk ends as soon as there
// are ends enough.
pub fn note(bytes: &[u8], separator: u8, most: usize, ends: &mut [usize; ROOM])
    ensures { Noted separator bytes.now most ends.new }
{
    let (words, rest) = bytes.as_chunks::<WORD>();
    let mut count = 0;
    for (i, word) in words.iter().enumerate() {
        let marked = search::sought(word, separator, separator);
        count = note_word(bytes, separator, ends, count, i * WORD, marked);
        if most < count {
            return;
        }
    }
    let noted = note_rest(bytes, separator, ends, count, bytes.len() - rest.len());
    note_end(bytes, separator, most, ends, noted);
}

// The part of an index, not 0, by its noted end and that of the one before it; no bytes where there is none.
pub fn part<'a>(bytes: &'a [u8], ends: &[usize; 16], index: usize) -> &'a [u8]
    ensures { (sep most : ℕ) → Noted sep bytes.now most ends.now → index ≤ most
        → index < 16 → (index ≡ 0 → ⊥) → result.now ≡ get_or (split sep bytes.now) index [] }
{
    if (index == 0) | (ROOM <= index) {
        return &bytes[..0];
    }
    let before = ends[index - 1];
    let end = ends[index];
    if (end <= before) | (bytes.len() < end) {
        return &bytes[..0];
    }
    let start = before + 1;
    &bytes[start..end]
}
