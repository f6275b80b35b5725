// Words on the line: bytes that fit behind what stands there are put down together, and a word that passes the line's
// end goes to the next.
ghost use Rattle.std.specs.Prelude.{◌≡◌, true, [], ◌∷◌, ◌++◌, map, ◌+◌, ◌-◌, ◌≤◌, ◌<◌, length, get_or, take, drop};
ghost use Rattle.format_commands.specs.Items.{byte};
ghost use Rattle.formatting.specs.Sheet.{blanks, of_word};
ghost use Rattle.formatting.specs.Runs.{clear, firm, blankless};
ghost use Rattle.formatting.specs.Pages.{Sound, Slight, Follows, Wraps, Settled, reach_of};

use crate::page::{Page, WIDTH};
use crate::writing::{end_lines, fill};

// Whether a byte may stand in a word.
pub fn is_of_word(b: u8) -> bool
    ensures { result ≡ of_word b }
{
    !((b == 32) | ((b == 13) | (b == 10)))
}

// Where the last word begins: behind the last blank.
fn last_word(bytes: &[u8]) -> usize
    ensures { (result ≤ length bytes.now) × (blankless (drop result bytes.now) ≡ true)
        × (0 < result → get_or bytes.now (result - 1) 0 ≡ 32) }
{
    let mut start = bytes.len();
    while 0 < start {
        if bytes[start - 1] == 32 {
            return start;
        }
        start -= 1;
    }
    start
}

// How many bytes there are without the blanks at the end.
fn trimmed(bytes: &[u8]) -> usize
    ensures { (result ≤ length bytes.now) × (firm (take result bytes.now) ≡ true)
        × (bytes.now ≡ take result bytes.now ++ blanks (length bytes.now - result)) }
{
    let mut end = bytes.len();
    while 0 < end {
        if bytes[end - 1] != 32 {
            return end;
        }
        end -= 1;
    }
    end
}

// The page behind bytes that were put down: the words that ended, the blanks behind them, and the word that is left.
fn settle(mut page: Page, bytes: &[u8]) -> Page
    requires { (Slight page) × (reach_of page + length bytes.now ≤ 200) × (clear bytes.now ≡ true) }
    ensures { Settled page bytes.now result }
{
    let reach = page.reach();
    let start = last_word(bytes);
    page.after = false;
    if start == 0 {
        page.word = page.word + bytes.len();
        return page;
    }
    let blank = start - 1;
    let end = trimmed(&bytes[..blank]);
    if end + page.word == 0 {
        page.owed = page.owed + start;
        page.word = bytes.len() - start;
        return page;
    }
    page.line = reach + end;
    page.owed = start - end;
    page.word = bytes.len() - start;
    page
}

// Puts bytes down on the line, where they fit: the blanks that are owed, and the bytes behind them.
pub fn append(page: Page, line: &mut [u8], buffer: &[u8], bytes: &[u8]) -> Page
    requires { (Sound page line.old buffer.now) × (reach_of page + length bytes.now ≤ 200)
        × (0 < length bytes.now) × (clear bytes.now ≡ true) }
    ensures { Follows (map byte bytes.now) page line.old buffer.now result
        line.new buffer.now }
{
    let lead = page.lead();
    let reach = page.reach();
    fill(line, page.line, lead, 32);
    alphabet::put(line, reach, bytes);
    settle(page, bytes)
}

// A line of blanks, to keep a word in.
pub fn empty_line() -> [u8; 200]
    ensures { length result ≡ 200 }
{
    [32; 200]
}

// Moves a word that is not on its line yet to the front of another, behind n blanks.
fn move_word(line: &mut [u8], from: usize, word: usize, n: usize)
    requires { (from + word ≤ 200) × (n + word ≤ 200) × (length line.old ≡ 200) }
    ensures { take (length (blanks n ++ take word (drop from line.old))) line.new
        ≡ blanks n ++ take word (drop from line.old) }
{
    let mut kept = empty_line();
    let end = from + word;
    alphabet::put(&mut kept, 0, &line[from..end]);
    fill(line, 0, n, 32);
    alphabet::put(line, n, &kept[..word]);
}

// Ends the line before a word that passes its end, and takes the word to the next.
fn wrap(page: Page, line: &mut [u8], buffer: &mut [u8]) -> Page
    requires { (Sound page line.old buffer.old) × (page.margin + page.word ≤ 200) }
    ensures { Wraps page line.old buffer.old result line.new buffer.new }
{
    let next = end_lines(page, 1, line, buffer);
    if page.word == 0 {
        return next;
    }
    let lead = page.lead();
    let from = page.line + lead;
    move_word(line, from, page.word, page.margin);
    next
}

// One byte more of a word.
pub fn grow(mut page: Page, line: &mut [u8], buffer: &mut [u8], b: u8) -> Page
    requires { (Sound page line.old buffer.old) × (of_word b ≡ true) }
    ensures { Follows (byte b ∷ []) page line.old buffer.old result line.new
        buffer.new }
{
    let one = [b];
    let reach = page.reach();
    if reach < WIDTH {
        return append(page, line, buffer, &one);
    }
    if page.fill & (page.margin + page.word < WIDTH) {
        let next = wrap(page, line, buffer);
        return append(next, line, buffer, &one);
    }
    page.unfit = true;
    page
}
