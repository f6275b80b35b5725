// Bytes of a text on the page: those of a word, blanks, and the ends of lines; and runs of them.
ghost use Rattle.std.specs.Prelude.{◌≡◌, true, false, [], ◌∷◌, map};
ghost use Rattle.alphabet.specs.Hex.{all_hex, pairs_of};
ghost use Rattle.text.specs.Unescape.{known, meaning};
ghost use Rattle.format_commands.specs.Items.{byte};
ghost use Rattle.formatting.specs.Sheet.{of_word};
ghost use Rattle.formatting.specs.Runs.{clear};
ghost use Rattle.formatting.specs.Pages.{Sound, Follows};

use crate::page::{Page, WIDTH};
use crate::words::{append, grow, is_of_word};
use crate::writing::end_lines;
use alphabet::Delimiters;
use escaping::LETTERS;
use plain::place_of;

// A blank, or the end of a line: CR, LF, or LF behind CR, which ends it once.
fn take_space(page: Page, line: &[u8], buffer: &mut [u8], b: u8) -> Page
    requires { (Sound page line.now buffer.old) × (of_word b ≡ false) }
    ensures { Follows (byte b ∷ []) page line.now buffer.old result line.now
        buffer.new }
{
    let closed = page.close_word();
    if b == 32 {
        return closed.owe(1);
    }
    if (b == 10) & page.after {
        return closed;
    }
    let mut next = end_lines(closed, 1, line, buffer);
    next.after = b == 13;
    next
}

// One byte.
pub fn take_byte(page: Page, line: &mut [u8], buffer: &mut [u8], b: u8) -> Page
    requires { Sound page line.old buffer.old }
    ensures { Follows (byte b ∷ []) page line.old buffer.old result line.new
        buffer.new }
{
    if is_of_word(b) {
        return grow(page, line, buffer, b);
    }
    take_space(page, line, buffer, b)
}

// Bytes that stand plainly and go on past the line's end: as many at each turn as fit on the line, or one where none
// fits. Once something could not be laid nothing is laid behind it, so that a document that is no text costs little.
fn take_long(page: Page, line: &mut [u8], buffer: &mut [u8], run: &[u8]) -> Page
    requires { (Sound page line.old buffer.old) × (clear run.now ≡ true) }
    ensures { Follows (map byte run.now) page line.old buffer.old result
        line.new buffer.new }
{
    let mut p = page;
    let mut i = 0;
    while i < run.len() {
        if p.unfit {
            return p;
        }
        let reach = p.reach();
        if WIDTH <= reach {
            p = take_byte(p, line, buffer, run[i]);
            i += 1;
        } else {
            let end = i + (WIDTH - reach).min(run.len() - i);
            p = append(p, line, buffer, &run[i..end]);
            i = end;
        }
    }
    p
}

// Bytes that stand plainly: together, where all fit on the line, as most do.
pub fn take_run(page: Page, line: &mut [u8], buffer: &mut [u8], run: &[u8]) -> Page
    requires { (Sound page line.old buffer.old) × (clear run.now ≡ true) }
    ensures { Follows (map byte run.now) page line.old buffer.old result
        line.new buffer.new }
{
    let reach = page.reach();
    if reach < WIDTH {
        if (0 < run.len()) & (run.len() <= WIDTH - reach) {
            return append(page, line, buffer, run);
        }
    }
    take_long(page, line, buffer, run)
}

// The bytes that pairs of digits say.
fn take_pairs(page: Page, line: &mut [u8], buffer: &mut [u8], digits: &[u8]) -> Page
    requires { (Sound page line.old buffer.old) × (all_hex digits.now ≡ true) }
    ensures { Follows (map byte (pairs_of digits.now)) page line.old buffer.old result
        line.new buffer.new }
{
    let mut p = page;
    let mut i = 0;
    while i < digits.len() {
        let high = alphabet::hex_value(digits[i]);
        let low = alphabet::hex_value(digits[i + 1]);
        p = take_byte(p, line, buffer, high * 16 + low);
        i += 2;
    }
    p
}

// The bytes that a known sequence says.
pub fn take_meaning(
    page: Page,
    line: &mut [u8],
    buffer: &mut [u8],
    delimiters: Delimiters,
    inside: &[u8],
) -> Page
    requires { (Sound page line.old buffer.old) × (known inside.now ≡ true) }
    ensures { Follows (map byte (meaning delimiters.bytes inside.now)) page line.old
        buffer.old result line.new buffer.new }
{
    if inside.len() == 1 {
        let five = delimiters.bytes;
        let i = place_of(LETTERS, inside[0]);
        return take_byte(page, line, buffer, five[i]);
    }
    take_pairs(page, line, buffer, &inside[1..])
}
