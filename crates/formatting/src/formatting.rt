// What becomes of a formatted text. A refusal writes nothing, and is known only at the end: so the lines are written as
// a draft first, in memory of our own, or where there is not enough of it measured first, and then written.
ghost use Rattle.std.specs.Prelude.{◌≡◌, length};
ghost use Rattle.escaping.specs.Outcomes.{answer, filled};
ghost use Rattle.formatting.specs.Pages.{Sound};
ghost use Rattle.formatting.specs.Laying.{Finishes, concluded, laid_in, Typesets};
ghost use Rattle.formatting.specs.Formatting.{formatting};

use crate::laying::lay;
use crate::page::{Page, first_page};
use crate::words::empty_line;
use crate::writing::show_line;
use alphabet::{Delimiters, Fault, Refusal, fails_if};
use text::check_text;

// The longest texts whose lines are first written as a small draft, a middle one and a large one.
const SHORT: usize = 1_536;

const MIDDLE: usize = 6_144;

const LONG: usize = 32_768;

// The end of the text: the word is ended, and the line is written, with no LF.
fn finish(page: Page, line: &[u8], buffer: &mut [u8]) -> Page
    requires { Sound page line.now buffer.old }
    ensures { Finishes page line.now buffer.old result buffer.new }
{
    let closed = page.close_word();
    show_line(closed, 0, line, buffer)
}

// What a page says at the end: 42, then 14, then the length of its lines.
#[tactic(auto, unfolding(crate::specs::Laying::concluded))]
fn conclude(page: Page) -> Result<usize, Fault>
    ensures { result ≡ concluded page }
{
    fails_if(page.unfit, Refusal::Layout, 0)?;
    fails_if(page.short, Refusal::NoRoom, 0)?;
    Ok(page.place)
}

// Measures the lines of a text, or writes them.
fn typeset(
    delimiters: Delimiters,
    text: &[u8],
    writes: bool,
    buffer: &mut [u8],
) -> Result<usize, Fault>
    ensures { Typesets delimiters.bytes text.now writes buffer.old result
        buffer.new }
{
    let mut line = empty_line();
    let page = lay(first_page(writes), &mut line, buffer, delimiters, text)?;
    conclude(finish(page, &line, buffer))
}

// Measures the lines, so that a refusal writes nothing, and then writes them: the text is walked twice.
fn measure_first(delimiters: Delimiters, text: &[u8], buffer: &mut [u8]) -> Result<usize, Fault>
    ensures value { result ≡ answer (laid_in delimiters.bytes text.now (length buffer.old)) }
    ensures buffer_after { buffer.new
        ≡ filled (laid_in delimiters.bytes text.now (length buffer.old))
        buffer.old }
{
    typeset(delimiters, text, false, buffer)?;
    typeset(delimiters, text, true, buffer)
}

// Writes the lines into memory of our own, as a draft, and hands them over: where they fit there, the text is walked
// once.
fn draft_first(
    delimiters: Delimiters,
    text: &[u8],
    draft: &mut [u8],
    buffer: &mut [u8],
) -> Result<usize, Fault>
    ensures value { result ≡ answer (laid_in delimiters.bytes text.now (length buffer.old)) }
    ensures buffer_after { buffer.new
        ≡ filled (laid_in delimiters.bytes text.now (length buffer.old))
        buffer.old }
{
    let Ok(n) = typeset(delimiters, text, true, draft) else {
        return measure_first(delimiters, text, buffer);
    };
    fails_if(buffer.len() < n, Refusal::NoRoom, 0)?;
    alphabet::put(buffer, 0, &draft[..n]);
    Ok(n)
}

// Room for drafts, of three sizes, since a short text should not wait for a large one to be cleared. What it is filled
// with does not matter.
fn small_draft() -> [u8; 2_048] {
    [32; 2_048]
}

fn middle_draft() -> [u8; 8_192] {
    [32; 8_192]
}

fn large_draft() -> [u8; 32_768] {
    [32; 32_768]
}

// Turns a text that is not null into lines, under permitted delimiters: by way of the smallest draft that holds them if
// they are not much longer than the text.
fn lay_out(delimiters: Delimiters, text: &[u8], buffer: &mut [u8]) -> Result<usize, Fault>
    ensures value { result ≡ answer (laid_in delimiters.bytes text.now (length buffer.old)) }
    ensures buffer_after { buffer.new
        ≡ filled (laid_in delimiters.bytes text.now (length buffer.old))
        buffer.old }
{
    if text.len() <= SHORT {
        let mut draft = small_draft();
        return draft_first(delimiters, text, &mut draft, buffer);
    }
    if text.len() <= MIDDLE {
        let mut draft = middle_draft();
        return draft_first(delimiters, text, &mut draft, buffer);
    }
    if text.len() <= LONG {
        let mut draft = large_draft();
        return draft_first(delimiters, text, &mut draft, buffer);
    }
    measure_first(delimiters, text, buffer)
}

// Turns a formatted text into plain lines, writes them to the front of the buffer, and gives their length there.
pub fn format(delimiters: Delimiters, text: &[u8], buffer: &mut [u8]) -> Result<usize, Fault>
    ensures value { result ≡ answer (formatting delimiters.bytes text.now (length buffer.old)) }
    ensures buffer_after { buffer.new
        ≡ filled (formatting delimiters.bytes text.now (length buffer.old))
        buffer.old }
{
    check_text(delimiters, text)?;
    lay_out(delimiters, text, buffer)
}
