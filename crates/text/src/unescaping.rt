// Reading a text: from the left, a sequence judged whole at its opening byte. It is judged to its end before anything
// is written, so that a refusal writes nothing.
ghost use Rattle.std.specs.Prelude.{◌≡◌, true, ◌+◌, ◌≤◌, ◌<◌, length, get_or, drop};
ghost use Rattle.alphabet.specs.Lists.{find};
ghost use Rattle.escaping.specs.Escape.{escape_of};
ghost use Rattle.text.specs.Unescape.{plain_text, sequence, step, scan};
ghost use Rattle.text.specs.Judging.{text_check, is_text, text_of, seen};
ghost use Rattle.text.specs.Unescape.{unescaping};
ghost use Rattle.escaping.specs.Outcomes.{answer, filled};
ghost use Rattle.alphabet.specs.Filling.{over};

use crate::sequences::{is_known, put_meaning};
use alphabet::{Delimiters, Fault, Refusal, fails_if};
use escaping::check_delimiters;
use plain::{place_of, plain_run};

// What stands at a place of a text, where it is no fault: it says as many bytes as `length`, and `skip` bytes after the
// first belong to it.
#[derive(Clone, Copy)]
struct Said {
    length: usize,
    skip: usize,
}

// What the escape delimiter at the place i opens.
#[tactic(auto, unfolding(crate::specs::Unescape::sequence, crate::specs::Judging::seen))]
fn sequence_in(delimiters: Delimiters, text: &[u8], i: usize) -> Result<Said, Fault>
    requires { i < length text.now }
    ensures { result ≡ seen i
        (sequence plain_text delimiters.bytes (drop (i + 1) text.now)
        (find (escape_of delimiters.bytes) (drop (i + 1) text.now))) }
{
    let five = delimiters.bytes;
    let from = i + 1;
    let rest = &text[from..];
    let n = alphabet::find(rest, five[3]);
    fails_if(rest.len() <= n, Refusal::UnclosedEscape, i)?;
    fails_if(!is_known(&rest[..n]), Refusal::UnknownEscape, i)?;
    let skip = n + 1;
    if n < 3 {
        return Ok(Said { length: 1, skip });
    }
    let length = n / 2;
    Ok(Said { length, skip })
}

// What stands at the place i.
#[tactic(auto, unfolding(crate::specs::Unescape::step, crate::specs::Judging::seen))]
fn step_at(delimiters: Delimiters, text: &[u8], i: usize) -> Result<Said, Fault>
    requires { i < length text.now }
    ensures { result ≡ seen i
        (step plain_text delimiters.bytes (get_or text.now i 0) (drop (i + 1) text.now)) }
{
    let five = delimiters.bytes;
    let b = text[i];
    if b == five[3] {
        return sequence_in(delimiters, text, i);
    }
    fails_if(!alphabet::is_printable(b), Refusal::NotAllowed, i)?;
    fails_if(place_of(five, b) < 5, Refusal::Separator, i)?;
    Ok(Said { length: 1, skip: 0 })
}

// The text's length, or its first fault: what stands at a place, and the bytes that stand plainly behind it, at each
// turn. By index: a fault is told with its place, and how far a turn goes is known only in it.
fn judge(delimiters: Delimiters, text: &[u8]) -> Result<usize, Fault>
    ensures { result ≡ answer (scan plain_text delimiters.bytes 0 0 text.now) }
{
    let mut length = 0;
    let mut i = 0;
    while i < text.len() {
        let said = step_at(delimiters, text, i)?;
        length += said.length;
        i = i + 1 + said.skip;
        let run = plain_run(delimiters, &text[i..]);
        length += run;
        i += run;
    }
    Ok(length)
}

// Writes what a text with no fault says to the front of the buffer: a sequence, or the bytes up to the next one, at
// each turn. These stand plainly, since there is no fault, so that an escape alone is sought.
fn write_text(delimiters: Delimiters, text: &[u8], buffer: &mut [u8])
    requires { (is_text (scan plain_text delimiters.bytes 0 0 text.now) ≡ true)
        × (length (text_of (scan plain_text delimiters.bytes 0 0 text.now)) ≤ length buffer.old) }
    ensures { buffer.new
        ≡ over (text_of (scan plain_text delimiters.bytes 0 0 text.now)) buffer.old }
{
    let five = delimiters.bytes;
    let mark = five[3];
    let mut place = 0;
    let mut i = 0;
    while i < text.len() {
        let b = text[i];
        if b == mark {
            let from = i + 1;
            let rest = &text[from..];
            let n = alphabet::find(rest, mark);
            place = put_meaning(delimiters, &rest[..n], buffer, place);
            i = from + n + 1;
        } else {
            let end = i + search::find_one(&text[i..], mark);
            place = alphabet::put_long(buffer, place, &text[i..end]);
            i = end;
        }
    }
}

// Refuses delimiters that are wrong, and null, which has no text.
pub fn check_text(delimiters: Delimiters, text: &[u8]) -> Result<(), Fault>
    ensures { result ≡ text_check delimiters.bytes text.now }
{
    check_delimiters(delimiters)?;
    fails_if(alphabet::is_null(text), Refusal::NullText, 0)
}

// Reads a text, writes what it says to the front of the buffer, and gives its length there.
pub fn unescape(delimiters: Delimiters, text: &[u8], buffer: &mut [u8]) -> Result<usize, Fault>
    ensures value { result ≡ answer (unescaping delimiters.bytes text.now (length buffer.old)) }
    ensures buffer_after { buffer.new
        ≡ filled (unescaping delimiters.bytes text.now (length buffer.old))
        buffer.old }
{
    check_text(delimiters, text)?;
    let n = judge(delimiters, text)?;
    fails_if(buffer.len() < n, Refusal::NoRoom, 0)?;
    write_text(delimiters, text, buffer);
    Ok(n)
}
