// Writing a text: whether it fits is told first, so that a text that does not fit writes nothing.
ghost use Rattle.std.specs.Prelude.{◌≡◌, ◌≤◌, leb, length};
ghost use Rattle.escaping.specs.Escape.{escape_bytes};
ghost use Rattle.alphabet.specs.Filling.{over};
ghost use Rattle.escaping.specs.Outcomes.{delimiters_check, escaping, answer, filled};

use crate::blocks::block_length;
use crate::pieces::put_written;
use alphabet::{BLOCK, Delimiters, Fault, Refusal, fails_if};
use plain::plain_run;

// Whether a room is enough for a text as it is written. Five bytes for each of its bytes are always enough; where there are
// fewer it is measured, block by block. It is counted against the room, since five times a length need not be a usize.
fn is_enough(delimiters: Delimiters, text: &[u8], room: usize) -> bool
    ensures { result ≡ leb (length (escape_bytes delimiters.bytes text.now)) room }
{
    if text.len() <= room / 5 {
        return true;
    }
    let (blocks, rest) = text.as_chunks::<BLOCK>();
    let mut n = 0;
    for block in blocks {
        let more = block_length(delimiters, block);
        if room - n < more {
            return false;
        }
        n += more;
    }
    let last = block_length(delimiters, rest);
    last <= room - n
}

// Writes a text to the front of the buffer, and returns its length there: one byte, and what stands plainly behind it,
// at each turn.
fn write_escaped(delimiters: Delimiters, text: &[u8], buffer: &mut [u8]) -> usize
    requires { length (escape_bytes delimiters.bytes text.now) ≤ length buffer.old }
    ensures value { result ≡ length (escape_bytes delimiters.bytes text.now) }
    ensures buffer_after { buffer.new
        ≡ over (escape_bytes delimiters.bytes text.now) buffer.old }
{
    let mut place = 0;
    let mut rest = text;
    while let Some((first, behind)) = rest.split_first() {
        place = put_written(delimiters, *first, buffer, place);
        let (run, next) = behind.split_at(plain_run(delimiters, behind));
        place = alphabet::put_long(buffer, place, run);
        rest = next;
    }
    place
}

// Refuses delimiters that are not permitted or not all different, as both directions of text do first.
pub fn check_delimiters(delimiters: Delimiters) -> Result<(), Fault>
    ensures { result ≡ delimiters_check delimiters.bytes }
{
    let wrong = alphabet::first_wrong_delimiter(delimiters);
    fails_if(wrong < 5, Refusal::Delimiter, wrong)
}

// Writes a text to the front of the buffer, and gives its length there.
#[tactic(auto, unfolding(crate::specs::Outcomes::answer, crate::specs::Outcomes::filled))]
pub fn escape(delimiters: Delimiters, text: &[u8], buffer: &mut [u8]) -> Result<usize, Fault>
    ensures value { result ≡ answer (escaping delimiters.bytes text.now (length buffer.old)) }
    ensures buffer_after { buffer.new
        ≡ filled (escaping delimiters.bytes text.now (length buffer.old))
        buffer.old }
{
    check_delimiters(delimiters)?;
    if alphabet::is_null(text) {
        fails_if(buffer.len() < 7, Refusal::NoRoom, 0)?;
        let five = delimiters.bytes;
        let mark = five[3];
        let quotes = [mark, 88, 50, 50, 50, 50, mark];
        alphabet::put(buffer, 0, &quotes);
        return Ok(7);
    }
    fails_if(
        !is_enough(delimiters, text, buffer.len()),
        Refusal::NoRoom,
        0,
    )?;
    Ok(write_escaped(delimiters, text, buffer))
}
