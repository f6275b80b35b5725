// The checks of reading, each against its own definition: 1 to 4, which an acknowledgement asks of the
// header alone, then 5, then 6 to 8 segment by segment.
ghost use Rattle.std.specs.Prelude.{◌≡◌, [], ◌∷◌};
ghost use Rattle.alphabet.specs.Answers.{in_order};
ghost use Rattle.reading.specs.Segments.{capital_or_digit, is_header, named};
ghost use Rattle.reading.specs.Reading.{length_check, headed, header_check, delimiter_check, byte_check, opening, end_check, segment_check, segments_check};

use crate::segments::{delimiters_of, segment_end};
use alphabet::{Fault, Refusal};

// The first three bytes are `MSH`.
fn is_header(segment: &[u8]) -> bool
    ensures { result ≡ is_header segment.now }
{
    let m = alphabet::byte_at(segment, 0);
    let s = alphabet::byte_at(segment, 1);
    let h = alphabet::byte_at(segment, 2);
    (m == 77) & ((s == 83) & (h == 72))
}

// What may follow the first letter of a name.
fn may_follow(b: u8) -> bool
    ensures { result ≡ capital_or_digit b }
{
    if alphabet::is_capital(b) {
        return true;
    }
    alphabet::is_digit(b)
}

// A good name, followed by the field separator or by the segment's end. It branches, since nearly every name is good and
// has no digit.
fn is_named(segment: &[u8], separator: u8) -> bool
    ensures { result ≡ named separator segment.now }
{
    if segment.len() < 3 {
        return false;
    }
    if !alphabet::is_capital(segment[0]) {
        return false;
    }
    if !may_follow(segment[1]) {
        return false;
    }
    if !may_follow(segment[2]) {
        return false;
    }
    if segment.len() == 3 {
        return true;
    }
    segment[3] == separator
}

// Nine bytes, `MSH`, and byte 8 the field separator or CR.
fn is_headed(message: &[u8]) -> bool
    ensures { result ≡ headed message.now }
{
    let separator = alphabet::byte_at(message, 3);
    let eighth = alphabet::byte_at(message, 8);
    (9 <= message.len())
        & (is_header(message) & ((eighth == separator) | (eighth == alphabet::CARRIAGE_RETURN)))
}

fn check_length(message: &[u8]) -> Result<(), Fault>
    ensures { result ≡ length_check message.now }
{
    let most = alphabet::message_limit();
    let outside = (message.len() == 0) | (most < message.len());
    alphabet::fails_if(outside, Refusal::Length, 0)
}

fn check_header(message: &[u8]) -> Result<(), Fault>
    ensures { result ≡ header_check message.now }
{
    alphabet::fails_if(!is_headed(message), Refusal::Header, 0)
}

fn check_delimiters(message: &[u8]) -> Result<(), Fault>
    ensures { result ≡ delimiter_check message.now }
{
    let wrong = alphabet::first_wrong_delimiter(delimiters_of(message));
    alphabet::fails_if(wrong < 5, Refusal::Delimiter, 3 + wrong)
}

fn check_bytes(message: &[u8]) -> Result<(), Fault>
    ensures { result ≡ byte_check message.now }
{
    let place = alphabet::first_not_allowed(message);
    alphabet::fails_if(place < message.len(), Refusal::NotAllowed, place)
}

// Checks 1 to 4, in order.
#[tactic(auto, unfolding(crate::specs::Reading::opening))]
pub fn check_opening(message: &[u8]) -> Result<(), Fault>
    ensures { result ≡ opening message.now }
{
    check_length(message)?;
    check_header(message)?;
    check_delimiters(message)?;
    check_bytes(message)
}

// Check 5.
pub fn check_end(message: &[u8]) -> Result<(), Fault>
    ensures { result ≡ end_check message.now }
{
    let length = message.len();
    let last = if length == 0 { 0 } else { length - 1 };
    let byte = alphabet::byte_at(message, last);
    alphabet::fails_if(
        !(byte == alphabet::CARRIAGE_RETURN),
        Refusal::NotEnded,
        last,
    )
}

// Checks 6 to 8 of the segment of a number, from 0, that begins at `start`.
pub fn check_segment(
    segment: &[u8],
    separator: u8,
    number: usize,
    start: usize,
) -> Result<(), Fault>
    ensures { result ≡ segment_check separator number start segment.now }
{
    let most = alphabet::segment_limit();
    if number == most {
        return Err(Fault {
            kind: Refusal::TooManySegments,
            place: start,
        });
    }
    if !is_named(segment, separator) {
        return Err(Fault {
            kind: Refusal::SegmentName,
            place: start,
        });
    }
    let again = (0 < number) & is_header(segment);
    alphabet::fails_if(again, Refusal::SecondHeader, start)
}

// Checks 6 to 8 of every segment, from the left, up to the first fault.
pub fn check_segments(message: &[u8]) -> Result<(), Fault>
    ensures { result ≡ segments_check message.now }
{
    let separator = alphabet::byte_at(message, 3);
    let mut number = 0;
    let mut start = 0;
    while start < message.len() {
        let end = segment_end(message, start);
        if end == message.len() {
            return Ok(());
        }
        check_segment(&message[start..end], separator, number, start)?;
        start = end + 1;
        number += 1;
    }
    Ok(())
}

// Check 5, then 6 to 8.
pub fn check_rest(message: &[u8]) -> Result<(), Fault>
    ensures { result ≡ in_order (end_check message.now ∷ segments_check message.now ∷ []) }
{
    check_end(message)?;
    check_segments(message)
}
