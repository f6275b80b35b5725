// An acknowledgement as pieces that stand one behind another: bytes of the sender's header, bytes of the caller's,
// fixed texts, and the segments behind MSA. All are measured before the first is written, so that one that does not fit
// writes nothing. The pieces share a lifetime, so that one array can hold them; the fixed texts are handed down as one,
// since a text of a function's own ends with the function.
ghost use Rattle.std.specs.Prelude.{◌≡◌, true, [], ◌∷◌, ◌++◌, map, ◌+◌, ◌≤◌, length};
ghost use Rattle.alphabet.specs.Delimiters.{first_wrong_delimiter};
ghost use Rattle.alphabet.specs.Limits.{id_limit};
ghost use Rattle.alphabet.specs.Filling.{over};
ghost use Rattle.escaping.specs.Escape.{escape};
ghost use Rattle.escaping.specs.Outcomes.{answer, filled};
ghost use Rattle.acknowledgement_code.specs.Codes.{letters_of};
ghost use Rattle.acknowledgement.specs.Acknowledgement.{roomy, acknowledgement};
ghost use Rattle.together.specs.Together.{together};
ghost use Rattle.acknowledgement.specs.Pieces.{event_mark, fixed_text, pieces};

use crate::sender::Header;
use acknowledgement_code::Code;
use alphabet::{Delimiters, Fault, Refusal};

// The separator before an event; none where there is no event.
fn event_mark<'a>(header: &'a [u8], event: &[u8]) -> &'a [u8]
    requires { 8 ≤ length header.now }
    ensures { result.now ≡ event_mark header.now event.now }
{
    if event.is_empty() {
        return &header[..0];
    }
    &header[4..5]
}

// All pieces, in order: MSH with its twelve fields, MSA, and what stands behind it. MSH and the delimiters are the
// front of the sender's header.
fn pieces_of<'a>(
    header: Header<'a>,
    time: &'a [u8],
    id: &'a [u8],
    fixed: &'a [u8],
    behind: &'a [u8],
) -> [&'a [u8]; 16]
    requires { 18 ≤ length fixed.now }
    ensures { map (λ x. x.now) result
        ≡ pieces header.entry.bytes.now time.now id.now fixed.now
        behind.now }
{
    let bytes = header.bytes;
    let mark = &bytes[3..4];
    let receiver = header.pair(5);
    let sender = header.pair(3);
    let event = header.event();
    [
        &bytes[..8],
        mark,
        receiver,
        sender,
        time,
        &fixed[..5],
        event_mark(bytes, event),
        event,
        mark,
        id,
        mark,
        header.field(11),
        &fixed[5..17],
        header.field(10),
        &fixed[17..18],
        behind,
    ]
}

// Writes all pieces where there is room for them, in the buffer and by the limit of a message.
fn write_pieces<'a>(
    header: Header<'a>,
    time: &'a [u8],
    id: &'a [u8],
    fixed: &'a [u8],
    behind: &'a [u8],
    buffer: &mut [u8],
) -> Result<usize, Fault>
    requires { 18 ≤ length fixed.now }
    ensures value { result ≡ answer
        (roomy (length buffer.old)
        (together (pieces header.entry.bytes.now time.now id.now fixed.now
        behind.now))) }
    ensures buffer_after { buffer.new
        ≡ filled (roomy (length buffer.old)
        (together (pieces header.entry.bytes.now time.now id.now fixed.now
        behind.now))) buffer.old }
{
    let pieces = pieces_of(header, time, id, fixed, behind);
    let Some(size) = together::put(&pieces, alphabet::message_limit(), buffer) else {
        return Err(Fault {
            kind: Refusal::AcknowledgementTooLong,
            place: 0,
        });
    };
    Ok(size)
}

// The second letter of a code; the first is A.
fn letter_of(code: Code) -> u8
    ensures { 65 ∷ result ∷ [] ≡ letters_of code }
{
    match code {
        Code::Accept => b'A',
        Code::Error => b'E',
        Code::Reject => b'R',
    }
}

// The texts that no message changes but for its separator, one behind another: an empty field and `ACK`; `2.4`, CR, MSA
// and the code; and CR.
fn fixed_text(mark: u8, code: Code) -> [u8; 18]
    ensures { result ≡ fixed_text mark code }
{
    let cr = alphabet::CARRIAGE_RETURN;
    let letter = letter_of(code);
    [
        mark, mark, b'A', b'C', b'K', mark, b'2', b'.', b'4', cr, b'M', b'S', b'A', mark, b'A',
        letter, mark, cr,
    ]
}

// A buffer of zeros. By a call of its own it is no list of so many bytes in the caller's proof.
pub fn zeros<const N: usize>() -> [u8; N]
    ensures { length result ≡ N }
{
    [0; N]
}

// Whether the ID, as text, is its own bytes: none of them is escaped, and it is not null.
fn is_plain(delimiters: Delimiters, id: &[u8]) -> bool
    ensures { result ≡ true → escape delimiters.bytes id.now ≡ id.now }
{
    let run = plain::plain_run(delimiters, id);
    (run == id.len()) & !alphabet::is_null(id)
}

// Writes the ID as text to the front of a buffer, and returns its length. That it is plain is the usual case, and asked
// first; else it is never refused, since the delimiters are right and there is room.
fn put_id(delimiters: Delimiters, id: &[u8], buffer: &mut [u8]) -> usize
    requires { (first_wrong_delimiter delimiters.bytes ≡ 5) × (length id.now ≤ id_limit) × (length buffer.old ≡ 1000) }
    ensures value { result ≡ length (escape delimiters.bytes id.now) }
    ensures buffer_after { buffer.new ≡ over (escape delimiters.bytes id.now) buffer.old }
{
    if is_plain(delimiters, id) {
        return alphabet::put(buffer, 0, id);
    }
    escaping::escape(delimiters, id, buffer).unwrap_or(0)
}

// Writes an acknowledgement, with the segments behind MSA, to the front of the buffer.
pub fn write<'a>(
    header: Header<'a>,
    time: &'a [u8],
    id: &[u8],
    code: Code,
    behind: &'a [u8],
    buffer: &mut [u8],
) -> Result<usize, Fault>
    requires { length id.now ≤ id_limit }
    ensures value { result ≡ answer
        (roomy (length buffer.old)
        (acknowledgement header.entry.bytes.now time.now id.now code [] ++ behind.now)) }
    ensures buffer_after { buffer.new
        ≡ filled (roomy (length buffer.old)
        (acknowledgement header.entry.bytes.now time.now id.now code [] ++ behind.now))
        buffer.old }
{
    let delimiters = reading::delimiters_of(header.bytes);
    // Each byte of the ID may be written as five.
    let mut escaped = zeros::<1000>();
    let n = put_id(delimiters, id, &mut escaped);
    let fixed = fixed_text(alphabet::byte_at(header.bytes, 3), code);
    write_pieces(header, time, &escaped[..n], &fixed, behind, buffer)
}
