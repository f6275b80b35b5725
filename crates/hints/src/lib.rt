// Hints for what people really send in place of a message, where its bytes show which of these it is: a frame off a
// link, a batch file, a byte order mark, the line ends of a text file, or UTF-8. Each says what mends it, on a line of
// its own below the refusal.
#![tactic(auto)]

use alphabet::{CARRIAGE_RETURN, Fault, Refusal};
use terminal::Output;

// 0B, which opens a frame.
const FRAME_START: u8 = 11;

// LF, which ends the lines of a text file, and no segment.
const LINE_FEED: u8 = 10;

// The bytes with which UTF-8 begins a control character, a letter that Latin-1 has too, and a dash or a quote.
const UTF8_CONTROL: u8 = 0xC2;

const UTF8_LETTER: u8 = 0xC3;

const UTF8_SIGN: u8 = 0xE2;

// A hint by how bytes begin that are no message.
fn hint_at_beginning(out: &mut Output, message: &[u8]) {
    match message {
        [FRAME_START, ..] => out.print_line(
            b"  hint: 0B opens a frame, as it comes off a link: turrethog frames FILE",
        ),
        [0xEF, 0xBB, 0xBF, ..] => out.print_line(
            b"  hint: EF BB BF is a byte order mark; drop it, from a file by: tail -c +4 FILE",
        ),
        [b'F' | b'B', b'H', b'S', ..] => {
            out.print(b"  hint: ");
            out.print(places::piece(message, 0, 3));
            out.print_line(b" begins a batch file; take its messages out singly, each from MSH on");
        }
        _ => {}
    }
}

// The byte before a place, and 0 before the first.
fn byte_before(message: &[u8], place: usize) -> u8 {
    place
        .checked_sub(1)
        .map_or(0, |before| alphabet::byte_at(message, before))
}

// Whether the LF at a place ends a line: there is no CR at all, or a segment's name follows, or nothing.
fn ends_line(message: &[u8], place: usize) -> bool {
    let rest = places::piece(message, place, message.len());
    let behind_name = alphabet::byte_at(rest, 4);
    let is_name = (behind_name == alphabet::byte_at(message, 3)) | (behind_name == LINE_FEED);
    !message.contains(&CARRIAGE_RETURN) | (is_name | (rest.len() == 1))
}

// A hint for LF: it ends a line, alone or behind CR; or it stands inside a segment.
fn hint_at_line_feed(out: &mut Output, message: &[u8], place: usize) {
    if byte_before(message, place) == CARRIAGE_RETURN {
        out.print_line(
            b"  hint: \n is LF. Lines end in CR LF here, and in HL7 in CR: tr -d '\\n' <FILE",
        );
    } else if ends_line(message, place) {
        out.print_line(
            b"  hint: \n is LF. Lines end in LF here, and in HL7 in CR: tr '\\n' '\\r' <FILE",
        );
    } else {
        out.print_line(
            b"  hint: \n is LF, inside a segment: a text has \\X0A\\ for it, or in FT \\.br\\",
        );
    }
}

// Says of bytes of a message that they look like UTF-8.
fn print_looks(out: &mut Output, bytes: &[u8]) {
    out.print(b"  hint: ");
    out.print(bytes);
    out.print_line(b" looks like UTF-8; the alphabet is Latin-1's, one byte a letter");
}

// What mends UTF-8. Of its letters those from C3 A0 to C3 BF are not refused: their bytes are letters of Latin-1 too.
fn print_mending(out: &mut Output) {
    out.print_line(
        b"        Not all of UTF-8 is refused: C3 BC passes, and is read as two letters",
    );
    out.print_line(b"        iconv -f UTF-8 -t ISO-8859-1 <FILE");
}

// A hint for a dash, a quote or another such sign, which UTF-8 writes as E2 80 and one byte more.
fn hint_at_sign(out: &mut Output, second: u8, third: u8) {
    if (second == 0x80) & matches!(third, 0x80..=0xBF) {
        print_looks(out, &[UTF8_SIGN, second]);
        out.print_line(b"        It is a dash, a quote or another sign that Latin-1 does not have");
    }
}

// A hint for a byte that may be the second of a character in UTF-8.
fn hint_at_letter(out: &mut Output, message: &[u8], place: usize, byte: u8) {
    let before = byte_before(message, place);
    match before {
        UTF8_LETTER => {
            print_looks(out, &[before, byte]);
            print_mending(out);
        }
        UTF8_CONTROL => {
            print_looks(out, &[before, byte]);
            out.print_line(
                b"        It is a control character, which may not be sent in Latin-1 either",
            );
        }
        UTF8_SIGN => {
            let rest = places::piece(message, place, message.len());
            hint_at_sign(out, byte, alphabet::byte_at(rest, 1));
        }
        _ => {}
    }
}

// A hint for a byte that may not stand in a message.
fn hint_at_byte(out: &mut Output, message: &[u8], place: usize) {
    let byte = alphabet::byte_at(message, place);
    match byte {
        LINE_FEED => hint_at_line_feed(out, message, place),
        0x80..=0x9F => hint_at_letter(out, message, place, byte),
        _ => {}
    }
}

// Prints a hint below a refusal with its place, where there is one.
pub fn print_hint(out: &mut Output, message: &[u8], fault: Fault) {
    match fault.kind {
        Refusal::Header => hint_at_beginning(out, message),
        Refusal::NotAllowed => hint_at_byte(out, message, fault.place),
        _ => {}
    }
}
