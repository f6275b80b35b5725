// The refusals in words, each with its number of document 01 or 02. Where a place is drawn under them, `this` is what
// is marked there.
use crate::LONGEST_MESSAGE;
use alphabet::{Fault, Refusal};
use terminal::Output;

// The words for 1 to 8, a fault in the message's bytes or its segments, for 9, 10, 16 and 17, why there is no
// acknowledgement, and for any other.
fn words_of(kind: Refusal) -> &'static [u8] {
    match kind {
        Refusal::Length => b"this has no bytes, or more than this command takes",
        Refusal::Header => b"this does not begin as a message does, with MSH and its delimiters",
        Refusal::Delimiter => b"this may not be a delimiter, or is one already",
        Refusal::NotAllowed => b"this byte may not stand in a message",
        Refusal::NotEnded => b"the last segment does not end with CR",
        Refusal::SegmentName => b"this segment does not begin with a name",
        Refusal::SecondHeader => b"this is a second MSH",
        Refusal::TooManySegments =>
            b"with this one there are more segments than a message may have",
        Refusal::NotAcknowledgeable => b"this cannot be acknowledged",
        Refusal::AcknowledgementTooLong => b"the acknowledgement would be too long",
        Refusal::CallersTime => b"the time is no TS",
        Refusal::CallersId => b"the ID has no bytes, or more than an ID may have",
        _ => words_of_asking(kind),
    }
}

// The words for 11 to 14, 19 and 42, what is refused to the one who asks for a text, its lines or an element, and for
// any other.
fn words_of_asking(kind: Refusal) -> &'static [u8] {
    match kind {
        Refusal::Separator => b"a delimiter stands here as itself: this has parts, and is no text",
        Refusal::UnknownEscape => b"an escape that is not known",
        Refusal::UnclosedEscape => b"an escape that is never closed",
        Refusal::NoRoom => b"this has more bytes than there is room for",
        Refusal::NullText | Refusal::Address => b"there is no such segment, or no such address",
        Refusal::Layout =>
            b"this cannot be laid out: a number or a margin is out of its range, or a line would be over 200 bytes",
        _ => words_of_judging(kind),
    }
}

// The words for 20 to 22, a fault of structure, for 31 to 37, one of a field, and for 40 and 41, why a frame of the line
// was dropped.
fn words_of_judging(kind: Refusal) -> &'static [u8] {
    match kind {
        Refusal::NoStructure => b"no structure is known for this type of message",
        Refusal::SegmentMisplaced => b"this segment cannot stand here",
        Refusal::EndedEarly | Refusal::StructureName => b"the message ends too early",
        Refusal::RequiredMissing => b"this is required, and is absent or empty",
        Refusal::BreaksForm => b"this breaks the form of its type",
        Refusal::NotListed => b"this value is not in its list",
        Refusal::RequiredNull => b"this is required, and is null",
        Refusal::ValueWithoutType => b"there is a value, and OBX-2 does not say of which type",
        Refusal::Repeated => b"this may not repeat",
        Refusal::ValueTooLong => b"this value is too long",
        Refusal::BrokenFrame =>
            b"this frame is broken: 0B stands inside it, or 1C without 0D behind it",
        _ => b"this frame has more bytes than this command takes",
    }
}

// The words for a refusal.
pub fn print_words(out: &mut Output, kind: Refusal) {
    out.print(words_of(kind));
}

// A number and its words, behind a word that says what became of what is meant: refused, or dropped.
pub fn print_numbered(out: &mut Output, word: &[u8], kind: Refusal) {
    out.print(word);
    out.print_counted(b" (", usize::from(u8::from(kind)), b"): ");
    print_words(out, kind);
}

// The place of a fault in an element's text. 14 and 42, of the text as a whole, have none.
fn print_place(out: &mut Output, fault: Fault) {
    if u8::from(fault.kind) < 14 {
        out.print_counted(b" (byte ", fault.place, b" of the element)");
    }
}

// A line that says of a file that the text of an element is refused: the number, the words and the place.
pub fn print_refused_text(out: &mut Output, name: &[u8], fault: Fault) {
    out.print(name);
    print_numbered(out, b": refused", fault.kind);
    print_place(out, fault);
    out.end_line();
}

// A line that says of a file that it is refused: the number, and the words.
pub fn print_refused(out: &mut Output, name: &[u8], kind: Refusal) {
    out.print(name);
    print_numbered(out, b": refused", kind);
    out.end_line();
}

// Says of a file that it has more bytes than the command takes, with the number of a message that is too long, and that
// the library takes more.
pub fn print_too_long(out: &mut Output, name: &[u8]) {
    print_refused(out, name, Refusal::Length);
    out.print_counted(
        b"  this file has more than ",
        LONGEST_MESSAGE,
        b" bytes; the library takes ",
    );
    out.print_number(alphabet::message_limit());
    out.end_line();
}
