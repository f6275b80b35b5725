// What `frames` finds in a file, an object each: a frame with the verdict on its message, a dropped frame, a frame that
// is left open, and at the end of the file how many there were. The member "kind" tells which it is.
use crate::verdicts::{print_refused, print_verdict};
use alphabet::Refusal;
use members::{close, open, print_flag, print_number};
use terminal::Output;

// How many frames a file has, of which so many messages are refused, how many are dropped, whether one is left open, and
// how many bytes stand outside frames and in all.
#[derive(Clone, Copy)]
pub struct Counts {
    pub frames: usize,
    pub refused: usize,
    pub dropped: usize,
    pub is_open: bool,
    pub outside: usize,
    pub bytes: usize,
}

// Begins the object of something that was found in a file: the file, and the member that says what it is.
fn open_kind(out: &mut Output, file: &[u8], kind: &[u8]) {
    open(out, file);
    out.write(kind);
}

// Prints the object of a frame by its number, the first being 1, with the verdict on its message. Returns whether it is
// accepted.
pub fn print_frame(out: &mut Output, file: &[u8], number: usize, message: &[u8]) -> bool {
    open_kind(out, file, b",\"kind\":\"frame\"");
    print_number(out, b",\"frame\":", number);
    let is_accepted = print_verdict(out, message);
    close(out);
    is_accepted
}

// Prints the object of a dropped frame: why, and the byte of the file at which it was dropped.
pub fn print_dropped(out: &mut Output, file: &[u8], kind: Refusal, place: usize) {
    open_kind(out, file, b",\"kind\":\"dropped\"");
    print_refused(out, kind);
    print_number(out, b",\"file_byte\":", place);
    close(out);
}

// Prints the object of a frame that is open at the end of a file: whether it is too long, and how many of its bytes are
// held.
pub fn print_open(out: &mut Output, file: &[u8], is_too_long: bool, held: usize) {
    open_kind(out, file, b",\"kind\":\"open\"");
    print_flag(out, b",\"too_long\":", is_too_long);
    print_number(out, b",\"held\":", held);
    close(out);
}

// Prints the object of a file at its end.
pub fn print_tally(out: &mut Output, file: &[u8], counts: Counts) {
    open_kind(out, file, b",\"kind\":\"tally\"");
    print_number(out, b",\"frames\":", counts.frames);
    print_number(out, b",\"refused\":", counts.refused);
    print_number(out, b",\"dropped\":", counts.dropped);
    print_flag(out, b",\"open\":", counts.is_open);
    print_number(out, b",\"outside\":", counts.outside);
    print_number(out, b",\"bytes\":", counts.bytes);
    close(out);
}
