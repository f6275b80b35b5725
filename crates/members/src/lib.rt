// The members of an object of JSON, and where a part of a message stands, as members. Objects stand in a line each, in
// printable ASCII, and docs/JSON.md tells of each member. What stands before a value is handed in whole, with the comma
// and the name: most are one write, since a call for each piece would take most of the time.
#![tactic(auto)]

mod addresses;
mod letters;

pub use addresses::{occurrence_at, print_segment};
use letters::InString;
use terminal::Output;

// Room for what stands before a number and its digits.
const ROOM: usize = 48;

// That room. By a call of its own it is no list of so many bytes in the caller's proof.
fn room() -> [u8; ROOM] {
    [0; ROOM]
}

// Prints a member that is a number.
pub fn print_number(out: &mut Output, before: &[u8], number: usize) {
    let mut digits = [0u8; 20];
    let count = io::decimal(number as u64, &mut digits);
    let mut text = room();
    let at = alphabet::put(&mut text, 0, before);
    let end = alphabet::put(&mut text, at, &digits[..count]);
    out.write(places::piece(&text, 0, end));
}

// Prints a member that is a string of these bytes. What stands before it ends with the opening quote.
pub fn print_string(out: &mut Output, before: &[u8], bytes: &[u8]) {
    out.write(before);
    out.spell::<InString>(bytes);
    out.write(b"\"");
}

// Prints a member that is true or false.
pub fn print_flag(out: &mut Output, before: &[u8], flag: bool) {
    out.write(before);
    out.write(if flag { b"true" } else { b"false" });
}

// Begins an object: the file that it is about.
pub fn open(out: &mut Output, file: &[u8]) {
    print_string(out, b"{\"file\":\"", file);
}

// Ends an object, and its line.
pub fn close(out: &mut Output) {
    out.write(b"}\n");
}
