// What could have stood at a place of a message: the names of segments, in a list, and whether the message could have
// ended there.
use fault::Names;
use members::{print_flag, print_string};
use terminal::Output;

// Prints which segments could have stood at a place, and whether the message could have ended there.
pub fn print_could_stand(out: &mut Output, names: Names, could_end: bool) {
    out.write(b",\"could_stand\":[");
    for (i, name) in names.as_slice().iter().enumerate() {
        let before: &[u8] = if i == 0 { b"\"" } else { b",\"" };
        print_string(out, before, &wording::letters_of(*name));
    }
    print_flag(out, b"],\"could_end\":", could_end);
}
