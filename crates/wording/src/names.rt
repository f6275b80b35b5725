// What could have stood at a place of a message: the names of segments, and whether the message could have ended there.
use fault::Names;
use terminal::Output;

// The three letters of a name, which holds them as a number at eight bits a letter.
pub fn letters_of(name: u32) -> [u8; 3] {
    let [_, first, second, third] = name.to_be_bytes();
    [first, second, third]
}

// Says what could have stood at a place: which segments, and whether the message could have ended there.
pub fn print_could_stand(out: &mut Output, names: Names, could_end: bool) {
    let names = names.as_slice();
    out.print(b"  could have stood there:");
    for (i, name) in names.iter().enumerate() {
        out.print(if i == 0 { b" " } else { b", " });
        out.print(&letters_of(*name));
    }
    if could_end {
        out.print(if names.is_empty() { b" " } else { b", or " });
        out.print(b"the end of the message");
    }
    out.end_line();
}
