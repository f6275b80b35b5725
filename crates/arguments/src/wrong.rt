// What is wrong with the words of a command line, said on standard error by the word itself. Where that cannot be
// written either, the status is the same.
use crate::commands::{Command, JSON_OPTION};
use terminal::Output;

// The front of a line about the words, printed.
fn begin(before: &[u8], word: &[u8]) -> Output {
    let mut out = terminal::standard_error();
    out.print(b"turrethog: ");
    out.print(before);
    out.print(word);
    out
}

// Says of a word that is written as an option that there is none of that name, or none at its place.
pub fn tell_option(word: &[u8]) {
    if word == JSON_OPTION {
        begin(b"the option ", word).print_line(
            b" stands directly behind the command, which is check, show, get or frames",
        );
        return;
    }
    begin(b"there is no option ", word).print_line(b"; ./turrethog --help says what there is");
}

// Says of a word that there is no such command.
pub fn tell_command(word: &[u8]) {
    begin(b"there is no command ", word).print_line(b"; ./turrethog --help says what there is");
}

// What a command takes behind its word.
fn taken(command: Command) -> &'static [u8] {
    match command {
        Command::Check | Command::Frames => b" takes a file or more",
        Command::Show => b" takes one file",
        Command::Get | Command::Lines => b" takes a file, and an address in it",
        Command::Acknowledge => b" takes a file, a time and an ID",
        Command::Help | Command::Version => b" takes no words behind it",
    }
}

// Says of a command's word that there are too few or too many behind it.
pub fn tell_words(command: Command, word: &[u8]) {
    let mut out = begin(b"", word);
    out.print(taken(command));
    out.print_line(b"; ./turrethog --help says more");
}

// Says of a word that it is no time.
pub fn tell_time(word: &[u8]) {
    begin(b"the time ", word).print_line(b" is no TS; write it as 20240229093001+0000");
}

// Says that a word has no bytes, or more than an ID may have.
pub fn tell_id() {
    let mut out = begin(b"", b"an ID has 1 to ");
    out.print_number(alphabet::id_limit());
    out.print_line(b" bytes, and this one has none or more");
}
