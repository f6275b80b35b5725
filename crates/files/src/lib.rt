// A file is read whole into a buffer of one byte more than the command takes, so that a longer one is seen to be longer.
// What cannot be read is said on standard error, by the file's name. The name - is standard input's. A name is bytes,
// and a file is opened by text alone: one whose name is not UTF-8 is read from standard input, or not at all.
#![tactic(auto)]

ghost use Rattle.std.specs.Prelude.{◌+◌, ◌≤◌, ◌≡◌, length, IfOk};
ghost use Rattle.io.specs.Counts.{IsPrefixLen};

use std::fs;
use std::io::{Error, ErrorKind, Read};
use std::rt::{Env, Files};

// The word that names standard input.
const STANDARD_INPUT: &[u8] = b"-";

// The system's number for what nobody may do (EPERM). It is of one kind with that for a file that may not be read.
const NOT_PERMITTED: i32 = 1;

// A file that was read: its name and its bytes, each at the front of a buffer that was lent for it.
#[derive(Clone, Copy)]
pub struct File<'a> {
    pub name: &'a [u8],
    pub bytes: &'a [u8],
}

// What a file's bytes are read from: a file that was opened, or standard input.
#[derive(Drop)]
pub enum Source<F, I> {
    File(F),
    StandardInput(I),
}

impl<F: Read, I: Read> Read for Source<F, I> {
    fn read(&mut self, buffer: &mut [u8]) -> Result<usize, Error> {
        match self {
            Source::File(file) => file.read(buffer),
            Source::StandardInput(input) => input.read(buffer),
        }
    }
}

// Reads once into the part of the buffer behind its first `held` bytes, and tells how many came: none where the file
// has ended.
fn read_behind(file: &mut impl Read, buffer: &mut [u8], held: usize) -> Result<usize, Error>
    requires { held ≤ length buffer.old }
    ensures { IfOk result (λ count. held + count ≤ length buffer.old) }
{
    file.read(&mut buffer[held..])
}

// Reads until the file ends or the buffer is full.
// By how many are held: each read says how far it came, and that number is the answer.
fn fill(file: &mut impl Read, buffer: &mut [u8]) -> Result<usize, Error>
    ensures { IfOk result (λ count. IsPrefixLen count buffer.new) }
{
    let mut held = 0;
    while held < buffer.len() {
        let more = read_behind(file, buffer, held)?;
        if more == 0 {
            break;
        }
        held += more;
    }
    Ok(held)
}

// Why a file cannot be read.
fn reason(error: Error) -> &'static [u8] {
    match error.kind() {
        ErrorKind::NotFound => b"there is no such file",
        ErrorKind::IsADirectory => b"this is a directory, and no file",
        ErrorKind::PermissionDenied if error.raw_os_error() != Some(NOT_PERMITTED) => {
            b"you may not read this file"
        }
        ErrorKind::InvalidData => {
            b"its name is not UTF-8, so that it cannot be opened; write - <FILE for it"
        }
        _ => b"it cannot be read",
    }
}

// Says of a file by its name that it cannot be read, and why. Where that cannot be written either, the status is the
// same.
pub fn tell_unread(name: &[u8], error: Error) {
    let mut out = terminal::standard_error();
    out.print(b"turrethog: ");
    out.print(name);
    out.print(b": ");
    out.print_line(reason(error));
}

// A file that was opened, or why it was not, and its name.
#[derive(Drop)]
pub struct Opened<'a, F, I> {
    pub file: Result<Source<F, I>, Error>,
    pub name: &'a [u8],
}

// Opens the file of a name. One that is not UTF-8 is no name for the library.
fn open_named<R: Files + Input>(rt: &R, name: &[u8]) -> Result<Source<R::File, R::Reader>, Error> {
    let Ok(path) = str::from_utf8(name) else {
        return Err(Error::from(ErrorKind::InvalidData));
    };
    Ok(Source::File(fs::open(rt, path)?))
}

// Opens the file that a word names, with its name, which is put to the front of a buffer. That of standard input, which
// the word - names, is what people call it.
pub fn open<'a, R: Env + Files + Input>(
    rt: &R,
    index: usize,
    buffer: &'a mut [u8],
) -> Opened<'a, R::File, R::Reader> {
    let name = command_line::word_at(rt, index, buffer);
    if name == STANDARD_INPUT {
        return Opened {
            file: Ok(Source::StandardInput(rt.reader())),
            name: b"standard input",
        };
    }
    Opened {
        file: open_named(rt, name),
        name,
    }
}

// Closes a file, as letting it go does. Standard input stays open: the command may be told to read it once more, and
// finds its end again.
pub fn close<F: Drop, I: Drop>(_file: Source<F, I>) {}

// Reads a file that was opened to the front of a buffer.
fn read_opened<F: Read + Drop, I: Read + Drop>(
    opened: Result<Source<F, I>, Error>,
    buffer: &mut [u8],
) -> Result<usize, Error>
    ensures { IfOk result (λ count. IsPrefixLen count buffer.new) }
{
    let mut file = opened?;
    let read = fill(&mut file, buffer);
    close(file);
    read
}

// Reads the file that a word names: the name to the front of one buffer, the file to the front of the other. Of one that
// cannot be read that is said.
pub fn read<'a, R: Env + Files + Input>(
    rt: &R,
    index: usize,
    name: &'a mut [u8],
    message: &'a mut [u8],
) -> Option<File<'a>> {
    let opened = open(rt, index, name);
    match read_opened(opened.file, message) {
        Ok(length) => Some(File {
            name: opened.name,
            bytes: &message[..length],
        }),
        Err(error) => {
            tell_unread(opened.name, error);
            None
        }
    }
}
