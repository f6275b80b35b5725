// `frames`: what was taken off a link, frame by frame. The file is read in pieces, so that it may be longer than any
// message, and each frame and each dropped frame is told as soon as the reader stops at it.
#![tactic(auto)]

mod ending;
mod stops;
mod tally;

use files::{Opened, Source};
use std::io::{Error, Read};
use std::rt::{Env, Files};
use tally::Tally;
use terminal::Output;

// Tells of a file that was opened, piece by piece to its end, and returns whether it is as a link ought to send it. A
// proved loop has to end, and nothing says that a file does: so the loop counts its turns, to a number that no run
// reaches.
fn tell_pieces<F: Read + Drop, I: Read + Drop>(
    mut tally: Tally,
    out: &mut Output,
    mut file: Source<F, I>,
    piece: &mut [u8],
    buffer: &mut [u8],
) -> Result<bool, Error> {
    for _ in 0..u64::MAX {
        let count = file.read(piece)?;
        if count == 0 {
            break;
        }
        tally.tell_piece(out, &piece[..count], buffer);
    }
    files::close(file);
    Ok(tally.tell_end(out))
}

// Tells of the file that a word names, in words or in JSON, and returns whether it is as a link ought to send it; or
// nothing where it cannot be read, which is said of it: what was told of it before stands. The name goes to the front of
// one buffer, each piece of the file to that of another, and the message of each frame to that of the third, whose
// length is a frame's limit where it is the smaller.
pub fn tell_file(
    rt: &(impl Env + Files + Input),
    json: bool,
    out: &mut Output,
    index: usize,
    name: &mut [u8],
    piece: &mut [u8],
    buffer: &mut [u8],
) -> Option<bool> {
    let Opened { file, name } = files::open(rt, index, name);
    let told = match file {
        Ok(file) => tell_pieces(Tally::start(json, name), out, file, piece, buffer),
        Err(error) => Err(error),
    };
    match told {
        Ok(is_clean) => Some(is_clean),
        Err(error) => {
            files::tell_unread(name, error);
            None
        }
    }
}
