// The words of the command line, which are bytes and need not be text. They count from 0, at which the command itself
// stands.
#![tactic(auto)]

ghost use Rattle.std.specs.Prelude.{◌≤◌, ◌≡◌, length};
ghost use Rattle.io.specs.Counts.{IsPrefixLen};

use std::env::FillError;
use std::rt::Env;

// Puts the word at an index to the front of a buffer, and returns its length: 0 where there is no such word, or one
// that is longer than the buffer.
pub fn word(rt: &impl Env, index: usize, buffer: &mut [u8]) -> usize
    ensures { IsPrefixLen result buffer.new }
{
    match rt.arg(index, buffer) {
        Ok(length) => length,
        Err(_) => 0,
    }
}

// The word at an index, put to the front of a buffer: no bytes where there is no such word, or a longer one.
pub fn word_at<'a>(rt: &impl Env, index: usize, buffer: &'a mut [u8]) -> &'a [u8]
    ensures { length result.now ≤ length buffer.old }
{
    let length = word(rt, index, buffer);
    &buffer[..length]
}

// Whether no word stands at an index. No room is lent for one that does.
fn is_missing(rt: &impl Env, index: usize) -> bool {
    matches!(rt.arg(index, &mut []), Err(FillError::NotPresent))
}

// How many words there are, the command itself among them.
pub fn word_count(rt: &impl Env) -> usize {
    (0..usize::MAX)
        .find(|index| is_missing(rt, *index))
        .unwrap_or(usize::MAX)
}
