// The address of an element that words of the command line say: one word as it is printed, PID-5.1, or a word for the
// segment and numbers behind it, PID 5 1 1. Whether words are an address is known without a message; which segment is
// meant, only with one. Words are counted from 1.
#![tactic(auto)]

mod numbers;
mod written;

use command_line::{word_at, word_count};
use element::Address;
use numbers::number_of;
use std::env::FillError;
use std::rt::Env;
use terminal::Output;
use written::{Said, Written, address_in, segment_in};

// The last word from which on others are looked for, so that no count of words wraps.
const LAST_WORD: usize = 9;

// The number that a word says; one that is missing is 0.
fn number_at(rt: &impl Env, index: usize, word: &mut [u8]) -> Option<usize> {
    match rt.arg(index, word) {
        Ok(length) => number_of(&word[..length]),
        Err(FillError::NotPresent) => Some(0),
        Err(FillError::TooLong) => None,
    }
}

// The address of which a word says the segment, and the words behind it say the rest.
fn written_in_words(rt: &impl Env, first: usize, word: &mut [u8]) -> Option<Written> {
    if LAST_WORD < first {
        return None;
    }
    Some(Written {
        segment: segment_in(word_at(rt, first, word))?,
        field: number_at(rt, first + 1, word)?,
        repetition: number_at(rt, first + 2, word)?,
        component: number_at(rt, first + 3, word)?,
        subcomponent: number_at(rt, first + 4, word)?,
    })
}

// The address that the words from `first` on say. The buffer is lent for each of them.
fn written_at(rt: &impl Env, first: usize, word: &mut [u8]) -> Option<Written> {
    if word_count(rt) <= first.saturating_add(1) {
        return address_in(word_at(rt, first, word));
    }
    written_in_words(rt, first, word)
}

// The number of the segment that is meant.
fn segment_of(
    rt: &impl Env,
    segment: Said,
    first: usize,
    word: &mut [u8],
    message: &[u8],
) -> usize {
    match segment {
        Said::Number(number) => number,
        Said::OfName(which) => {
            let said = word_at(rt, first, word);
            places::segment_named(message, places::piece(said, 0, 3), which)
        }
    }
}

// The address in a message that the words from `first` on say. Words that say none mean the message as a whole.
pub fn address_at(rt: &impl Env, first: usize, word: &mut [u8], message: &[u8]) -> Address {
    let Some(written) = written_at(rt, first, word) else {
        return Address {
            segment: 0,
            field: 0,
            repetition: 0,
            component: 0,
            subcomponent: 0,
        };
    };
    Address {
        segment: segment_of(rt, written.segment, first, word, message),
        field: written.field,
        repetition: written.repetition,
        component: written.component,
        subcomponent: written.subcomponent,
    }
}

// Says that the words from `first` on are no address. Where that cannot be written either, the status is the same.
fn tell_no_address(rt: &impl Env, first: usize, word: &mut [u8]) {
    let mut out = terminal::standard_error();
    out.print(b"turrethog: this is no address:");
    for index in first..word_count(rt) {
        out.print(b" ");
        out.print(word_at(rt, index, word));
    }
    out.print_line(b"; write it as PID-5, PID-5.1, PID-3[2].1 or OBX[3]-5");
}

// Whether an address that was written is one that some message could have: one with a field, with a repetition where it
// has a component, and with a component where it has a subcomponent.
fn could_be(written: Written) -> bool {
    let is_component = (1 <= written.repetition) | (written.component == 0);
    let is_subcomponent = (1 <= written.component) | (written.subcomponent == 0);
    (1 <= written.field) & (is_component & is_subcomponent)
}

// Whether the words from `first` on say an address that some message could have. Else that is said of them.
pub fn is_address(rt: &impl Env, first: usize, word: &mut [u8]) -> bool {
    let is_right = written_at(rt, first, word).is_some_and(could_be);
    if !is_right {
        tell_no_address(rt, first, word);
    }
    is_right
}
