// The five delimiters, which travel together, and the check of number 3.
ghost use Rattle.std.specs.Prelude.{◌≡◌};
ghost use Rattle.alphabet.specs.Delimiters.{permitted, first_wrong_delimiter};

use crate::bytes::find;

// In the message's order: field, component, repetition, escape, subcomponent.
#[derive(Clone, Copy)]
pub struct Delimiters {
    pub bytes: [u8; 5],
}

// Whether a byte may be a delimiter.
pub fn is_permitted(b: u8) -> bool
    ensures { result ≡ permitted b }
{
    let first = (33 <= b) & (b <= 47);
    let second = (58 <= b) & (b <= 64);
    let third = (91 <= b) & (b <= 96);
    let fourth = (123 <= b) & (b <= 126);
    let never = (b == 34) | ((b == 43) | ((b == 45) | (b == 46)));
    (first | (second | (third | fourth))) & !never
}

// The place, from 0 to 4, of the first delimiter that is not permitted or equal to an earlier one; 5 where all are
// right.
#[tactic(auto, using(crate::proofs::DelimiterLaws::again_here))]
pub fn first_wrong_delimiter(delimiters: Delimiters) -> usize
    ensures { result ≡ first_wrong_delimiter delimiters.bytes }
{
    let bytes = delimiters.bytes;
    for (i, b) in bytes.iter().enumerate() {
        if !is_permitted(*b) {
            return i;
        }
        if find(&bytes, *b) < i {
            return i;
        }
    }
    5
}
