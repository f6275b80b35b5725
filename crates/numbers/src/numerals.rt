// NM, a signed whole number and a count of decimals, and SI, one to four digits.
ghost use Rattle.std.specs.Prelude.{◌≡◌, true, ◌<◌, ◌^◌};
ghost use Rattle.alphabet.specs.Answers.{passes};
ghost use Rattle.numbers.specs.Plain.{PlainNumber};
ghost use Rattle.numbers.specs.Numbers.{some_digits, unsigned, before_point, fraction, signed, nm_check, nm_value, nm_read, is_si, si_value, si_read};

use crate::digits::{count_on, is_digits, leading_digits};
use crate::marks::find_mark;
use alphabet::{Fault, Refusal};

// The most digits of an NM that we read.
const MOST_DIGITS: usize = 18;

// A number, and how many of its digits are decimals: `4.0` has one, and a whole number none.
#[derive(Clone, Copy)]
pub struct Number {
    pub value: i64,
    pub decimals: usize,
}

// One or more digits.
fn is_some_digits(bytes: &[u8]) -> bool
    ensures { result ≡ some_digits bytes.now }
{
    (1 <= bytes.len()) & is_digits(bytes)
}

// The bytes without their sign, where there is one.
fn without_sign(bytes: &[u8]) -> &[u8]
    ensures { result.now ≡ unsigned bytes.now }
{
    let Some((first, body)) = bytes.split_first() else {
        return bytes;
    };
    let sign = (*first == b'+') | (*first == b'-');
    if sign { body } else { bytes }
}

// What stands before the point, or all where there is none.
pub fn before_point(bytes: &[u8]) -> &[u8]
    ensures { result.now ≡ before_point bytes.now }
{
    let point = find_mark(bytes, b'.');
    &bytes[..point]
}

// What stands behind the point, or nothing where there is none.
#[tactic(auto, using(crate::proofs::NumberLaws::point_within))]
fn fraction_of(bytes: &[u8]) -> &[u8]
    ensures { result.now ≡ fraction bytes.now }
{
    let point = find_mark(bytes, b'.');
    if point == bytes.len() {
        return &bytes[point..];
    }
    let behind = point + 1;
    &bytes[behind..]
}

// Whether bytes without their sign are seen at once to be an NM of few digits: as nearly every number that is sent. Where
// it is false, the whole check decides.
fn is_usual(body: &[u8]) -> bool
    ensures { result ≡ true → PlainNumber body.now }
{
    if MOST_DIGITS < body.len() {
        return false;
    }
    let before = leading_digits(body);
    if before == 0 {
        return false;
    }
    if before == body.len() {
        return true;
    }
    if body[before] != b'.' {
        return false;
    }
    is_some_digits(&body[before + 1..])
}

// Number 32 for bytes that are no NM, 37 for one of more digits than we read.
pub fn check_nm(bytes: &[u8]) -> Result<(), Fault>
    ensures { result ≡ nm_check bytes.now }
{
    let body = without_sign(bytes);
    if is_usual(body) {
        return Ok(());
    }
    let before = before_point(body);
    let fraction = fraction_of(body);
    let point = before.len() < body.len();
    let form = is_some_digits(before) & (!point | is_some_digits(fraction));
    let digits = before.len() + fraction.len();
    alphabet::fails_if(!form, Refusal::BreaksForm, 0)?;
    alphabet::fails_if(MOST_DIGITS < digits, Refusal::ValueTooLong, 0)
}

// A number with its sign applied; minus zero is zero.
fn signed_number(negative: bool, number: u64) -> i64
    requires { number < 10 ^ 18 }
    ensures { result ≡ signed negative number }
{
    let plain = number as i64;
    if negative { -plain } else { plain }
}

// The number of an NM that was checked.
fn nm_value(bytes: &[u8]) -> i64
    requires { nm_check bytes.now ≡ passes }
    ensures { result ≡ nm_value bytes.now }
{
    let body = without_sign(bytes);
    let before = count_on(0, before_point(body));
    let number = count_on(before, fraction_of(body));
    let negative = alphabet::byte_at(bytes, 0) == b'-';
    signed_number(negative, number)
}

// The number that bytes say as an NM, or why they say none.
pub fn read_nm(bytes: &[u8]) -> Result<Number, Refusal>
    ensures { result ≡ nm_read bytes.now }
{
    match check_nm(bytes) {
        Ok(()) => {
            let value = nm_value(bytes);
            let decimals = fraction_of(without_sign(bytes)).len();
            Ok(Number { value, decimals })
        }
        Err(fault) => Err(fault.kind),
    }
}

// One to four digits.
#[tactic(auto, unfolding(crate::specs::Numbers::is_si))]
pub fn is_si(bytes: &[u8]) -> bool
    ensures { result ≡ is_si bytes.now }
{
    is_some_digits(bytes) & (bytes.len() <= 4)
}

// The number that one to four digits say. Any other bytes say none, and 0 stands for it: this never fails, so that who
// knows of the digits has no case for a refusal, and `read_si` tells the rest.
pub fn si_value(bytes: &[u8]) -> u64
    ensures { result ≡ si_value bytes.now }
{
    if !is_si(bytes) {
        return 0;
    }
    count_on(0, bytes)
}

// The number that bytes say as an SI, or why they say none.
pub fn read_si(bytes: &[u8]) -> Result<Number, Refusal>
    ensures { result ≡ si_read bytes.now }
{
    if !is_si(bytes) {
        return Err(Refusal::BreaksForm);
    }
    let value = signed_number(false, count_on(0, bytes));
    Ok(Number { value, decimals: 0 })
}
