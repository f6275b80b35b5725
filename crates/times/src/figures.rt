// The figures of a time, out of its digits.
ghost use Rattle.std.specs.Prelude.{◌≡◌, true, ◌+◌, ◌≤◌, length, take, drop};
ghost use Rattle.alphabet.specs.Digits.{all_digits, decimal};
ghost use Rattle.times.specs.Times.{figure_at, date_of, fraction_of, clock_of, offset_of};

use calendar::{Clock, Date, Fraction, Offset, Sign};

// The number of the two digits at a place: 528 is what both say by being digits.
#[tactic(auto, using(crate::proofs::JudgeLaws::two_told))]
fn two_digits(bytes: &[u8], place: usize) -> u64
    requires { (all_digits (take 2 (drop place bytes.now)) ≡ true) × (place + 2 ≤ length bytes.now) }
    ensures { result ≡ decimal (take 2 (drop place bytes.now)) }
{
    u64::from(bytes[place]) * 10 + u64::from(bytes[place + 1]) - 528
}

// The year that digits begin with, if it was sent.
#[tactic(auto, using(crate::proofs::JudgeLaws::year_said), unfolding(crate::specs::Times::figure_at))]
fn year_of(digits: &[u8]) -> Option<u64>
    requires { all_digits digits.now ≡ true }
    ensures { result ≡ figure_at digits.now 0 4 }
{
    if digits.len() < 4 {
        return None;
    }
    Some(two_digits(digits, 0) * 100 + two_digits(digits, 2))
}

// The figure of the two digits at a place, if they were sent.
#[tactic(auto, using(crate::proofs::JudgeLaws::two_digits), unfolding(crate::specs::Times::figure_at))]
fn figure_at(digits: &[u8], place: usize) -> Option<u64>
    requires { (all_digits digits.now ≡ true) × (place ≤ 16) }
    ensures { result ≡ figure_at digits.now place 2 }
{
    if digits.len() < place + 2 {
        return None;
    }
    Some(two_digits(digits, place))
}

// The date that digits begin with.
#[tactic(auto, unfolding(crate::specs::Times::date_of))]
pub fn date_of(digits: &[u8]) -> Date
    requires { all_digits digits.now ≡ true }
    ensures { result ≡ date_of digits.now }
{
    Date {
        year: year_of(digits),
        month: figure_at(digits, 4),
        day: figure_at(digits, 6),
    }
}

// The fraction of a second that stands behind a point.
#[tactic(auto, using(crate::proofs::FigureLaws::fraction_not, crate::proofs::FigureLaws::fraction_sent))]
fn fraction_of(tail: &[u8]) -> Option<Fraction>
    requires { (all_digits (drop 1 tail.now) ≡ true) × (length tail.now ≤ 5) }
    ensures { result ≡ fraction_of tail.now }
{
    let (_, digits) = tail.split_first()?;
    Some(Fraction {
        value: numbers::si_value(digits),
        digits: digits.len(),
    })
}

// The clock that digits say from a place on, with the fraction behind them.
#[tactic(auto, unfolding(crate::specs::Times::clock_of))]
pub fn clock_of(digits: &[u8], start: usize, tail: &[u8]) -> Clock
    requires digits_value { (all_digits digits.now ≡ true) × (start ≤ 8) }
    requires tail_value { (all_digits (drop 1 tail.now) ≡ true) × (length tail.now ≤ 5) }
    ensures { result ≡ clock_of digits.now start tail.now }
{
    Clock {
        hour: figure_at(digits, start),
        minute: figure_at(digits, start + 2),
        second: figure_at(digits, start + 4),
        fraction: fraction_of(tail),
    }
}

// The offset that a zone says: none, or a sign and four digits.
#[tactic(auto, unfolding(crate::specs::Times::offset_of))]
pub fn offset_of(zone: &[u8]) -> Option<Offset>
    requires zone_value { all_digits (drop 1 zone.now) ≡ true }
    requires zone_len { (length zone.now ≡ 0 → ⊥) → length zone.now ≡ 5 }
    ensures { result ≡ offset_of zone.now }
{
    if zone.is_empty() {
        return None;
    }
    Some(Offset {
        sign: if zone[0] == b'-' {
            Sign::Minus
        } else {
            Sign::Plus
        },
        hours: two_digits(zone, 1),
        minutes: two_digits(zone, 3),
    })
}
