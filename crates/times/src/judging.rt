// Whether bytes are a DT, a TM or a TS. No time is made of them: their form is looked at part by part, and the first
// part that breaks it ends the look.
ghost use Rattle.std.specs.Prelude.{◌≡◌, true, [], ◌≤◌, ◌&&◌, length};
ghost use Rattle.alphabet.specs.Digits.{all_digits};
ghost use Rattle.calendar.specs.Calendar.{valid_date, valid_clock};
ghost use Rattle.forms.specs.declared.layouts.Form.TheVariants.{Tm, Ts};
ghost use Rattle.forms.specs.Forms.{layout_of};
ghost use Rattle.times.specs.Times.{date_in, clock_of, is_dt, is_time, is_tm, is_ts};
ghost use Rattle.times.specs.Judged.{front_judged, zone_judged};

use crate::figures::{clock_of, date_of, offset_of};
use forms::Form;

// How many digits are looked at together.
const TOGETHER: usize = 8;

// How many bytes a TS has that says seconds and a zone, and where its sign stands.
const USUAL: usize = 19;

const SECONDS: usize = 14;

// Digits and nothing else. Every byte is looked at and nothing branches, so that the compiler takes many at once.
fn is_block_of_digits(bytes: &[u8]) -> bool
    ensures { result ≡ all_digits bytes.now }
{
    bytes
        .iter()
        .fold(true, |all, b| all & alphabet::is_digit(*b))
}

// The same, of the digits in front of a time: of up to sixteen, the first and the last eight, some of which may be the
// same.
fn is_digits(bytes: &[u8]) -> bool
    ensures { result ≡ all_digits bytes.now }
{
    let n = bytes.len();
    let few = (n < TOGETHER) | (2 * TOGETHER < n);
    if few {
        return numbers::is_digits(bytes);
    }
    is_block_of_digits(&bytes[..TOGETHER]) && is_block_of_digits(&bytes[n - TOGETHER..])
}

// Whether there is the clock that digits say from a place on, as far as it was sent. Any fraction may stand behind it.
fn is_clock(digits: &[u8], start: usize) -> bool
    requires { (all_digits digits.now ≡ true) × (start ≤ 8) }
    ensures { result ≡ valid_clock (clock_of digits.now start []) }
{
    calendar::is_clock(clock_of(digits, start, &[]))
}

// Whether there are the date and the clock that the digits in front of a TM or a TS say, as far as they were sent.
#[inline(always)]
fn is_moment(form: Form, front: &[u8]) -> bool
    requires { all_digits front.now ≡ true }
    ensures { result ≡
        (valid_date (date_in form front.now) && valid_clock (clock_of front.now (layout_of form).clock [])) }
{
    match form {
        Form::Tm => is_clock(front, 0),
        Form::Ts => calendar::is_date(date_of(front)) && is_clock(front, 8),
    }
}

// The digits in front of a TM or a TS.
fn is_front(form: Form, front: &[u8]) -> bool
    ensures { result ≡ front_judged form front.now }
{
    forms::is_front_length(form, front.len()) && is_digits(front) && is_moment(form, front)
}

// No zone, or one that there is.
fn is_zone(zone: &[u8]) -> bool
    ensures { result ≡ zone_judged zone.now }
{
    forms::is_zone(zone) && calendar::is_offset(offset_of(zone))
}

// YYYY[MM[DD]]
pub fn is_dt(bytes: &[u8]) -> bool
    ensures { result ≡ is_dt bytes.now }
{
    forms::is_dt_length(bytes.len()) && is_digits(bytes) && calendar::is_date(date_of(bytes))
}

// A TM or a TS, by its parts.
#[inline(always)]
fn is_time(form: Form, bytes: &[u8]) -> bool
    ensures { result ≡ is_time form bytes.now }
{
    let parts = forms::parts_of(form, bytes);
    let seconds = parts.front.len() == forms::to_seconds(form);
    is_front(form, parts.front) && forms::is_fraction(seconds, parts.tail) && is_zone(parts.zone)
}

// HH[MM[SS[.S to .SSSS]]][+/-ZZZZ]
pub fn is_tm(bytes: &[u8]) -> bool
    ensures { result ≡ is_tm bytes.now }
{
    is_time(Form::Tm, bytes)
}

// Whether bytes are a TS as most are sent, with seconds and a zone, told at fixed places; `false` says nothing.
fn is_usual_ts(bytes: &[u8]) -> bool
    ensures { result ≡ true → is_ts bytes.now ≡ true }
{
    if bytes.len() != USUAL {
        return false;
    }
    let sign = bytes[SECONDS];
    let signed = (sign == b'+') | (sign == b'-');
    if !signed {
        return false;
    }
    let front = &bytes[..SECONDS];
    let digits = is_block_of_digits(&front[..TOGETHER]) & is_block_of_digits(&front[6..]);
    if !digits {
        return false;
    }
    is_moment(Form::Ts, front) && is_zone(&bytes[SECONDS..])
}

// Any TS. It stands apart, so that the look at a usual one stays short.
#[inline(never)]
fn is_other_ts(bytes: &[u8]) -> bool
    ensures { result ≡ is_ts bytes.now }
{
    is_time(Form::Ts, bytes)
}

// YYYY[MM[DD[HHMM[SS[.S to .SSSS]]]]][+/-ZZZZ]
pub fn is_ts(bytes: &[u8]) -> bool
    ensures { result ≡ is_ts bytes.now }
{
    is_usual_ts(bytes) || is_other_ts(bytes)
}
