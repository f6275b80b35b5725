// The layouts of DT, TM and TS: behind how many digits each may stop, and what may stand behind them.
ghost use Rattle.std.specs.Prelude.{◌≡◌};
ghost use Rattle.forms.specs.Forms.{dt_length, dt_form, layout_of, front_length, fraction_form, zone_form, parts_form};

use crate::parts::Parts;

// The two that have a clock and a zone: TM, a clock alone, and TS, a date and a clock.
#[derive(Clone, Copy)]
pub enum Form {
    Tm,
    Ts,
}

// How many digits a DT may have.
pub fn is_dt_length(n: usize) -> bool
    ensures { result ≡ dt_length n }
{
    matches!(n, 4 | 6 | 8)
}

// YYYY[MM[DD]]
#[tactic(auto, unfolding(crate::specs::Forms::dt_form))]
pub fn is_dt_form(bytes: &[u8]) -> bool
    ensures { result ≡ dt_form bytes.now }
{
    numbers::is_digits(bytes) & is_dt_length(bytes.len())
}

// How many digits may stand in front.
pub fn is_front_length(form: Form, n: usize) -> bool
    ensures { result ≡ front_length form n }
{
    match form {
        Form::Tm => matches!(n, 2 | 4 | 6),
        Form::Ts => matches!(n, 4 | 6 | 8 | 12 | 14),
    }
}

// How many digits there are down to the seconds.
pub fn to_seconds(form: Form) -> usize
    ensures { result ≡ (layout_of form).seconds }
{
    match form {
        Form::Tm => 6,
        Form::Ts => 14,
    }
}

// No fraction, or, behind seconds, a point and one to four digits.
#[tactic(auto, unfolding(crate::specs::Forms::fraction_form))]
pub fn is_fraction(seconds: bool, tail: &[u8]) -> bool
    ensures { result ≡ fraction_form seconds tail.now }
{
    let n = tail.len();
    if n == 0 {
        return true;
    }
    (seconds & ((2 <= n) & (n <= 5))) & numbers::is_digits(&tail[1..])
}

// No zone, or a sign and four digits.
#[tactic(auto, unfolding(crate::specs::Forms::zone_form))]
pub fn is_zone(zone: &[u8]) -> bool
    ensures { result ≡ zone_form zone.now }
{
    let n = zone.len();
    if n == 0 {
        return true;
    }
    if n != 5 {
        return false;
    }
    numbers::is_digits(&zone[1..])
}

// HH[MM[SS[.S to .SSSS]]][+/-ZZZZ] or YYYY[MM[DD[HHMM[SS[.S to .SSSS]]]]][+/-ZZZZ], by its parts.
pub fn is_time_form(form: Form, parts: Parts) -> bool
    ensures { result ≡ parts_form form parts.entry.front.now parts.entry.tail.now parts.entry.zone.now }
{
    let seconds = to_seconds(form);
    let digits = numbers::is_digits(parts.front) & is_front_length(form, parts.front.len());
    let fraction = is_fraction(parts.front.len() == seconds, parts.tail);
    digits & (fraction & is_zone(parts.zone))
}
