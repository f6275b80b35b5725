// The time that bytes say as a DT, a TM or a TS, or that they break its form. What is read as one is one.
ghost use Rattle.std.specs.Prelude.{◌≡◌, true};
ghost use Rattle.calendar.specs.Calendar.{valid_time};
ghost use Rattle.forms.specs.declared.layouts.Form.TheVariants.{Tm, Ts};
ghost use Rattle.forms.specs.Forms.{parts_form};
ghost use Rattle.times.specs.Times.{parts_time, time_if, dt_read, time_read};

use crate::figures::{clock_of, date_of, offset_of};
use alphabet::Refusal;
use calendar::{Clock, Date, Time};
use forms::{Form, Parts};

// The time that is read, where there is such a time.
#[inline(always)]
fn existing(time: Time) -> Result<Time, Refusal>
    ensures { result ≡ time_if (valid_time time) time }
{
    if calendar::is_time(time) {
        Ok(time)
    } else {
        Err(Refusal::BreaksForm)
    }
}

// The time that the parts of a TM or a TS say.
fn time_of(form: Form, parts: Parts) -> Time
    requires { parts_form form parts.front.now parts.tail.now parts.zone.now ≡ true }
    ensures { result ≡ parts_time form parts.entry.front.now parts.entry.tail.now parts.entry.zone.now }
{
    let (date, start) = match form {
        Form::Tm => (Date::NOT_SENT, 0),
        Form::Ts => (date_of(parts.front), 8),
    };
    Time {
        date,
        clock: clock_of(parts.front, start, parts.tail),
        offset: offset_of(parts.zone),
    }
}

pub fn read_dt(bytes: &[u8]) -> Result<Time, Refusal>
    ensures { result ≡ dt_read bytes.now }
{
    if !forms::is_dt_form(bytes) {
        return Err(Refusal::BreaksForm);
    }
    existing(Time {
        date: date_of(bytes),
        clock: Clock::NOT_SENT,
        offset: None,
    })
}

// The parts are taken once: their forms are judged, and then what they say.
fn read_time(form: Form, bytes: &[u8]) -> Result<Time, Refusal>
    ensures { result ≡ time_read form bytes.now }
{
    let parts = forms::parts_of(form, bytes);
    if !forms::is_time_form(form, parts) {
        return Err(Refusal::BreaksForm);
    }
    existing(time_of(form, parts))
}

pub fn read_tm(bytes: &[u8]) -> Result<Time, Refusal>
    ensures { result ≡ time_read Tm bytes.now }
{
    read_time(Form::Tm, bytes)
}

pub fn read_ts(bytes: &[u8]) -> Result<Time, Refusal>
    ensures { result ≡ time_read Ts bytes.now }
{
    read_time(Form::Ts, bytes)
}
