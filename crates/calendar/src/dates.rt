// What may stand in a date, a clock and an offset: the Gregorian calendar, and hours, minutes and seconds.
ghost use Rattle.std.specs.Prelude.{◌≡◌};
ghost use Rattle.calendar.specs.Calendar.{in_range, leap, days_in, number_in, valid_date, valid_clock, valid_offset, valid_time};

use crate::figures::{Clock, Date, Offset, Time};

// A figure that was not sent is in any range.
fn in_range(least: u64, most: u64, figure: Option<u64>) -> bool
    ensures { result ≡ in_range least most figure }
{
    figure.is_none_or(|n| (least <= n) & (n <= most))
}

fn is_leap(year: u64) -> bool
    ensures { result ≡ leap year }
{
    (year % 4 == 0) & (!(year % 100 == 0) | (year % 400 == 0))
}

fn days_in(year: u64, month: u64) -> u64
    ensures { result ≡ days_in year month }
{
    match month {
        2 => if is_leap(year) { 29 } else { 28 },
        4 | 6 | 9 | 11 => 30,
        _ => 31,
    }
}

// A date that exists, as far as it was sent. 0, which stands for what was not sent, is no year and no month.
#[tactic(auto, unfolding(crate::specs::Calendar::valid_date))]
pub fn is_date(date: Date) -> bool
    ensures { result ≡ valid_date date }
{
    let days = days_in(date.year.unwrap_or(0), date.month.unwrap_or(0));
    in_range(1, 9999, date.year) && in_range(1, 12, date.month) && in_range(1, days, date.day)
}

#[tactic(auto, unfolding(crate::specs::Calendar::valid_clock))]
pub fn is_clock(clock: Clock) -> bool
    ensures { result ≡ valid_clock clock }
{
    in_range(0, 23, clock.hour) && in_range(0, 59, clock.minute) && in_range(0, 59, clock.second)
}

// No offset, or one that there is.
pub fn is_offset(offset: Option<Offset>) -> bool
    ensures { result ≡ valid_offset offset }
{
    offset.is_none_or(|sent| (sent.hours <= 14) & (sent.minutes <= 59))
}

// A time that exists, as far as it was sent.
pub fn is_time(time: Time) -> bool
    ensures { result ≡ valid_time time }
{
    is_date(time.date) & (is_clock(time.clock) & is_offset(time.offset))
}
