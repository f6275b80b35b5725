// A time in an answer: a word for each of its parts, `-` where the part was not sent.
ghost use Rattle.std.specs.Prelude.{◌+◌, ◌≤◌, length};
ghost use Rattle.answering.specs.Answers.{Fits};

use crate::states;
use answering::Answer;
use calendar::{Clock, Date, Offset, Sign, Time};
use value::{NoValue, Value};

// Puts a part of a time, which may not have been sent.
fn put_figure(answer: &mut Answer, figure: Option<u64>)
    requires { Fits answer.old 21 }
    ensures { length answer.new ≤ length answer.old + 21 }
{
    match figure {
        None => answer.put_nothing(b' '),
        Some(number) => answer.put_number(number, b' '),
    }
}

// Puts the year, the month and the day.
fn put_date(answer: &mut Answer, date: Date)
    requires { Fits answer.old 63 }
    ensures { length answer.new ≤ length answer.old + 63 }
{
    put_figure(answer, date.year);
    put_figure(answer, date.month);
    put_figure(answer, date.day);
}

// Puts the hour, the minute, the second, and the fraction with the count of its digits.
fn put_clock(answer: &mut Answer, clock: Clock)
    requires { Fits answer.old 105 }
    ensures { length answer.new ≤ length answer.old + 105 }
{
    put_figure(answer, clock.hour);
    put_figure(answer, clock.minute);
    put_figure(answer, clock.second);
    put_figure(answer, clock.fraction.map(|fraction| fraction.value));
    put_figure(
        answer,
        clock.fraction.map(|fraction| fraction.digits as u64),
    );
}

// The last digit of a number.
fn last_digit(number: u64) -> u8 {
    b'0' + (number % 10) as u8
}

// Puts an offset, which may not have been sent: a sign, two digits of hours and two of minutes.
fn put_offset(answer: &mut Answer, offset: Option<Offset>, end: u8)
    requires { Fits answer.old 6 }
    ensures { length answer.new ≤ length answer.old + 6 }
{
    let Some(
        Offset {
            sign,
            hours,
            minutes,
        },
    ) = offset
    else {
        answer.put_nothing(end);
        return;
    };
    let sign = match sign {
        Sign::Plus => b'+',
        Sign::Minus => b'-',
    };
    let text = [
        sign,
        last_digit(hours / 10),
        last_digit(hours),
        last_digit(minutes / 10),
        last_digit(minutes),
    ];
    answer.put_word(&text, end);
}

// Puts the answer to `dt`, `tm` and `ts`, in the place of whatever was put before: behind the state, the nine parts of
// a time; of none where there is no time.
pub fn put_time(answer: &mut Answer, found: Result<Value<Time>, NoValue>)
    ensures { length answer.new ≤ 224 }
{
    let (date, clock, offset) = match states::put_begin_of(answer, found, b' ') {
        Some(time) => (time.date, time.clock, time.offset),
        None => (Date::NOT_SENT, Clock::NOT_SENT, None),
    };
    put_date(answer, date);
    put_clock(answer, clock);
    put_offset(answer, offset, b'\n');
}
