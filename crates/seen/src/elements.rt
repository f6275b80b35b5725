// An element, and the number or the time that it says, as C sees them: a state is 0 absent, 1 empty, 2 null, 3 present;
// an element that is not present has no number: an empty box is not a zero.
ghost use Rattle.std.specs.Prelude.{◌≡◌};
ghost use Rattle.alphabet.specs.Answers.{number_of};
ghost use Rattle.seen.specs.Seen.{state_seen, figure_seen, sign_seen, date_seen, clock_seen, offset_seen, element_seen, state_told, number_told, place_told, said, number_seen, time_seen, address_of};

use alphabet::{Fault, Refusal};
use calendar::{Clock, Date, Offset, Sign, Time};
use element::{Address, Element, State};
use numbers::Number;
use value::{NoValue, Value};

// What stands for a figure of a time that was not sent: no figure is as large.
const NOT_SENT: u64 = 0xffff_ffff_ffff_ffff;

// What stands for a number and for a time where there is none.
const NO_NUMBER: Number = Number {
    value: 0,
    decimals: 0,
};

const NO_TIME: Time = Time {
    date: Date::NOT_SENT,
    clock: Clock::NOT_SENT,
    offset: None,
};

// A number of the table and its place, or the state and where the bytes stand: from `start` up to `end`.
#[repr(C)]
#[derive(Clone, Copy)]
pub struct CElement {
    pub number: u32,
    pub state: u32,
    pub place: usize,
    pub start: usize,
    pub end: usize,
}

// A number of the table and its place, or the state and, where it is present, the number: `value` with so many
// decimals.
#[repr(C)]
#[derive(Clone, Copy)]
pub struct CNumber {
    pub number: u32,
    pub state: u32,
    pub place: usize,
    pub value: i64,
    pub decimals: usize,
}

#[repr(C)]
#[derive(Clone, Copy)]
pub struct CDate {
    pub year: u64,
    pub month: u64,
    pub day: u64,
}

// The fraction of a second is the number that its digits say, with their count.
#[repr(C)]
#[derive(Clone, Copy)]
pub struct CClock {
    pub hour: u64,
    pub minute: u64,
    pub second: u64,
    pub fraction: u64,
    pub digits: usize,
}

// The offset from UTC. Its sign is 0 for none sent, 1 for plus and 2 for minus.
#[repr(C)]
#[derive(Clone, Copy)]
pub struct COffset {
    pub sign: u64,
    pub hours: u64,
    pub minutes: u64,
}

// A number of the table and its place, or the state and, where it is present, the time.
#[repr(C)]
#[derive(Clone, Copy)]
pub struct CTime {
    pub number: u32,
    pub state: u32,
    pub place: usize,
    pub date: CDate,
    pub clock: CClock,
    pub offset: COffset,
}

fn state_number(state: State) -> u32
    ensures { result ≡ state_seen state }
{
    match state {
        State::Absent => 0,
        State::Empty => 1,
        State::Null => 2,
        State::Present => 3,
    }
}

fn figure_number(figure: Option<u64>) -> u64
    ensures { result ≡ figure_seen figure }
{
    figure.unwrap_or(NOT_SENT)
}

fn sign_number(sign: Sign) -> u64
    ensures { result ≡ sign_seen sign }
{
    match sign {
        Sign::Plus => 1,
        Sign::Minus => 2,
    }
}

// The paper's number of a refusal, as wide as C has it.
fn refusal_number(kind: Refusal) -> u32
    ensures { result ≡ number_of kind }
{
    u32::from(u8::from(kind))
}

// An element as C sees it.
impl From<Result<Element, Fault>> for CElement {
    ghost from_gives = { λ found r. r ≡ element_seen found };

    fn from(found: Result<Element, Fault>) -> CElement {
        match found {
            Ok(element) => CElement {
                number: 0,
                state: state_number(element.state),
                place: 0,
                start: element.start,
                end: element.end,
            },
            Err(fault) => CElement {
                number: refusal_number(fault.kind),
                state: state_number(State::Absent),
                place: fault.place,
                start: 0,
                end: 0,
            },
        }
    }
}

// The state of an element that was asked for its value: absent where it was not found, and present where its bytes say
// no such value.
fn state_of<T: Copy>(asked: Result<Value<T>, NoValue>) -> u32
    ensures { result ≡ state_seen (state_told asked) }
{
    match asked {
        Ok(Value::Absent) => state_number(State::Absent),
        Ok(Value::Empty) => state_number(State::Empty),
        Ok(Value::Null) => state_number(State::Null),
        Ok(Value::Present(_)) => state_number(State::Present),
        Err(NoValue::NotFound(_)) => state_number(State::Absent),
        Err(NoValue::NotSaid(_)) => state_number(State::Present),
    }
}

// The number of the refusal, or 0.
fn number_of<T: Copy>(asked: Result<Value<T>, NoValue>) -> u32
    ensures { result ≡ number_told asked }
{
    match asked {
        Ok(_) => 0,
        Err(why) => refusal_number(Fault::from(why).kind),
    }
}

// The place of the refusal, or 0.
fn place_of<T: Copy>(asked: Result<Value<T>, NoValue>) -> usize
    ensures { result ≡ place_told asked }
{
    match asked {
        Ok(_) => 0,
        Err(why) => Fault::from(why).place,
    }
}

// The value, where there is one.
fn said<T: Copy>(asked: Result<Value<T>, NoValue>) -> Option<T>
    ensures { result ≡ said asked }
{
    match asked {
        Ok(Value::Present(value)) => Some(value),
        _ => None,
    }
}

// A number as C sees it.
impl From<Result<Value<Number>, NoValue>> for CNumber {
    ghost from_gives = { λ asked r. r ≡ number_seen asked };

    fn from(asked: Result<Value<Number>, NoValue>) -> CNumber {
        let number = said(asked).unwrap_or(NO_NUMBER);
        CNumber {
            number: number_of(asked),
            state: state_of(asked),
            place: place_of(asked),
            value: number.value,
            decimals: number.decimals,
        }
    }
}

impl From<Date> for CDate {
    ghost from_gives = { λ date r. r ≡ date_seen date };

    fn from(date: Date) -> CDate {
        CDate {
            year: figure_number(date.year),
            month: figure_number(date.month),
            day: figure_number(date.day),
        }
    }
}

impl From<Clock> for CClock {
    ghost from_gives = { λ clock r. r ≡ clock_seen clock };

    fn from(clock: Clock) -> CClock {
        CClock {
            hour: figure_number(clock.hour),
            minute: figure_number(clock.minute),
            second: figure_number(clock.second),
            fraction: figure_number(clock.fraction.map(|fraction| fraction.value)),
            digits: clock.fraction.map_or(0, |fraction| fraction.digits),
        }
    }
}

impl From<Option<Offset>> for COffset {
    ghost from_gives = { λ offset r. r ≡ offset_seen offset };

    fn from(offset: Option<Offset>) -> COffset {
        match offset {
            Some(sent) => COffset {
                sign: sign_number(sent.sign),
                hours: sent.hours,
                minutes: sent.minutes,
            },
            None => COffset {
                sign: 0,
                hours: 0,
                minutes: 0,
            },
        }
    }
}

// A time as C sees it.
impl From<Result<Value<Time>, NoValue>> for CTime {
    ghost from_gives = { λ asked r. r ≡ time_seen asked };

    #[inline(always)]
    fn from(asked: Result<Value<Time>, NoValue>) -> CTime {
        let time = said(asked).unwrap_or(NO_TIME);
        CTime {
            number: number_of(asked),
            state: state_of(asked),
            place: place_of(asked),
            date: CDate::from(time.date),
            clock: CClock::from(time.clock),
            offset: COffset::from(time.offset),
        }
    }
}

// An address out of its five numbers, which C hands over one by one.
pub fn address_of(
    segment: usize,
    field: usize,
    repetition: usize,
    component: usize,
    subcomponent: usize,
) -> Address
    ensures { result ≡ address_of segment field repetition component subcomponent }
{
    Address {
        segment,
        field,
        repetition,
        component,
        subcomponent,
    }
}
