// A time as it was sent: nested structs for date, clock and offset, in which what was not sent is `None` and no number.
#[derive(Clone, Copy)]
pub struct Date {
    pub year: Option<u64>,
    pub month: Option<u64>,
    pub day: Option<u64>,
}

// The fraction of a second: the number that its digits say, with their count: .5, .50 and .05 differ.
#[derive(Clone, Copy)]
pub struct Fraction {
    pub value: u64,
    pub digits: usize,
}

#[derive(Clone, Copy)]
pub struct Clock {
    pub hour: Option<u64>,
    pub minute: Option<u64>,
    pub second: Option<u64>,
    pub fraction: Option<Fraction>,
}

#[derive(Clone, Copy)]
pub enum Sign {
    Plus,
    Minus,
}

// The offset from UTC, its sign apart: -0030, -0000 and +0000 differ.
#[derive(Clone, Copy)]
pub struct Offset {
    pub sign: Sign,
    pub hours: u64,
    pub minutes: u64,
}

#[derive(Clone, Copy)]
pub struct Time {
    pub date: Date,
    pub clock: Clock,
    pub offset: Option<Offset>,
}

impl Date {
    // A date of which nothing was sent.
    pub const NOT_SENT: Date = Date {
        year: None,
        month: None,
        day: None,
    };
}

impl Clock {
    // A clock of which nothing was sent.
    pub const NOT_SENT: Clock = Clock {
        hour: None,
        minute: None,
        second: None,
        fraction: None,
    };
}
