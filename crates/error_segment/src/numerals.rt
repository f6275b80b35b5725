// Numbers as they are written, in digits. A number of 64 bits takes twenty of them at most; they are written from the
// last on, so that nothing has to be measured first.
ghost use Rattle.std.specs.Prelude.{◌≡◌, ◌≤◌, [], length};
ghost use Rattle.error_segment.specs.Numerals.{numeral};
ghost use Rattle.error_segment.specs.Pieces.{said};

// A numeral: the digits from `start` on.
// An array and where it begins, for no heap is used; and no Display, since `numeral` promises these very digits.
#[derive(Clone, Copy)]
pub struct Numeral {
    pub digits: [u8; 20],
    pub start: usize,
}

impl Numeral {
    // The digits.
    pub fn as_slice(&self) -> &[u8]
        requires { self.now.start ≤ 20 }
        ensures { (result.now ≡ said self.now) × (length result.now ≤ 20) }
    {
        &self.digits[self.start..]
    }
}

// No digits, for what stays empty.
pub fn no_numeral() -> Numeral
    ensures { (result.start ≤ 20) × (said result ≡ []) }
{
    Numeral {
        digits: [0; 20],
        start: 20,
    }
}

// The numeral of a number, written from its last digit on.
pub fn numeral_of(number: usize) -> Numeral
    ensures { (result.start ≤ 20) × (said result ≡ numeral number) }
{
    let mut digits = [0; 20];
    let mut start = 19;
    let mut rest = number;
    while 9 < rest {
        digits[start] = b'0' + (rest % 10) as u8;
        rest = rest / 10;
        start -= 1;
    }
    digits[start] = b'0' + (rest % 10) as u8;
    Numeral {
        digits: digits,
        start: start,
    }
}
