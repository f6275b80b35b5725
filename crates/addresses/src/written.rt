// An address that somebody wrote, as `places` prints one: a segment's name, which of that name in brackets, a field
// behind a hyphen, a repetition in brackets, a component and a subcomponent behind points. All count from 1, and only
// the name and the field have to be there. What it says is read without a message.
use crate::numbers::number_of;

// The segment that is meant: the first, the second or another of its name, or that of a number, from 0.
#[derive(Clone, Copy)]
pub enum Said {
    OfName(usize),
    Number(usize),
}

// What was written: the segment, and the numbers behind it.
// No Address yet: which segment is meant is known only with a message.
#[derive(Clone, Copy)]
pub struct Written {
    pub segment: Said,
    pub field: usize,
    pub repetition: usize,
    pub component: usize,
    pub subcomponent: usize,
}

// A word that is being read: what is left of it. What cannot be read on says no address.
#[derive(Drop)]
struct Reader<'a> {
    rest: &'a [u8],
}

impl<'a> Reader<'a> {
    // Passes a mark, where it stands next.
    fn pass(&mut self, mark: u8) -> bool {
        let Some(behind) = self.rest.strip_prefix(&[mark]) else {
            return false;
        };
        self.rest = behind;
        true
    }

    // Reads the number that stands next. Nothing that is counted has the number 0.
    fn number(&mut self) -> Option<usize> {
        let rest = self.rest;
        let end = rest
            .iter()
            .position(|byte| !alphabet::is_digit(*byte))
            .unwrap_or(rest.len());
        self.rest = places::piece(rest, end, rest.len());
        number_of(places::piece(rest, 0, end)).filter(|number| *number != 0)
    }

    // Reads the number behind a mark, and 0 where the mark does not stand next.
    fn number_behind(&mut self, mark: u8) -> Option<usize> {
        if self.pass(mark) {
            self.number()
        } else {
            Some(0)
        }
    }

    // Reads the number in brackets, and 0 where none opens.
    fn number_in_brackets(&mut self) -> Option<usize> {
        if !self.pass(b'[') {
            return Some(0);
        }
        let number = self.number()?;
        self.pass(b']').then_some(number)
    }

    // Reads a segment's name, and which of that name is meant: the first, where that is not said.
    fn segment(&mut self) -> Option<usize> {
        let [first, second, third, behind @ ..] = self.rest else {
            return None;
        };
        let is_second = alphabet::is_capital(*second) | alphabet::is_digit(*second);
        let is_third = alphabet::is_capital(*third) | alphabet::is_digit(*third);
        if !(alphabet::is_capital(*first) & (is_second & is_third)) {
            return None;
        }
        self.rest = behind;
        let which = self.number_in_brackets()?;
        Some(which.max(1))
    }

    // What was read, where nothing is left.
    fn at_end<T: Drop>(self, read: T) -> Option<T> {
        self.rest.is_empty().then_some(read)
    }
}

// The address that a word says. A component is one of the first repetition, where none is said.
pub fn address_in(word: &[u8]) -> Option<Written> {
    let mut reader = Reader { rest: word };
    let which = reader.segment()?;
    let field = reader.number_behind(b'-')?;
    let repetition = reader.number_in_brackets()?;
    let component = reader.number_behind(b'.')?;
    let subcomponent = reader.number_behind(b'.')?;
    if field == 0 {
        return None;
    }
    let is_part = (repetition == 0) & (component != 0);
    reader.at_end(Written {
        segment: Said::OfName(which),
        field,
        repetition: if is_part { 1 } else { repetition },
        component,
        subcomponent,
    })
}

// The segment that a word of its own says, by its number or by its name, and which of that name.
pub fn segment_in(word: &[u8]) -> Option<Said> {
    if let Some(number) = number_of(word) {
        return Some(Said::Number(number));
    }
    let mut reader = Reader { rest: word };
    let which = reader.segment()?;
    reader.at_end(Said::OfName(which))
}
