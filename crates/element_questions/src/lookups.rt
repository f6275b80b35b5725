// The verbs about an element: which there are, and the answer to each. They differ in the call and in the words that
// stand behind the element's state.
ghost use Rattle.std.specs.Prelude.{◌≡◌, None};
ghost use Rattle.element_questions.specs.Verbs.{Verb};

use crate::signed::put_signed;
use alphabet::Fault;
use answering::Answer;
use asking::{addresses, hex, messages, words};
use element::Element;
use numbers::Number;
use value::{NoValue, Value};

// What is shown where there is no number.
const NO_NUMBER: Number = Number {
    value: 0,
    decimals: 0,
};

// What is asked about an element.
#[derive(Clone, Copy)]
pub enum Lookup {
    Find,
    Nm,
    Si,
    Dt,
    Tm,
    Ts,
}

// Puts the answer to `find`: behind the state, where the element starts and ends.
fn put_element(answer: &mut Answer, found: Result<Element, Fault>) {
    let (start, end) = match found {
        Ok(element) => (element.start, element.end),
        Err(_) => (0, 0),
    };
    element_answers::put_begin(answer, found.map(|element| element.state), b' ');
    answer.put_number(start as u64, b' ');
    answer.put_number(end as u64, b'\n');
}

// Puts the answer to `nm`: behind the state, the number and how many of its digits are decimals.
fn put_decimal(answer: &mut Answer, found: Result<Value<Number>, NoValue>) {
    let number = element_answers::put_begin_of(answer, found, b' ').unwrap_or(NO_NUMBER);
    put_signed(answer, number.value, b' ');
    answer.put_number(number.decimals as u64, b'\n');
}

// Puts the answer to `si`: behind the state, the number.
fn put_whole(answer: &mut Answer, found: Result<Value<Number>, NoValue>) {
    let number = element_answers::put_begin_of(answer, found, b' ').unwrap_or(NO_NUMBER);
    put_signed(answer, number.value, b'\n');
}

impl Lookup {
    // What a verb asks.
    // An Option and no TryFrom: a word that is no verb of this family is no error, and the next family is asked.
    pub fn of(verb: &[u8]) -> Option<Lookup>
        ensures { (Verb verb.now → ⊥) → result ≡ None }
    {
        match verb {
            b"find" => Some(Lookup::Find),
            b"nm" => Some(Lookup::Nm),
            b"si" => Some(Lookup::Si),
            b"dt" => Some(Lookup::Dt),
            b"tm" => Some(Lookup::Tm),
            b"ts" => Some(Lookup::Ts),
            _ => None,
        }
    }

    // Puts the answer to a line with such a verb, unless its other words are not those of a lookup.
    fn put_asked(self, line: &[u8], said: &mut [u8], answer: &mut Answer) -> Option<()> {
        if words::count(line) != 7 {
            return None;
        }
        let address = addresses::address(line)?;
        let (message, _) = hex::lend_decoded(words::word(line, 1), said)?;
        let message = messages::held(message);
        match self {
            Lookup::Find => put_element(answer, element::find(message, address)),
            Lookup::Nm => put_decimal(answer, value::nm(message, address)),
            Lookup::Si => put_whole(answer, value::si(message, address)),
            Lookup::Dt => element_answers::put_time(answer, value::dt(message, address)),
            Lookup::Tm => element_answers::put_time(answer, value::tm(message, address)),
            Lookup::Ts => element_answers::put_time(answer, value::ts(message, address)),
        }
        Some(())
    }

    // Puts the answer to a line with such a verb, in the place of whatever was put before: `?` where its other words
    // are not those of a lookup. `said` is lent for the bytes that the line says.
    pub fn answer(self, line: &[u8], said: &mut [u8], answer: &mut Answer) {
        let put = self.put_asked(line, said, answer);
        answer.put_unless(put);
    }
}
