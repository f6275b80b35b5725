// An answer is gathered in memory of a fixed size, and written out whole. Each thing in it is put together with the
// byte that ends it: a space, or the end of the line.
ghost use Rattle.std.specs.Prelude.{ℕ, List, [], ◌∷◌, ◌++◌, ◌==◌, ◌+◌, ◌*◌, ◌<◌, ◌≤◌, ◌≡◌, length, take, OnSome, IfNone};
ghost use Rattle.answering.specs.Answers.{Fits, NumberPut, TwoPut, fault_number, fault_place, no_question};
ghost use Rattle.answering.specs.Hex.{hexed};

use crate::hex;
use alphabet::Fault;
use asking::bytes;
use std::marker::Model;

// The longest answer shows a buffer of 64 KiB, which at two digits a byte is 131,072 bytes, beside up to one and a half
// bytes for each byte of the line, of which there are at most 300,000.
const ROOM: usize = 600_000;

// An answer, as far as it is gathered.
#[derive(Drop)]
pub struct Answer {
    bytes: [u8; ROOM],
    length: usize,
}

// It is its bytes.
impl Model for Answer {
    ghost Value = { List ℕ };

    ghost view = { λ answer. take answer.length answer.bytes };

    ghost invariant = { λ answer. answer.length ≤ 600000 };
}

impl Answer {
    // An answer of which nothing is put.
    pub fn new() -> Answer
        ensures { result ≡ [] }
    {
        Answer {
            bytes: [0; ROOM],
            length: 0,
        }
    }

    // Its bytes.
    pub fn bytes(&self) -> &[u8]
        ensures { result.now ≡ self.now }
    {
        &self.bytes[..self.length]
    }

    // Whether nothing is put.
    pub fn is_empty(&self) -> bool
        ensures { result ≡ (length self.now == 0) }
    {
        self.length == 0
    }

    // How many bytes more there is room for.
    pub fn room(&self) -> usize
        ensures { length self.now + result ≡ 600000 }
    {
        ROOM - self.length
    }

    // Begins the next answer.
    pub fn clear(&mut self)
        ensures { self.new ≡ [] }
    {
        self.length = 0;
    }

    // Puts bytes, with nothing behind them.
    pub fn put(&mut self, text: &[u8])
        requires { Fits self.old (length text.now) }
        ensures { self.new ≡ self.old ++ text.now }
    {
        self.length = bytes::put(&mut self.bytes, self.length, text);
    }

    // Puts a word.
    pub fn put_word(&mut self, word: &[u8], end: u8)
        requires { Fits self.old (length word.now + 1) }
        ensures after { self.new ≡ self.old ++ (word.now ++ (end ∷ [])) }
        ensures grown { length self.new ≡ length self.old + length word.now + 1 }
    {
        self.put(word);
        self.put(&[end]);
    }

    // Puts a number in decimal. It is put by its digits and not by Display, since the answer to `read` promises them.
    pub fn put_number(&mut self, number: u64, end: u8)
        requires { Fits self.old 21 }
        ensures after { NumberPut self.old self.new number end }
        ensures grown { length self.new ≤ length self.old + 21 }
    {
        let mut digits = [0u8; 20];
        let count = io::decimal(number, &mut digits);
        self.put_word(&digits[..count], end);
    }

    // Puts the number of a refusal and its place, or 0 and 0 where nothing is refused.
    pub fn put_fault(&mut self, fault: Option<Fault>, end: u8)
        requires { Fits self.old 42 }
        ensures after { TwoPut self.old self.new (fault_number fault) (fault_place fault) end }
        ensures grown { length self.new ≤ length self.old + 42 }
    {
        let (number, place) = match fault {
            Some(Fault { kind, place }) => (u8::from(kind), place),
            None => (0, 0),
        };
        self.put_number(u64::from(number), b' ');
        self.put_number(place as u64, end);
    }

    // Puts `-`, which stands for what is not there.
    pub fn put_nothing(&mut self, end: u8)
        requires { Fits self.old 2 }
        ensures grown { length self.new ≡ length self.old + 2 }
    {
        self.put_word(b"-", end);
    }

    // Puts `yes` or `no`.
    pub fn put_yes_or_no(&mut self, yes: bool, end: u8)
        requires { Fits self.old 4 }
        ensures grown { length self.new ≤ length self.old + 4 }
    {
        if yes {
            self.put_word(b"yes", end);
        } else {
            self.put_word(b"no", end);
        }
    }

    // Puts the word that says bytes: `-` says none, and otherwise each byte is a pair of hex digits in lower case.
    pub fn put_bytes(&mut self, said: &[u8], end: u8)
        requires { Fits self.old (2 * length said.now + 2) }
        ensures grown { length self.new ≤ length self.old + 2 * length said.now + 2 }
    {
        if said.is_empty() {
            self.put_nothing(end);
        } else {
            let behind = self.length + 2 * said.len();
            hex::put_digits(said, &mut self.bytes[self.length..behind]);
            self.length = behind;
            self.put(&[end]);
        }
    }

    // Puts another byte in the place of the last.
    pub fn end_with(&mut self, end: u8)
        requires { 0 < length self.old }
        ensures grown { length self.new ≡ length self.old }
    {
        self.bytes[self.length - 1] = end;
    }

    // Puts the answer to a line that is no question, over what was put.
    pub fn put_no_question(&mut self)
        ensures { self.new ≡ no_question }
    {
        self.clear();
        self.put_word(b"?", b'\n');
    }

    // Ends what a question began: what was put stays where it is the whole answer, and else the line was no question.
    pub fn put_unless(&mut self, put: Option<()>)
        ensures put { OnSome put (self.new ≡ self.old) }
        ensures not_put { IfNone put (self.new ≡ no_question) }
    {
        if put.is_none() {
            self.put_no_question();
        }
    }
}
