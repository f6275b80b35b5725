// The page that is being laid, in numbers: how long the present line and word are, what is owed, and how much was
// written. Its bytes stand in two places that are lent along with it: the present line, and the buffer.
ghost use Rattle.std.specs.Prelude.{◌≡◌, cond, ◌≤◌};
ghost use Rattle.formatting.specs.Pages.{Slight, first_page, lead_of, reach_of, word_ended, new_line, owing};
ghost use Rattle.formatting.specs.Pages.{indent_of, position_of, closed};

use format_commands::hold;

// How many bytes a line has at the most.
pub const WIDTH: usize = 200;

// The state of the layout. It is handed on by value, and its two places are lent beside it and not kept in it: so a
// signature says which of them a step writes, and which it only reads. What is owed and where a line begins are held
// at 201, which fits on no line. The numbers stand before what is true or false, so that the compiler has no gaps
// between them to copy.
#[derive(Clone, Copy)]
pub struct Page {
    // how many bytes were written
    pub place: usize,
    pub line: usize,
    pub owed: usize,
    pub word: usize,
    pub margin: usize,
    pub left: usize,
    // whether the lines are written, or measured alone: a bit and no closure, since one proof holds of both
    pub writes: bool,
    // whether the room was too short for more: with an Option in the place of this and `place` the compiler no longer
    // keeps the page in registers, and the layout of a text took two fifths more instructions
    pub short: bool,
    // whether something could not be laid: a bit, and no Result around the page, since the walk goes on behind it to
    // find the faults that come first, and each step would have to take the Result apart and put it together again
    pub unfit: bool,
    pub fill: bool,
    pub centre: bool,
    // whether the item before was the byte CR
    pub after: bool,
}

// The page before the first item.
pub fn first_page(writes: bool) -> Page
    ensures { result ≡ first_page writes }
{
    Page {
        place: 0,
        line: 0,
        owed: 0,
        word: 0,
        margin: 0,
        left: 0,
        writes: writes,
        short: false,
        unfit: false,
        fill: true,
        centre: false,
        after: false,
    }
}

// One of two numbers.
fn pick(test: bool, one: usize, other: usize) -> usize
    ensures { result ≡ cond test one other }
{
    if test { one } else { other }
}

impl Page {
    // The blanks before the next word.
    pub fn lead(self) -> usize
        requires { Slight self }
        ensures { result ≡ lead_of self }
    {
        let indent = pick((self.line == 0) & !self.centre, self.left, 0);
        self.owed + indent
    }

    // Where the next byte of a word would stand.
    pub fn reach(self) -> usize
        requires { Slight self }
        ensures { result ≡ reach_of self }
    {
        let lead = self.lead();
        self.line + lead + self.word
    }

    // The page with the word on the line.
    pub fn end_word(mut self) -> Page
        requires { Slight self }
        ensures { result ≡ word_ended self }
    {
        if self.word == 0 {
            return self;
        }
        let reach = self.reach();
        self.line = reach;
        self.owed = 0;
        self.word = 0;
        self
    }

    // The page with the word on the line, before an item that is no byte of a word.
    pub fn close_word(self) -> Page
        requires { Slight self }
        ensures { result ≡ closed self }
    {
        let mut ended = self.end_word();
        ended.after = false;
        ended
    }

    // The page at the start of a line.
    pub fn new_line(mut self) -> Page
        ensures { result ≡ new_line self }
    {
        self.line = 0;
        self.owed = 0;
        self.left = self.margin;
        self.centre = false;
        self
    }

    // The page with n blanks more owed.
    pub fn owe(mut self, n: usize) -> Page
        requires { (Slight self) × (n ≤ 201) }
        ensures { result ≡ owing n self }
    {
        let owed = hold(self.owed + n);
        self.owed = owed;
        self
    }

    // The blanks that go before the line, where it is centred.
    pub fn indent(self) -> usize
        requires { Slight self }
        ensures { result ≡ indent_of self }
    {
        pick(self.centre & (0 < self.line), (WIDTH - self.line) / 2, 0)
    }

    // The column behind what stands on the line and is owed, held.
    pub fn position(self) -> usize
        requires { Slight self }
        ensures { result ≡ position_of self }
    {
        let indent = self.indent();
        let edge = pick(self.line == 0, self.left, indent + self.line);
        hold(edge + self.owed)
    }
}
