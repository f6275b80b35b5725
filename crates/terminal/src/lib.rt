// All that the command says to people goes through here. A terminal obeys control bytes, and a message or a file's name
// may hold any of them. So printable ASCII alone is printed as it stands, and any other byte as its two hex digits in
// braces: LF is {0A}. An opening brace is {7B}, so that what is seen says which bytes there are. And whoever prints is
// told whether it was written: an output keeps that, from the first byte to the last.
#![tactic(auto)]

mod spelling;

ghost use Rattle.std.specs.Prelude.{◌≡◌, true, false};
ghost use Rattle.terminal.specs.Terminal.{plain};

use spelling::InBraces;
pub use spelling::{Spelling, Spelt};

// Where is printed to, by the number of its descriptor.
#[derive(Clone, Copy)]
enum Stream {
    Output = 1,
    Error = 2,
}

// Where is printed to, and whether all so far was written.
// A flag, and no Result of each print: whoever prints goes on all the same, and asks once at the end.
#[derive(Drop)]
pub struct Output {
    stream: Stream,
    pub is_whole: bool,
}

// Standard output, of which nothing is written yet.
pub fn standard_output() -> Output {
    Output {
        stream: Stream::Output,
        is_whole: true,
    }
}

// Standard error, of which nothing is written yet.
pub fn standard_error() -> Output {
    Output {
        stream: Stream::Error,
        is_whole: true,
    }
}

// Whether a byte is printed as it stands.
pub fn is_plain(byte: u8) -> bool
    ensures { result ≡ plain byte }
{
    InBraces::is_plain(byte)
}

impl Output {
    // Writes bytes raw, which is for what goes to a line and not to people. Once some were not written nothing more is
    // tried: what came behind a gap would be read as if it stood there.
    pub fn write(&mut self, bytes: &[u8]) {
        if self.is_whole {
            self.is_whole = io::write_all(self.stream as i32, bytes);
        }
    }

    // Writes any bytes in a spelling. What stands as it is goes out in one piece, since a call for each byte would take
    // most of the time.
    pub fn spell<S: Spelling>(&mut self, bytes: &[u8]) {
        let mut rest = bytes;
        while !rest.is_empty() {
            let (run, behind) = rest.split_at(spelling::plain_run::<S>(rest));
            self.write(run);
            let Some((byte, others)) = behind.split_first() else {
                return;
            };
            self.write(S::spelt(*byte).bytes());
            rest = others;
        }
    }

    // Prints any bytes.
    pub fn print(&mut self, bytes: &[u8]) {
        self.spell::<InBraces>(bytes);
    }

    // Prints marks under each byte that was printed: as many as it takes columns.
    pub fn print_under(&mut self, bytes: &[u8], mark: u8) {
        for byte in bytes {
            if is_plain(*byte) {
                self.print(&[mark]);
            } else {
                self.print(&[mark; 4]);
            }
        }
    }

    // Prints a number.
    pub fn print_number(&mut self, number: usize) {
        let mut digits = [0u8; 20];
        let count = io::decimal(number as u64, &mut digits);
        self.write(&digits[..count]);
    }

    // Prints a number between two texts.
    pub fn print_counted(&mut self, before: &[u8], number: usize, behind: &[u8]) {
        self.print(before);
        self.print_number(number);
        self.print(behind);
    }

    // Ends a line. LF is the one control byte that is ever printed.
    pub fn end_line(&mut self) {
        self.write(b"\n");
    }

    // Prints a line.
    pub fn print_line(&mut self, bytes: &[u8]) {
        self.print(bytes);
        self.end_line();
    }
}
