// What every answer has in common: the number of the refusal, and its place. The C interface has a struct of numbers
// for what is a Result in the library.
ghost use Rattle.std.specs.Prelude.{◌≡◌};
ghost use Rattle.alphabet.specs.Answers.{given};
ghost use Rattle.reading.specs.Reading.{reading};
ghost use Rattle.boundary.specs.Seen.{seen};

use alphabet::Fault;

// A number of the table, 0 where nothing was refused; its place; and the length of what was written.
#[repr(C)]
#[derive(Clone, Copy)]
pub struct CAnswer {
    pub number: u32,
    pub place: usize,
    pub length: usize,
}

// An answer that gives a length, as C sees it.
impl From<Result<usize, Fault>> for CAnswer {
    ghost from_gives = { λ answer r. r ≡ seen answer };

    fn from(answer: Result<usize, Fault>) -> CAnswer {
        match answer {
            Ok(length) => CAnswer {
                number: 0,
                place: 0,
                length,
            },
            Err(fault) => CAnswer {
                number: u32::from(u8::from(fault.kind)),
                place: fault.place,
                length: 0,
            },
        }
    }
}

// Reads a message: 0, or 1 to 8 and the byte. Nothing is written: the length is 0.
#[unsafe(no_mangle)]
pub extern "C" fn turrethog_read(message: &[u8]) -> CAnswer
    ensures { result ≡ seen (given (reading message.now) 0) }
{
    CAnswer::from(reading::read(message).map(|()| 0))
}
