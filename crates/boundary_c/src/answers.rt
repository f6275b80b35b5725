// What every answer has in common: the number of the refusal, and its place.
ghost use Rattle.std.specs.Prelude.{◌≡◌};
ghost use Rattle.alphabet.specs.Answers.{given};
ghost use Rattle.reading.specs.Reading.{reading};
ghost use Rattle.boundary.specs.Seen.{seen};

use boundary::CAnswer;

// Reads a message: 0, or 1 to 8 and the byte. Nothing is written: the length is 0.
#[unsafe(no_mangle)]
pub extern "C" fn turrethog_read(message: &[u8]) -> CAnswer
    ensures { result ≡ seen (given (reading message.now) 0) }
{
    boundary::turrethog_read(message)
}
