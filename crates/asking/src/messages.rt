// The message that a program hands to the library. It holds one of up to 64 KiB, which is less than the library takes:
// a longer one is refused by the program itself, with 1 and in the form of whatever was asked.
ghost use Rattle.std.specs.Prelude.{◌≡◌, leb};
ghost use Rattle.asking.specs.Messages.{held_of, not_held};

use alphabet::{Fault, Refusal};

// The most bytes of a message that a program holds.
const LONGEST_HELD: usize = 65_536;

// Whether a message of so many bytes is held.
pub fn is_held(length: usize) -> bool
    ensures { result ≡ leb length 65536 }
{
    length <= LONGEST_HELD
}

// A message, where it is held, and else no bytes: the library refuses these with 1, and so the answer has the form that
// the question asks for.
pub fn held(message: &[u8]) -> &[u8]
    ensures { result.now ≡ held_of message.now }
{
    if is_held(message.len()) {
        return message;
    }
    &message[..0]
}

// What is answered to one that is not held by a verb that writes: 1, and nothing is written.
pub fn not_held() -> Result<usize, Fault>
    ensures { result ≡ not_held }
{
    Err(Fault {
        kind: Refusal::Length,
        place: 0,
    })
}
