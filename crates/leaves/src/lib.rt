// Every leaf of a message in one call: each subcomponent of each component of each repetition of each field, with its
// full address, its state and where it stands, as rows of numbers in a buffer that the caller lends. The message is
// read once and walked along once.
#![tactic(auto)]

mod marks;
mod walking;

ghost use Rattle.std.specs.Prelude.{◌≡◌, length};
ghost use Rattle.alphabet.specs.Answers.{given};
ghost use Rattle.leaves.specs.Leaves.{leaves_of, listing, filled};

use alphabet::{Fault, Refusal};

// Lists every leaf of a message: a row of eight numbers for each, in the message's order, at the front of the buffer.
// The answer is the number of leaves. A buffer of eight numbers for each byte of the message is asked for, and always has
// room; one that is shorter is 14, and a refusal writes nothing.
pub fn list(message: &[u8], buffer: &mut [u64]) -> Result<usize, Fault>
    ensures value { result ≡ given (listing message.now (length buffer.old))
        (length (leaves_of message.now)) }
    ensures buffer_after { buffer.new ≡ filled (listing message.now (length buffer.old))
        (leaves_of message.now) buffer.old }
{
    reading::read(message)?;
    alphabet::fails_if(buffer.len() / 8 < message.len(), Refusal::NoRoom, 0)?;
    let numbers = walking::list_all(message, buffer);
    Ok(numbers / 8)
}
