// Every leaf of a message in one call, as rows of numbers in the buffer that is lent. A refusal writes nothing.
ghost use Rattle.std.specs.Prelude.{◌≡◌, length};
ghost use Rattle.alphabet.specs.Answers.{given};
ghost use Rattle.leaves.specs.Leaves.{leaves_of, listing, filled};
ghost use Rattle.boundary.specs.Seen.{seen};

use boundary::CAnswer;

// Lists every leaf of a message; the length is the number of leaves.
#[unsafe(no_mangle)]
pub extern "C" fn turrethog_leaves(message: &[u8], buffer: &mut [u64]) -> CAnswer
    ensures value { result ≡ seen (given (listing message.now (length buffer.old))
        (length (leaves_of message.now))) }
    ensures buffer_after { buffer.new ≡ filled (listing message.now (length buffer.old))
        (leaves_of message.now) buffer.old }
{
    boundary::turrethog_leaves(message, buffer)
}
