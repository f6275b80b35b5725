// Acknowledging a message: what stands against it, the verdict's code, and the writing. The message and the time share
// a lifetime, since pieces of both go into one array.
ghost use Rattle.std.specs.Prelude.{◌≡◌};
ghost use Rattle.acknowledgement.specs.Acknowledgement.{bad_id, Acknowledges};

use crate::pieces;
use crate::pieces::write;
use crate::sender::Header;
use acknowledgement_code::code_of;
use alphabet::{Fault, Refusal, fails_if};

// Whether the caller's ID is too short or too long.
fn is_bad_id(id: &[u8]) -> bool
    ensures { result ≡ bad_id id.now }
{
    id.is_empty() | (alphabet::id_limit() < id.len())
}

// Writes the acknowledgement of a message to the front of the buffer, and gives its length there: with the caller's
// time and his ID, and the code and the ERR segment by the verdict. A bad time, a bad ID and a message that cannot be
// acknowledged are refused first, whatever the buffer.
pub fn acknowledge<'a>(
    message: &'a [u8],
    time: &'a [u8],
    id: &[u8],
    buffer: &mut [u8],
) -> Result<usize, Fault>
    ensures { Acknowledges message.now time.now id.now buffer.old result
        buffer.new }
{
    fails_if(!times::is_ts(time), Refusal::CallersTime, 0)?;
    fails_if(is_bad_id(id), Refusal::CallersId, 0)?;
    let Some(header) = Header::of(message) else {
        return Err(Fault {
            kind: Refusal::NotAcknowledgeable,
            place: 0,
        });
    };
    let found = verdict::verdict(message);
    let mut error = pieces::zeros::<80>();
    let n = error_segment::put_segment(message, found, &mut error);
    write(header, time, id, code_of(found), &error[..n], buffer)
}
