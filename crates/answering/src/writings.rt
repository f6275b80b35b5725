// What was written into a buffer that was lent, shown whole.
ghost use Rattle.std.specs.Prelude.{◌≤◌, length};

use crate::Answer;
use alphabet::Fault;

// Puts what came back, in the place of whatever was put before: the number of the refusal, its place, the length of
// what was written, and the buffer.
pub fn put_written(answer: &mut Answer, found: Result<usize, Fault>, buffer: &[u8])
    requires { length buffer.now ≤ 65536 }
{
    answer.clear();
    answer.put_fault(found.err(), b' ');
    answer.put_number(found.unwrap_or(0) as u64, b' ');
    answer.put_bytes(buffer, b'\n');
}
