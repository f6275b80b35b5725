// A number with a sign, in decimal.
ghost use Rattle.std.specs.Prelude.{◌+◌, ◌≤◌, length};
ghost use Rattle.answering.specs.Answers.{Fits};

use answering::Answer;

// Puts a number with its sign, where that is a minus.
pub fn put_signed(answer: &mut Answer, value: i64, end: u8)
    requires { Fits answer.old 22 }
    ensures { length answer.new ≤ length answer.old + 22 }
{
    if value < 0 {
        answer.put(b"-");
    }
    answer.put_number(value.unsigned_abs(), end);
}
