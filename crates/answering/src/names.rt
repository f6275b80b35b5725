// The names that could have stood at a place, joined by commas. They are the last word of an answer.
ghost use Rattle.std.specs.Prelude.{◌+◌, ◌≤◌, ◌≡◌, length};
ghost use Rattle.answering.specs.Answers.{Fits};

use crate::Answer;
use fault::Names;

// Puts a name of three letters, which a number holds at eight bits a letter.
// As wording's letters of a name; that crate belongs to the command, and is none of this program's.
fn put_name(answer: &mut Answer, name: u32, end: u8)
    requires { Fits answer.old 4 }
    ensures { length answer.new ≡ length answer.old + 4 }
{
    let [_, first, second, third] = name.to_be_bytes();
    answer.put_word(&[first, second, third], end);
}

// Puts names, a comma between two of them and the end of the line behind the last, or `-` where there are none.
pub fn put_names(answer: &mut Answer, names: Names)
    requires { Fits answer.old 256 }
    ensures { length answer.new ≤ length answer.old + 256 }
{
    let Some((last, others)) = names.as_slice().split_last() else {
        answer.put_nothing(b'\n');
        return;
    };
    for name in others {
        put_name(answer, *name, b',');
    }
    put_name(answer, *last, b'\n');
}
