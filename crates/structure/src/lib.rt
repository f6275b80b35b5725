// Which segments stand in a message, and whether its structure yields them. A refusal says at which segment, what could
// have stood there, and whether the message could have ended there. Every function takes any bytes.
#![tactic(auto)]

mod ack;
mod adt_a01;
mod adt_a02;
mod adt_a40;
mod judging;
mod listing;
mod names;
mod one_walk;
mod oru_r01;
mod rows;
mod segments;
mod structures;
mod walking;

ghost use Rattle.structure.specs.Judged.{Answers};

use fault::FaultRecord;
pub use judging::tell;
pub use one_walk::judge_unlisted;
pub use rows::Rows;
pub use structures::{judge_read, rows_for};
pub use walking::{Course, Next, Stop, Stuck, advance, begin, finish};

// Judges the structure of a message: a reading fault, 20, 21, 22, or accepted.
pub fn judge_structure(message: &[u8]) -> Result<(), FaultRecord>
    ensures { Answers message.now result }
{
    reading::check_opening(message)?;
    reading::check_end(message)?;
    match rows_for(message) {
        Some(rows) => one_walk::judge_segments(message, rows),
        None => judge_unlisted(message),
    }
}
