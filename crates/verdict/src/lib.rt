// The verdict on a message: reading, structure and fields, in the order of the judges. The first fault decides, and one
// record tells it for all of them. Any bytes may be handed in. The segments are walked once for all three judges.
#![tactic(auto)]

mod walk;

ghost use Rattle.verdict.specs.Verdicts.{Verdicts};

use fault::FaultRecord;

// The verdict on a message.
pub fn verdict(message: &[u8]) -> Result<(), FaultRecord>
    ensures { Verdicts message.now result }
{
    reading::check_opening(message)?;
    reading::check_end(message)?;
    match structure::rows_for(message) {
        Some(rows) => walk::judge_segments(message, rows),
        None => structure::judge_unlisted(message),
    }
}
