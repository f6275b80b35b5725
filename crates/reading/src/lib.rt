// Is this a message at all? Numbers 1 to 8 of document 01, the delimiters of a message, and where its
// segments stand. Every function takes any bytes.
#![tactic(auto)]

mod checks;
mod segments;

ghost use Rattle.std.specs.Prelude.{◌≡◌};
ghost use Rattle.reading.specs.Reading.{reading};

use alphabet::Fault;
pub use checks::{check_end, check_opening, check_segment, check_segments};
pub use segments::{delimiters_of, name_of, segment_at, segment_end, segment_start};

// Accepts a message, or refuses it with its first fault.
#[tactic(auto, unfolding(crate::specs::Reading::reading))]
pub fn read(message: &[u8]) -> Result<(), Fault>
    ensures { result ≡ reading message.now }
{
    checks::check_opening(message)?;
    checks::check_rest(message)
}
