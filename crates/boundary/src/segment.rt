// The segments of a message: how many there are, and of each its name and where it stands.
ghost use Rattle.std.specs.Prelude.{◌≡◌};
ghost use Rattle.segments.specs.Asked.{counting, segment_found};
ghost use Rattle.seen.specs.Seen.{segment_seen};
ghost use Rattle.boundary.specs.Seen.{seen};

use crate::answers::CAnswer;
use seen::CSegment;

// How many segments a message has, as the length.
#[unsafe(no_mangle)]
pub extern "C" fn turrethog_segments(message: &[u8]) -> CAnswer
    ensures { result ≡ seen (counting message.now) }
{
    CAnswer::from(segments::count(message))
}

// A segment by its number, from 0.
#[unsafe(no_mangle)]
pub extern "C" fn turrethog_segment(message: &[u8], index: usize) -> CSegment
    ensures { result ≡ segment_seen (segment_found message.now index) }
{
    CSegment::from(segments::find_segment(message, index))
}
