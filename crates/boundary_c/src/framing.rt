// Messages off the wire: the frame reader. Its state is three numbers, which C hands in with each piece and gets back;
// any three may be handed in.
ghost use Rattle.std.specs.Prelude.{◌≡◌};
ghost use Rattle.frames.specs.Feeding.{fed};
ghost use Rattle.boundary.specs.Framing.{fed_seen, handed_in};

use boundary::{CFed, CFrameState};

// Reads a piece of the line, and gathers a frame at the front of the buffer. Where the state is refused the stop is 3,
// and C's own state goes back to it.
#[unsafe(no_mangle)]
pub extern "C" fn turrethog_feed(state: CFrameState, piece: &[u8], buffer: &mut [u8]) -> CFed
    ensures value { result ≡ fed_seen state (fed (handed_in state) piece.now buffer.old).said }
    ensures buffer_after { buffer.new
        ≡ (fed (handed_in state) piece.now buffer.old).left }
{
    boundary::turrethog_feed(state, piece, buffer)
}
