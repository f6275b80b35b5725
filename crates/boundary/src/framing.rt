// Messages off the wire: the frame reader. Its state is three numbers, which C hands in with each piece and gets back;
// any three may be handed in.
ghost use Rattle.std.specs.Prelude.{◌≡◌};
ghost use Rattle.frames.specs.Feeding.{fed};
ghost use Rattle.boundary.specs.Framing.{fed_seen, told_seen, handed_in, handed_back};

use frames::{Fed, FrameState, Mode, Stop};

// The mode, the bytes held and the count of bytes dropped outside frames. All zeros is the start.
#[repr(C)]
#[derive(Clone, Copy)]
pub struct CFrameState {
    pub mode: u64,
    pub held: usize,
    pub count: u64,
}

// The number; what the reader stopped at; the bytes of the piece that are done with; the frame's length; the state.
#[repr(C)]
#[derive(Clone, Copy)]
pub struct CFed {
    pub number: u32,
    pub stop: u32,
    pub used: usize,
    pub length: usize,
    pub state: CFrameState,
}

// The state that C handed in: a number that is no mode's stands for a mode that cannot be.
impl From<CFrameState> for FrameState {
    ghost from_gives = { λ state r. r ≡ handed_in state };

    fn from(state: CFrameState) -> FrameState {
        FrameState {
            mode: Mode::from(state.mode),
            held: state.held,
            count: state.count,
        }
    }
}

// A state that goes back to C.
impl From<FrameState> for CFrameState {
    ghost from_gives = { λ state r. r ≡ handed_back state };

    fn from(state: FrameState) -> CFrameState {
        CFrameState {
            mode: u64::from(state.mode),
            held: state.held,
            count: state.count,
        }
    }
}

// What a piece came to, as C sees it: 0 where the reader stopped at the piece's end, 1 at a frame, 2 at one that it
// dropped.
impl From<Fed> for CFed {
    ghost from_gives = { λ fed r. r ≡ told_seen fed };

    fn from(fed: Fed) -> CFed {
        let (number, stop, length) = match fed.stop {
            None => (0, 0, 0),
            Some(Stop::Frame(length)) => (0, 1, length),
            Some(Stop::Drop(kind)) => (u32::from(u8::from(kind)), 2, 0),
        };
        CFed {
            number,
            stop,
            used: fed.used,
            length,
            state: CFrameState::from(fed.state),
        }
    }
}

// Reads a piece of the line, and gathers a frame at the front of the buffer. Where the state is refused the stop is 3,
// and C's own state goes back to it.
#[unsafe(no_mangle)]
pub extern "C" fn turrethog_feed(state: CFrameState, piece: &[u8], buffer: &mut [u8]) -> CFed
    ensures value { result ≡ fed_seen state (fed (handed_in state) piece.now buffer.old).said }
    ensures buffer_after { buffer.new
        ≡ (fed (handed_in state) piece.now buffer.old).left }
{
    match FrameState::from(state).feed(piece, buffer) {
        Ok(fed) => CFed::from(fed),
        Err(kind) => CFed {
            number: u32::from(u8::from(kind)),
            stop: 3,
            used: 0,
            length: 0,
            state,
        },
    }
}
