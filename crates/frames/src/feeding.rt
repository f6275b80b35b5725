// A piece of the line: runs of bytes that do the same, and the byte behind each, to the first frame or dropped frame,
// or to the piece's end.
ghost use Rattle.std.specs.Prelude.{◌≡◌};
ghost use Rattle.frames.specs.Feeding.{fed};

use crate::state::{FrameState, limit_of};
use crate::steps::Stop;
use alphabet::Refusal;

// What goes back of a piece: `used` bytes of it are done with, and what is left of it is handed in next, with the
// state. Where the reader stopped at nothing, that is all of it.
#[derive(Clone, Copy)]
pub struct Fed {
    pub used: usize,
    pub stop: Option<Stop>,
    pub state: FrameState,
}

impl FrameState {
    // Reads a piece, and gathers the bytes of a frame at the front of the buffer. A state in which no run over such a
    // buffer could have ended is refused (14).
    pub fn feed(mut self, piece: &[u8], buffer: &mut [u8]) -> Result<Fed, Refusal>
        ensures value { result ≡ (fed self piece.now buffer.old).said }
        ensures buffer_after { buffer.new ≡ (fed self piece.now buffer.old).left }
    {
        if !self.is_known(buffer.len()) {
            return Err(Refusal::NoRoom);
        }
        let limit = limit_of(buffer.len());
        let mut rest = piece;
        loop {
            let run = self.pass(limit, rest, buffer);
            let Some((b, behind)) = rest[run..].split_first() else {
                return Ok(Fed {
                    used: piece.len(),
                    stop: None,
                    state: self,
                });
            };
            // The loop is right whatever a run passes over. A run takes every byte that is gathered, so the store is
            // what the step asks for, and is not reached.
            let step = self.step(limit, *b);
            if step.gathers {
                buffer[self.held] = *b;
            }
            self = step.after;
            rest = behind;
            if step.stop.is_some() {
                return Ok(Fed {
                    used: piece.len() - rest.len(),
                    stop: step.stop,
                    state: self,
                });
            }
        }
    }
}
