// What the reader stops at, told in a line each: a frame with the verdict on its message, and a dropped frame with its
// number and the byte of the file at which it was dropped. A count that does not fit stays at the most there is; no file
// has so many bytes.
use crate::tally::Tally;
use alphabet::Refusal;
use frames::Stop;
use terminal::Output;

impl<'a> Tally<'a> {
    // Tells of the frame that was counted last, by its number, the first being 1, and of the verdict on its message.
    // Returns whether that is accepted.
    fn print_frame(&self, out: &mut Output, message: &[u8]) -> bool {
        if self.json {
            return objects::print_frame(out, self.name, self.frames, message);
        }
        out.print(self.name);
        out.print_counted(b": frame ", self.frames, b"");
        drawing::print_in_line(out, message)
    }

    // Counts a frame, and tells of it.
    fn tell_frame(&mut self, out: &mut Output, message: &[u8]) {
        self.frames = self.frames.saturating_add(1);
        if !self.print_frame(out, message) {
            self.refused = self.refused.saturating_add(1);
        }
    }

    // Tells of a dropped frame, and counts it. It was dropped at the byte that was read last: 0B inside it, what stands
    // behind 1C, or the first that is over the limit. Bytes count from 0.
    fn tell_drop(&mut self, out: &mut Output, kind: Refusal) {
        let place = self.bytes.saturating_sub(1);
        self.dropped = self.dropped.saturating_add(1);
        if self.json {
            objects::print_dropped(out, self.name, kind, place);
            return;
        }
        out.print(self.name);
        wording::print_numbered(out, b": dropped", kind);
        out.print_counted(b" (byte ", place, b" of the file)");
        out.end_line();
    }

    // Tells of each frame and each dropped frame that ends in a piece of a file. The reader never refuses the state,
    // which is the one that it gave back over this buffer. It uses a byte or more of a piece that has any, and no more
    // than all: a proved loop has to end, and so it asks.
    pub fn tell_piece(&mut self, out: &mut Output, piece: &[u8], buffer: &mut [u8]) {
        let mut rest = piece;
        while !rest.is_empty() {
            let fed = match self.state.feed(rest, buffer) {
                Ok(fed) => fed,
                Err(kind) => return self.tell_drop(out, kind),
            };
            self.state = fed.state;
            self.bytes = self.bytes.saturating_add(fed.used);
            match fed.stop {
                Some(Stop::Frame(length)) => {
                    self.tell_frame(out, places::piece(buffer, 0, length));
                }
                Some(Stop::Drop(kind)) => self.tell_drop(out, kind),
                None => {}
            }
            if fed.used == 0 {
                return;
            }
            rest = places::piece(rest, fed.used, rest.len());
        }
    }
}
