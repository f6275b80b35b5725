// What is told of a file at its end: whether it had a frame at all, the bytes outside frames, and a frame left open.
use crate::tally::Tally;
use frames::Mode;
use objects::Counts;
use terminal::Output;

// Prints a count of bytes.
fn print_bytes(out: &mut Output, count: usize) {
    if count == 1 {
        out.print(b"1 byte");
    } else {
        out.print_counted(b"", count, b" bytes");
    }
}

impl<'a> Tally<'a> {
    // Says how many bytes stood outside frames. They are no fault: many senders put LF behind each frame.
    fn tell_outside(&self, out: &mut Output) {
        let count = self.state.count;
        if count == 0 {
            return;
        }
        out.print(self.name);
        out.print(b": dropped outside frames: ");
        if count == frames::most_dropped() {
            out.print_counted(b"at least ", count as usize, b" bytes");
        } else {
            print_bytes(out, count as usize);
        }
        out.end_line();
    }

    // Whether a frame is open that is too long.
    fn is_too_long(&self) -> bool {
        matches!(
            self.state.mode,
            Mode::Skipping | Mode::SkippingEnd | Mode::Unknown
        )
    }

    // Says of a frame that is open at the end how much of it there is.
    fn tell_open(&self, out: &mut Output) {
        out.print(self.name);
        if self.is_too_long() {
            out.print_line(b": a frame that is too long is open at the end");
            return;
        }
        out.print(b": a frame is open at the end: ");
        print_bytes(out, self.state.held);
        out.print_line(b" held");
    }

    // Tells at the end in JSON: of a frame that is left open, and how many of everything there are.
    fn print_end(&self, out: &mut Output, is_open: bool) {
        if is_open {
            objects::print_open(out, self.name, self.is_too_long(), self.state.held);
        }
        let counts = Counts {
            frames: self.frames,
            refused: self.refused,
            dropped: self.dropped,
            is_open,
            outside: self.state.count as usize,
            bytes: self.bytes,
        };
        objects::print_tally(out, self.name, counts);
    }

    // Tells at the end in words.
    fn say_end(&self, out: &mut Output, is_open: bool, is_none: bool) {
        if is_none {
            out.print(self.name);
            out.print_line(b": no frames");
        }
        self.tell_outside(out);
        if is_open {
            self.tell_open(out);
        }
    }

    // Tells what there is to tell at the end, and returns whether the file is as a link ought to send it: some frame,
    // every message accepted, no frame dropped or left open. In a file without a frame, whole, dropped or open, nothing
    // is refused; but whoever asks for its frames has the wrong file, and a status that says all is well would hide it.
    pub fn tell_end(&self, out: &mut Output) -> bool {
        let is_open = self.state.mode != Mode::Outside;
        let is_none = ((self.frames == 0) & (self.dropped == 0)) & !is_open;
        if self.json {
            self.print_end(out, is_open);
        } else {
            self.say_end(out, is_open, is_none);
        }
        ((self.refused == 0) & (self.dropped == 0)) & (!is_open & !is_none)
    }
}
