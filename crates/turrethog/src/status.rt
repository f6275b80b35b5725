// What a run of the command comes to, as a shell wants to know it. A program of this language has no exit status of its
// own: it says the number on descriptor 3 where it is asked to, and the script `turrethog` makes it the exit status.
use commands::Status;
use terminal::Output;

// The descriptor on which the script listens.
const SCRIPT: i32 = 3;

// How many files there were, how many of them came to each status, and the worst of these.
#[derive(Clone, Copy)]
pub struct Tally {
    files: usize,
    accepted: usize,
    refused: usize,
    unread: usize,
    pub worst: Status,
}

impl Tally {
    // Before the first file.
    pub fn none() -> Tally {
        Tally {
            files: 0,
            accepted: 0,
            refused: 0,
            unread: 0,
            worst: Status::Done,
        }
    }

    // Counts one file more.
    pub fn count(&mut self, status: Status) {
        let counted = match status {
            Status::Done => &mut self.accepted,
            Status::Refused => &mut self.refused,
            Status::Trouble => &mut self.unread,
        };
        *counted = counted.saturating_add(1);
        self.files = self.files.saturating_add(1);
        self.worst = self.worst.max(status);
    }

    // The line that `check` ends with, where there were several files.
    pub fn print_summary(&self, out: &mut Output) {
        if self.files < 2 {
            return;
        }
        out.print_counted(b"", self.files, b" files: ");
        out.print_counted(b"", self.accepted, b" accepted, ");
        out.print_counted(b"", self.refused, b" refused");
        if self.unread != 0 {
            out.print_counted(b", ", self.unread, b" could not be read");
        }
        out.end_line();
    }
}

// The status of a run that has printed all. Where that was not written it is trouble, whatever it was before: whoever
// goes by a status that says more would go by words that nobody has.
pub fn at_end(out: &Output, status: Status) -> Status {
    if out.is_whole {
        return status;
    }
    terminal::standard_error().print_line(
        b"turrethog: not all that was to be printed could be written",
    );
    Status::Trouble
}

// Tells the script. Where that fails it has no number, and takes that for trouble.
pub fn tell(status: Status) {
    io::print_decimal(SCRIPT, status as u64);
}
