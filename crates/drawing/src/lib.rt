// The verdict on a message as people are told it: a line that says accepted or refused, and under a refusal the place
// that is meant, drawn with a mark under it; or, where one line is all there is for it, named in that line. What helps
// stands below: what would have been right, and a hint where the bytes show what was sent.
#![tactic(auto)]

mod faults;
mod naming;

use fault::FaultRecord;
use terminal::Output;

// Says that a message is accepted: its type, and how many segments and bytes it has.
fn print_accepted(out: &mut Output, message: &[u8]) {
    out.print(b": accepted: ");
    explaining::print_type(out, message);
    out.print_counted(b", ", places::count_segments(message), b" segments, ");
    out.print_counted(b"", message.len(), b" bytes");
    out.end_line();
}

// Says the verdict on the message that a file holds, and draws the place of a fault. Returns whether it is accepted.
pub fn print_verdict(out: &mut Output, name: &[u8], message: &[u8]) -> bool {
    let Err(fault) = verdict::verdict(message) else {
        out.print(name);
        print_accepted(out, message);
        return true;
    };
    wording::print_refused(out, name, fault.kind);
    faults::draw(out, message, fault);
    faults::help(out, message, fault);
    false
}

// Names the place of a fault in parentheses. Where the message has no bytes there is no place.
fn print_place(out: &mut Output, message: &[u8], fault: FaultRecord) {
    if message.is_empty() {
        out.print_line(b" (it has none)");
        return;
    }
    out.print(b" (");
    naming::name_place(out, message, naming::meant(fault));
    out.print_line(b")");
}

// Says the verdict on a message in the rest of a line that names the message, with the place of a fault in words; what
// helps stands below that line. Returns whether it is accepted.
pub fn print_in_line(out: &mut Output, message: &[u8]) -> bool {
    let Err(fault) = verdict::verdict(message) else {
        print_accepted(out, message);
        return true;
    };
    wording::print_numbered(out, b": refused", fault.kind);
    print_place(out, message, fault);
    faults::help(out, message, fault);
    false
}
