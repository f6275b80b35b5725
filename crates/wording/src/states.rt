// The state of an element in a word, and what stands behind it.
use element::State;
use terminal::Output;

// Prints the word for a state. Bytes mostly follow on null and on present, and these two take as many columns.
pub fn print_state(out: &mut Output, state: State) {
    out.print(match state {
        State::Absent => b" absent",
        State::Empty => b" empty",
        State::Null => b" null   ",
        State::Present => b" present",
    });
}

// Prints bytes behind a state, where there are any.
pub fn print_behind(out: &mut Output, bytes: &[u8]) {
    if !bytes.is_empty() {
        out.print(b" ");
        out.print(bytes);
    }
}
