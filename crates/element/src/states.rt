// The four states of an element.
ghost use Rattle.std.specs.Prelude.{◌≡◌};
ghost use Rattle.element.specs.States.{state_of, is_empty, is_present};

use alphabet::Delimiters;

#[derive(Clone, Copy, PartialEq, Eq)]
pub enum State {
    Absent,
    Empty,
    Null,
    Present,
}

// No bytes, or only component, subcomponent or repetition separators.
pub fn is_empty(delimiters: Delimiters, bytes: &[u8]) -> bool
    ensures { result ≡ is_empty delimiters.bytes bytes.now }
{
    let ds = delimiters.bytes;
    let component = ds[1];
    let repetition = ds[2];
    let subcomponent = ds[4];
    for &b in bytes {
        let separator = (b == component) | ((b == repetition) | (b == subcomponent));
        if !separator {
            return false;
        }
    }
    true
}

// The state of a part that is there.
pub fn state_of(delimiters: Delimiters, bytes: &[u8]) -> State
    ensures { result ≡ state_of delimiters.bytes bytes.now }
{
    if alphabet::is_null(bytes) {
        return State::Null;
    }
    if is_empty(delimiters, bytes) {
        return State::Empty;
    }
    State::Present
}

// Whether there is something to read: neither absent nor empty nor null.
pub fn is_present(state: State) -> bool
    ensures { result ≡ is_present state }
{
    matches!(state, State::Present)
}
