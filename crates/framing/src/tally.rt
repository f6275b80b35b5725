// What was found in a file so far, which goes from piece to piece with the reader's state.
use frames::FrameState;

// Whether it is told in JSON, and by which name of the file; the reader's state, how many whole frames there were, how
// many messages of these were refused, how many frames were dropped, and how many bytes were read.
// `json` is a flag, and no trait or closure: the two ways print other things at other places.
#[derive(Drop)]
pub struct Tally<'a> {
    pub json: bool,
    pub name: &'a [u8],
    pub state: FrameState,
    pub frames: usize,
    pub refused: usize,
    pub dropped: usize,
    pub bytes: usize,
}

impl<'a> Tally<'a> {
    // At the beginning of a file.
    pub fn start(json: bool, name: &'a [u8]) -> Tally<'a> {
        Tally {
            json,
            name,
            state: FrameState::start(),
            frames: 0,
            refused: 0,
            dropped: 0,
            bytes: 0,
        }
    }
}
