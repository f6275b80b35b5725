// Bytes that are put together of pieces, one behind another. All pieces are measured before the first is written, so
// that what does not fit writes nothing.
#![tactic(auto)]

ghost use Rattle.std.specs.Prelude.{◌≡◌, map, ◌≤◌, length};
ghost use Rattle.alphabet.specs.Filling.{over};
ghost use Rattle.escaping.specs.Outcomes.{room_for};
ghost use Rattle.together.specs.Together.{together, least, fitted};

// The length of all pieces, where that is at most `room`. It is counted against the room, since a sum of lengths need
// not be a usize.
fn measure(pieces: &[&[u8]], room: usize) -> Option<usize>
    ensures { result ≡ room_for room (length (together (map (λ x. x.now) pieces.now))) }
{
    let mut n = 0;
    for piece in pieces {
        if room - n < piece.len() {
            return None;
        }
        n += piece.len();
    }
    Some(n)
}

// Writes all pieces to the front of the buffer.
fn copy(pieces: &[&[u8]], buffer: &mut [u8])
    requires { length (together (map (λ x. x.now) pieces.now)) ≤ length buffer.old }
    ensures { buffer.new ≡ over (together (map (λ x. x.now) pieces.now)) buffer.old }
{
    let mut place = 0;
    for piece in pieces {
        place = alphabet::put(buffer, place, piece);
    }
}

// Writes all pieces to the front of the buffer, where they fit into it and are at most `most` bytes; tells how many
// these are, or that there is no room, and then the buffer stays as it was.
pub fn put(pieces: &[&[u8]], most: usize, buffer: &mut [u8]) -> Option<usize>
    ensures value { result ≡ room_for (least (length buffer.old) most)
        (length (together (map (λ x. x.now) pieces.now))) }
    ensures buffer_after { buffer.new ≡ fitted (least (length buffer.old) most)
        (together (map (λ x. x.now) pieces.now)) buffer.old }
{
    let room = buffer.len().min(most);
    let size = measure(pieces, room)?;
    copy(pieces, buffer);
    Some(size)
}
