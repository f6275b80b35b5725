// A buffer that is lent to the library, of as many bytes as a question asks for: each is A5 before the call, so that an
// answer that shows the whole of it tells what was written and that the rest stayed.
ghost use Rattle.std.specs.Prelude.{ℕ, ◌<◌, ◌≤◌, ◌≡◌, get_or, IfSome};

use crate::decimals;

// The largest buffer that is lent.
const LARGEST_ROOM: usize = 65_536;

// The buffer as it is before the call. By a call of its own it is no list of so many bytes in the caller's proof.
pub fn untouched() -> [u8; LARGEST_ROOM]
    ensures { (i : ℕ) → i < 65536 → get_or result i 0 ≡ 165 }
{
    [165; LARGEST_ROOM]
}

// The room that a word says, where a buffer of that size is lent.
pub fn room_of(word: &[u8]) -> Option<usize>
    ensures { IfSome result (λ room. room ≤ 65536) }
{
    let room = decimals::decode(word)? as usize;
    if LARGEST_ROOM < room {
        return None;
    }
    Some(room)
}
