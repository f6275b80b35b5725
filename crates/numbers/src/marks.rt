// Where a mark first stands in a value: the point of a number, the sign of a zone.
ghost use Rattle.std.specs.Prelude.{◌≡◌};
ghost use Rattle.alphabet.specs.Lists.{find};

// No value that is read has as many bytes.
const MANY: usize = 64;

// The place of the first b, or the length where there is none. What ought to be a value may be a document of a million
// bytes, which are passed over by blocks.
pub fn find_mark(bytes: &[u8], b: u8) -> usize
    ensures { result ≡ find b bytes.now }
{
    if bytes.len() < MANY {
        return alphabet::find(bytes, b);
    }
    search::find_one(bytes, b)
}
