// A string of JSON. A message's bytes are Latin-1, and so each is the letter of its own number: printable ASCII stands
// as it is, a quote and a backslash behind a backslash, and any other byte as \u00 and its two hex digits.
ghost use Rattle.members.specs.Letters.{plain, escaped};
ghost use Rattle.members.specs.LetterLaws.{plain_visible, escaped_visible};

use terminal::{Spelling, Spelt};

// The spelling inside a string.
pub struct InString;

impl Spelling for InString {
    ghost plain = { plain };

    ghost spelt = { escaped };

    ghost plain_seen = { plain_visible };

    ghost spelt_seen = { escaped_visible };

    fn is_plain(byte: u8) -> bool {
        ((32 <= byte) & (byte <= 126)) & !((byte == 34) | (byte == 92))
    }

    fn spelt(byte: u8) -> Spelt {
        if (byte == 34) | (byte == 92) {
            return Spelt {
                text: [92, byte, 0, 0, 0, 0],
                length: 2,
            };
        }
        let high = alphabet::hex_digit(byte / 16);
        let low = alphabet::hex_digit(byte);
        Spelt {
            text: [92, 117, 48, 48, high, low],
            length: 6,
        }
    }
}
