// The number behind a command's name: a blank or none, a sign or none, and digits. A number of any count of digits is
// held at 201, which is outside of every range as a greater one is.
ghost use Rattle.std.specs.Prelude.{◌≡◌};
ghost use Rattle.format_commands.specs.Commands.{digits_of, signed_of, number_of, held_size, held_number};

// A number with its sign.
#[derive(Clone, Copy)]
pub struct Amount {
    pub minus: bool,
    pub size: usize,
}

// A number held at 201.
#[tactic(auto, unfolding(crate::specs::Commands::held_size))]
pub fn hold(n: usize) -> usize
    ensures { result ≡ held_size n }
{
    n.min(201)
}

// The number that digits say, held.
fn digits_of(minus: bool, digits: &[u8]) -> Option<Amount>
    ensures { result ≡ held_number (digits_of minus digits.now) }
{
    if digits.is_empty() {
        return None;
    }
    let mut size = 0;
    for digit in digits {
        if !alphabet::is_digit(*digit) {
            return None;
        }
        size = hold(size * 10 + usize::from(*digit - b'0'));
    }
    Some(Amount { minus, size })
}

// A sign or none, and digits.
#[tactic(auto, unfolding(crate::specs::Commands::signed_of))]
fn signed_of(bytes: &[u8]) -> Option<Amount>
    ensures { result ≡ held_number (signed_of bytes.now) }
{
    match bytes {
        [b'-', digits @ ..] => digits_of(true, digits),
        [b'+', digits @ ..] => digits_of(false, digits),
        _ => digits_of(false, bytes),
    }
}

// A blank or none, and a number with its sign.
#[tactic(auto, unfolding(crate::specs::Commands::number_of))]
pub fn number_of(bytes: &[u8]) -> Option<Amount>
    ensures { result ≡ held_number (number_of bytes.now) }
{
    match bytes {
        [b' ', rest @ ..] => signed_of(rest),
        _ => signed_of(bytes),
    }
}
