// What a sequence asks of the layout: a command with its number, or nothing.
ghost use Rattle.std.specs.Prelude.{◌≡◌, Some, [], ◌∷◌};
ghost use Rattle.alphabet.specs.Lists.{same};
ghost use Rattle.format_commands.specs.Commands.{numbered, order_of, command, held_order};

use crate::numbers::{Amount, number_of};

// What a sequence asks for.
#[derive(Clone, Copy)]
pub enum Order {
    Highlight,
    Break,
    Centre,
    Fill,
    Unfill,
    Down(Amount),
    Across(Amount),
    Margin(Amount),
    Once(Amount),
}

// Whether three bytes are the name of a command: a point and two letters. The bytes go one by one, since a match on a
// slice owes a proof for each byte at which it may turn away.
fn is_name(x: u8, y: u8, z: u8, one: u8, two: u8) -> bool
    ensures { result ≡ same (x ∷ y ∷ z ∷ []) (46 ∷ one ∷ two ∷ []) }
{
    (x == b'.') & ((y == one) & (z == two))
}

// The command of a name that takes a number.
fn with_number(x: u8, y: u8, z: u8, amount: Amount) -> Option<Order>
    ensures { result ≡ numbered (x ∷ y ∷ z ∷ []) (Some amount) }
{
    if is_name(x, y, z, b's', b'p') {
        return Some(Order::Down(amount));
    }
    if is_name(x, y, z, b's', b'k') {
        return Some(Order::Across(amount));
    }
    if is_name(x, y, z, b'i', b'n') {
        return Some(Order::Margin(amount));
    }
    if is_name(x, y, z, b't', b'i') {
        return Some(Order::Once(amount));
    }
    None
}

// The command of a name alone.
fn by_name(x: u8, y: u8, z: u8) -> Option<Order>
    ensures { result ≡ order_of (x ∷ y ∷ z ∷ []) }
{
    if is_name(x, y, z, b'b', b'r') {
        return Some(Order::Break);
    }
    if is_name(x, y, z, b'c', b'e') {
        return Some(Order::Centre);
    }
    if is_name(x, y, z, b'f', b'i') {
        return Some(Order::Fill);
    }
    if is_name(x, y, z, b'n', b'f') {
        return Some(Order::Unfill);
    }
    if is_name(x, y, z, b's', b'p') {
        let one = Amount {
            minus: false,
            size: 1,
        };
        return Some(Order::Down(one));
    }
    None
}

// The command of a letter.
fn by_letter(x: u8) -> Option<Order>
    ensures { result ≡ order_of (x ∷ []) }
{
    if (x == b'H') | (x == b'N') {
        return Some(Order::Highlight);
    }
    None
}

// What the bytes between two escape delimiters ask for: by their length first, since most have three.
pub fn order_of(inside: &[u8]) -> Option<Order>
    ensures { result ≡ held_order (order_of inside.now) }
{
    if inside.len() == 3 {
        return by_name(inside[0], inside[1], inside[2]);
    }
    if inside.len() == 1 {
        return by_letter(inside[0]);
    }
    if inside.len() < 4 {
        return None;
    }
    let amount = number_of(&inside[3..])?;
    with_number(inside[0], inside[1], inside[2], amount)
}

// Whether the bytes between two escape delimiters are a command.
pub fn is_command(inside: &[u8]) -> bool
    ensures { result ≡ command inside.now }
{
    order_of(inside).is_some()
}
