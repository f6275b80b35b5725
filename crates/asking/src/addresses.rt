// Five words of a line together say the address of an element.
use crate::{decimals, words};
use element::Address;

// The number that the word at a place of a line says, as a step of an address.
fn step(line: &[u8], place: usize) -> Option<usize> {
    let number = decimals::decode(words::word(line, place))?;
    Some(number as usize)
}

// The address that the third word of a line and the four behind it say, each a number.
pub fn address(line: &[u8]) -> Option<Address> {
    Some(Address {
        segment: step(line, 2)?,
        field: step(line, 3)?,
        repetition: step(line, 4)?,
        component: step(line, 5)?,
        subcomponent: step(line, 6)?,
    })
}
