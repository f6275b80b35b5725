// The type of a message as people write it, and the types that are known: those that structure has, and no others.
ghost use Rattle.std.specs.Prelude.{◌≡◌};
ghost use Rattle.alphabet.specs.Parts.{split};
ghost use Rattle.explaining.specs.Types.{known};

use crate::lists::print_words;
use terminal::Output;

// The bytes of a component of the type of a message, which is the first repetition of MSH-9.
fn type_part(message: &[u8], component: usize) -> &[u8] {
    element::raw(message, element::type_address(component))
}

// Prints the type of a message: its two components, as people write them.
pub fn print_type(out: &mut Output, message: &[u8]) {
    let event = type_part(message, 2);
    out.print(type_part(message, 1));
    if !event.is_empty() {
        out.print(b"^");
        out.print(event);
    }
}

// Says which type a message says, or that it says none.
fn print_said(out: &mut Output, message: &[u8]) {
    out.print(b"  this says ");
    if type_part(message, 1).is_empty() & type_part(message, 2).is_empty() {
        out.print(b"no type");
    } else {
        print_type(out, message);
    }
}

// Prints types, handed in as a text: its words have to be the types that structure has.
fn print_types(out: &mut Output, text: &[u8])
    requires { split 32 text.now ≡ known }
{
    out.print(b"; known are ");
    print_words(out, text);
}

// Says which type a message says, and which are known.
pub fn print_known(out: &mut Output, message: &[u8]) {
    print_said(out, message);
    print_types(out, b"ORU^R01 ACK ADT^A40 ADT^A01 ADT^A02 ADT^A12");
}
