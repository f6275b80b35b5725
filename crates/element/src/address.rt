// The address of an element: which segment, field, repetition, component and subcomponent.
ghost use Rattle.std.specs.Prelude.{◌≡◌};
ghost use Rattle.element.specs.Addresses.{address_check, type_address};

use alphabet::{Fault, Refusal};

// Segments count from 0, all else from 1; 0 for the last three means the whole.
// 0 and no Option: document 01, the command and C number the parts so, and `address_check` speaks of it.
#[derive(Clone, Copy, PartialEq, Eq)]
pub struct Address {
    pub segment: usize,
    pub field: usize,
    pub repetition: usize,
    pub component: usize,
    pub subcomponent: usize,
}

// Number 19 for an address that no message could have; it is judged by its numbers alone.
pub fn check_address(address: Address) -> Result<(), Fault>
    ensures { result ≡ address_check address }
{
    let field = 1 <= address.field;
    let component = (1 <= address.repetition) | (address.component == 0);
    let subcomponent = (1 <= address.component) | (address.subcomponent == 0);
    alphabet::fails_if(!(field & (component & subcomponent)), Refusal::Address, 0)
}

// Where a component of a message's type stands.
pub fn type_address(component: usize) -> Address
    ensures { result ≡ type_address component }
{
    Address {
        segment: 0,
        field: 9,
        repetition: 1,
        component,
        subcomponent: 0,
    }
}
