// What a row of the table of document 01, 'Fields judged', asks of a field, whatever message it stands in.
// The walk along a message is the crate `fields`.
#![tactic(auto)]

mod checks;
mod plain;

pub use checks::{
    check_opening, check_own, check_repetition, component_of, is_any, kind_of, said_field,
};
pub use plain::{is_plain, is_plain_said};
