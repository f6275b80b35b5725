// What would have been right, told on a line below a refusal: the types of message that are known, the list of a field,
// the form of its type or its limit; and the name that HL7 gives a field. What a field is judged by is asked of the
// table of fields itself.
#![tactic(auto)]

mod judged;
mod lists;
mod names;
mod type_forms;
mod types;

use alphabet::Refusal;
use fault::FaultRecord;
pub use names::print_field_name;
use terminal::Output;
pub use type_forms::print_time_form;
pub use types::print_type;

// Says below a refusal what would have been right: the types that are known, the form of a field, its list or its limit.
// What the field is judged by is looked up for these alone, since that walks along the message.
pub fn explain(out: &mut Output, message: &[u8], fault: FaultRecord) {
    let asked = || judged::judged_by(message, fault.place, fault.field);
    match fault.kind {
        Refusal::NoStructure => types::print_known(out, message),
        Refusal::BreaksForm => type_forms::print_form(out, asked()),
        Refusal::NotListed => lists::print_list_of(out, asked()),
        Refusal::ValueTooLong => {
            let value = judged::repetition_at(message, fault.place, fault.field, fault.repetition);
            type_forms::print_limit(out, asked(), value.len());
        }
        _ => {}
    }
}
