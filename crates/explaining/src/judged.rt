// What a field of a message is judged by: its row of the table of fields, or what another field of its segment says.
use element::Address;
use field_table::{Kind, ROWS};

// What the row of a field says, and any where the table has no such row.
fn kind_in(name: u32, field: usize) -> Kind {
    ROWS.iter()
        .find(|row| (row.segment == name) & (row.field == field))
        .map_or(Kind::Any, |row| row.kind)
}

// The bytes of one repetition of a field.
pub fn repetition_at(message: &[u8], segment: usize, field: usize, repetition: usize) -> &[u8] {
    let address = Address {
        segment,
        field,
        repetition,
        component: 0,
        subcomponent: 0,
    };
    element::raw(message, address)
}

// What a field is judged by: for OBX-5 the type that OBX-2 of its segment says.
pub fn judged_by(message: &[u8], segment: usize, field: usize) -> Kind {
    let name = reading::name_of(places::segment_bytes(message, segment));
    let kind = kind_in(name, field);
    let said = match rules::said_field(kind) {
        Some(said) => repetition_at(message, segment, said, 1),
        None => &[],
    };
    rules::kind_of(kind, said)
}
