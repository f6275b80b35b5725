// The names that HL7 v2.4 gives the fields that are judged, and the type of a message.
use terminal::Output;

// The name of a field of a segment behind a comma, and nothing for a field that is not judged.
fn name_of(segment: &[u8], field: usize) -> &'static [u8] {
    match (segment, field) {
        (b"MSH", 7) => b", date/time of message",
        (b"MSH", 9) => b", message type",
        (b"MSH", 10) => b", message control ID",
        (b"MSH", 11) => b", processing ID",
        (b"MSH", 12) => b", version ID",
        (b"PID", 3) => b", patient identifier list",
        (b"PID", 5) => b", patient name",
        (b"PID", 7) => b", date/time of birth",
        (b"PID", 8) => b", administrative sex",
        (b"OBX", 1) => b", set ID",
        (b"OBX", 2) => b", value type",
        (b"OBX", 3) => b", observation identifier",
        (b"OBX", 5) => b", observation value",
        (b"OBX", 11) => b", observation result status",
        (b"OBX", 14) => b", date/time of the observation",
        (b"OBR", 1) => b", set ID",
        (b"MSA", 1) => b", acknowledgement code",
        _ => b"",
    }
}

// Prints the name of a field of a segment behind a comma, or nothing for a field that is not judged.
pub fn print_field_name(out: &mut Output, segment: &[u8], field: usize) {
    out.print(name_of(places::piece(segment, 0, 3), field));
}
