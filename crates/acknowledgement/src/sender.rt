// The sender's header: the bytes of a message through the first CR, its fields, and whether the message can be
// acknowledged at all. Nothing behind the header is looked at, and one walk along it finds all fields.
ghost use Rattle.std.specs.Prelude.{◌≡◌, true, false, ◌+◌, ◌≤◌, MatchOption};
ghost use Rattle.reading.specs.Segments.{field_separator};
ghost use Rattle.ends.specs.Ends.{Noted};
ghost use Rattle.acknowledgement.specs.Acknowledgement.{header as taken, sent, present, acknowledgeable};
ghost use Rattle.acknowledgement.specs.Fields.{line_in, is_sound, pair, event, component};

// The header of a message that can be acknowledged, with its CR, and where its fields end: the bytes of a field stand
// between the end of the field before it and its own.
#[derive(Clone, Copy)]
pub struct Header<'a> {
    pub bytes: &'a [u8],
    ends: [usize; ends::ROOM],
    ghost sound: { is_sound bytes.now ≡ true },
    ghost noted: { Noted (field_separator bytes.now) (line_in bytes.now) 10 ends },
}

// A component of a field's first repetition, by its index, from 0.
fn component<'a>(header: &[u8], field: &'a [u8], index: usize) -> &'a [u8]
    ensures { result.now ≡ component header.now field.now index }
{
    let repetition = element::part_in(field, alphabet::byte_at(header, 5), 0);
    element::part_in(repetition, alphabet::byte_at(header, 4), index)
}

// Whether bytes taken from the header are present.
fn is_present(header: &[u8], bytes: &[u8]) -> bool
    ensures { result ≡ present header.now bytes.now }
{
    let delimiters = reading::delimiters_of(header);
    element::is_present(element::state_of(delimiters, bytes))
}

impl<'a> Header<'a> {
    // The header of a message, if that can be acknowledged: its header is there and sound, it is no acknowledgement
    // itself, and its control ID is present and not too long.
    pub fn of(message: &'a [u8]) -> Option<Header<'a>>
        ensures { MatchOption result (acknowledgeable message.now ≡ false)
            (λ h. (acknowledgeable message.now ≡ true) × (h.bytes.now ≡ taken message.now)) }
    {
        let end = search::find_return(message);
        if end == message.len() {
            return None;
        }
        let line = &message[..end];
        let bytes = &message[..end + 1];
        if reading::check_opening(bytes).is_err() {
            return None;
        }
        let mut ends = [0; ends::ROOM];
        ends::note(line, alphabet::byte_at(bytes, 3), 10, &mut ends);
        // The type is field 9 and the control ID field 10; parts count from 0, and the separator is field 1.
        let kind = component(bytes, ends::part(line, &ends, 8), 0);
        let id = ends::part(line, &ends, 9);
        let known = alphabet::same(kind, b"ACK");
        let there = is_present(bytes, id);
        let short = id.len() <= alphabet::id_limit();
        if !known & (there & short) {
            return Some(Header { bytes, ends });
        }
        None
    }

    // A field as it was sent, by its number.
    pub fn field(&self, number: usize) -> &'a [u8]
        requires { (2 ≤ number) × (number ≤ 11) }
        ensures { result.now ≡ sent self.now.bytes.now number }
    {
        let line = &self.bytes[..self.bytes.len() - 1];
        ends::part(line, &self.ends, number - 1)
    }

    // Two fields, the first by its number, with the separator behind each. A header that has a control ID has all
    // fields before it.
    pub fn pair(&self, number: usize) -> &'a [u8]
        requires { (3 ≤ number) × (number ≤ 8) }
        ensures { result.now ≡ pair self.now.bytes.now number }
    {
        let start = self.ends[number - 2] + 1;
        let end = self.ends[number] + 1;
        &self.bytes[start..end]
    }

    // The event of the sender's type; none where it is not present.
    pub fn event(&self) -> &'a [u8]
        ensures { result.now ≡ event self.now.bytes.now }
    {
        let part = component(self.bytes, self.field(9), 1);
        if is_present(self.bytes, part) {
            return part;
        }
        &part[..0]
    }
}
