// What a row asks of the repetitions of its field. A check gives the number and, as its place, the repetition.
// A field that is absent is judged as one with no bytes: to the judge they are the same.
ghost use Rattle.std.specs.Prelude.{◌≡◌, cond, get_or, Some, None};
ghost use Rattle.alphabet.specs.Parts.{split};
ghost use Rattle.element.specs.States.{state_of, is_present};
ghost use Rattle.rules.specs.Rules.{form_check, passing, opening_check, judged_part, placed, repetition_check, required_check, sent_check, own_check, some_present, is_said, said_field, said_check, kind_said, kind_of, component_of, is_any};

use alphabet::{Delimiters, Fault, Refusal};
use element::State;
use field_table::{Kind, Row, is_listed};

// The bytes of a part that is present, against a type.
#[tactic(auto, unfolding(crate::specs::Rules::form_check))]
fn check_form(kind: Kind, bytes: &[u8]) -> Result<(), Fault>
    ensures { result ≡ form_check kind bytes.now }
{
    match kind {
        Kind::Any => Ok(()),
        Kind::Identifier => {
            let most = alphabet::id_limit();
            alphabet::fails_if(most < bytes.len(), Refusal::ValueTooLong, 0)
        }
        Kind::Ts => alphabet::fails_if(!times::is_ts(bytes), Refusal::BreaksForm, 0),
        Kind::Si => alphabet::fails_if(!numbers::is_si(bytes), Refusal::BreaksForm, 0),
        Kind::Nm => numbers::check_nm(bytes),
        Kind::Dt => alphabet::fails_if(!times::is_dt(bytes), Refusal::BreaksForm, 0),
        Kind::Tm => alphabet::fails_if(!times::is_tm(bytes), Refusal::BreaksForm, 0),
        Kind::OneOf(values) => alphabet::fails_if(!is_listed(bytes, values), Refusal::NotListed, 0),
        Kind::AsField(_) => Ok(()),
    }
}

// Whether such a check passes, told with no fault made of it: nearly every part has the form of its type.
pub fn has_form(kind: Kind, bytes: &[u8]) -> bool
    ensures { result ≡ passing (form_check kind bytes.now) }
{
    match kind {
        Kind::Any => true,
        Kind::Identifier => {
            let most = alphabet::id_limit();
            bytes.len() <= most
        }
        Kind::Ts => times::is_ts(bytes),
        Kind::Si => numbers::is_si(bytes),
        Kind::Nm => numbers::check_nm(bytes).is_ok(),
        Kind::Dt => times::is_dt(bytes),
        Kind::Tm => times::is_tm(bytes),
        Kind::OneOf(values) => is_listed(bytes, values),
        Kind::AsField(_) => true,
    }
}

// The part of a repetition that is judged: the whole, or a component of it, which has no bytes where it is absent.
fn judged_part(delimiters: Delimiters, component: usize, repetition: &[u8]) -> &[u8]
    ensures { result.now ≡ judged_part delimiters.bytes component repetition.now }
{
    if component == 0 {
        return repetition;
    }
    let bytes = delimiters.bytes;
    if component == 1 {
        let end = search::find_by_words(repetition, bytes[1]);
        return &repetition[..end];
    }
    element::part_in(repetition, bytes[1], component - 1)
}

// Whether a part that is there is present, and neither empty nor null.
fn is_present(delimiters: Delimiters, bytes: &[u8]) -> bool
    ensures { result ≡ is_present (state_of delimiters.bytes bytes.now) }
{
    element::is_present(element::state_of(delimiters, bytes))
}

// A fault of a form, in the repetition of a number.
fn placed(number: usize, form: Result<(), Fault>) -> Result<(), Fault>
    ensures { result ≡ placed number form }
{
    form.map_err(|fault| Fault {
        kind: fault.kind,
        place: number,
    })
}

// One repetition, of the given number, against a type: what is empty or null passes.
pub fn check_repetition(
    delimiters: Delimiters,
    component: usize,
    kind: Kind,
    number: usize,
    repetition: &[u8],
) -> Result<(), Fault>
    ensures { result ≡ repetition_check delimiters.bytes component kind number repetition.now }
{
    let part = judged_part(delimiters, component, repetition);
    if !is_present(delimiters, part) {
        return Ok(());
    }
    if has_form(kind, part) {
        return Ok(());
    }
    placed(number, check_form(kind, part))
}

// Numbers 31 and 34, where a part is required.
fn check_required(required: bool, state: State) -> Result<(), Fault>
    ensures { result ≡ required_check required state }
{
    match state {
        State::Absent => alphabet::fails_if(required, Refusal::RequiredMissing, 1),
        State::Empty => alphabet::fails_if(required, Refusal::RequiredMissing, 1),
        State::Null => alphabet::fails_if(required, Refusal::RequiredNull, 1),
        State::Present => Ok(()),
    }
}

// The same, and then 36: by the state of the part that is judged in repetition 1, and by whether there are more.
#[tactic(auto, unfolding(crate::specs::Rules::sent_check))]
fn check_sent(row: Row, state: State, many: bool) -> Result<(), Fault>
    ensures { result ≡ sent_check row state many }
{
    check_required(row.required, state)?;
    alphabet::fails_if(!row.repeats & many, Refusal::Repeated, 1)
}

// What a row that says its own type asks of repetition 1 of its field, which may have more: its state is told once.
pub fn check_own(delimiters: Delimiters, row: Row, first: &[u8], many: bool) -> Result<(), Fault>
    ensures { result ≡ own_check delimiters.bytes row first.now many }
{
    let component = row.component;
    let part = judged_part(delimiters, component, first);
    let state = element::state_of(delimiters, part);
    check_sent(row, state, many)?;
    if !element::is_present(state) {
        return Ok(());
    }
    if has_form(row.kind, part) {
        return Ok(());
    }
    placed(1, check_form(row.kind, part))
}

// Whether some repetition of a field is present, as a whole.
fn some_present(delimiters: Delimiters, field: &[u8]) -> bool
    ensures { result ≡ some_present delimiters.bytes (split (get_or delimiters.bytes 2 0) field.now) }
{
    let bytes = delimiters.bytes;
    let separator = bytes[2];
    let mut start = 0;
    loop {
        let end = start + alphabet::find(&field[start..], separator);
        if is_present(delimiters, &field[start..end]) {
            return true;
        }
        if end == field.len() {
            return false;
        }
        start = end + 1;
    }
}

// The type that the bytes of a field such as OBX-2 name, if it is one that is judged.
pub fn kind_said(said: &[u8]) -> Kind
    ensures { result ≡ kind_said said.now }
{
    if alphabet::same(said, b"NM") {
        return Kind::Nm;
    }
    if alphabet::same(said, b"DT") {
        return Kind::Dt;
    }
    if alphabet::same(said, b"TM") {
        return Kind::Tm;
    }
    if alphabet::same(said, b"TS") {
        return Kind::Ts;
    }
    Kind::Any
}

// Which field says what a row judges by, where one does. No field has the number 0.
pub fn said_field(kind: Kind) -> Option<usize>
    ensures { result ≡ cond (is_said kind) (Some (said_field kind)) None }
{
    match kind {
        Kind::AsField(field) if field != 0 => Some(field),
        _ => None,
    }
}

// Whether another field says it.
fn is_said(kind: Kind) -> bool
    ensures { result ≡ is_said kind }
{
    said_field(kind).is_some()
}

// What a row judges by, once the field that may say it is known.
pub fn kind_of(kind: Kind, said: &[u8]) -> Kind
    ensures { result ≡ kind_of kind said.now }
{
    if is_said(kind) {
        return kind_said(said);
    }
    kind
}

// Which component of a repetition a row judges: of a type that is said, component 1 for TS.
pub fn component_of(row: Row, said: &[u8]) -> usize
    ensures { result ≡ component_of row said.now }
{
    if is_said(row.kind) & alphabet::same(said, b"TS") {
        return 1;
    }
    row.component
}

// Number 35: a field whose type is said has some repetition present, and what says it is not.
fn check_said(delimiters: Delimiters, kind: Kind, said: &[u8], field: &[u8]) -> Result<(), Fault>
    ensures { result ≡ said_check delimiters.bytes kind said.now
        (split (get_or delimiters.bytes 2 0) field.now) }
{
    let untyped = is_said(kind) & !is_present(delimiters, said);
    if !untyped {
        return Ok(());
    }
    alphabet::fails_if(
        some_present(delimiters, field),
        Refusal::ValueWithoutType,
        1,
    )
}

// The checks of a row whose type is said, before its repetitions are judged in turn: 31 or 34, then 36, then 35.
#[tactic(auto, unfolding(crate::specs::Rules::opening_check))]
pub fn check_opening(
    delimiters: Delimiters,
    row: Row,
    said: &[u8],
    first: &[u8],
    many: bool,
    field: &[u8],
) -> Result<(), Fault>
    ensures { result ≡ opening_check delimiters.bytes row said.now first.now many
        (split (get_or delimiters.bytes 2 0) field.now) }
{
    let component = row.component;
    let part = judged_part(delimiters, component, first);
    let state = element::state_of(delimiters, part);
    check_sent(row, state, many)?;
    check_said(delimiters, row.kind, said, field)
}

// Whether any bytes pass, so that no repetition has to be looked at.
pub fn is_any(kind: Kind) -> bool
    ensures { result ≡ is_any kind }
{
    matches!(kind, Kind::Any)
}
