// A quick look that tells at once that a field passes what a row asks, as nearly every field does. Its `false` says
// nothing: then the whole judge is asked. No delimiter that is permitted can stand in a number, a time or a value of a
// list, so that a field of such a form is one repetition, its component 1 is the whole, and it is present.
ghost use Rattle.std.specs.Prelude.{◌≡◌, true, false, ◌||◌, List, [], ℕ, ◌≤◌, eqb, length, get_or};
ghost use Rattle.alphabet.specs.Bytes.{byte_of};
ghost use Rattle.alphabet.specs.Answers.{in_order, passes};
ghost use Rattle.alphabet.specs.Parts.{split};
ghost use Rattle.element.specs.States.{blank};
ghost use Rattle.field_table.specs.declared.Kind.TheVariants.{Identifier};
ghost use Rattle.rules.specs.Rules.{form_check, passing, repetition_checks, row_check, is_said};
ghost use Rattle.rules.specs.Plain.{Permitted, Plain};

use crate::checks::{has_form, is_any, kind_said};
use alphabet::Delimiters;
use field_table::{Kind, Row, Values, is_listed};

// Whether bytes have the form of a type whose values are all plain. No row of the table says NM, DT or TM itself.
fn is_plain_form(kind: Kind, bytes: &[u8]) -> bool
    ensures { result ≡ true → Plain bytes.now × (passing (form_check kind bytes.now) ≡ true) }
{
    match kind {
        Kind::Ts => times::is_ts(bytes),
        Kind::Si => numbers::is_si(bytes),
        Kind::OneOf(values) => is_listed(bytes, values),
        _ => false,
    }
}

// Whether a byte at the front of a field leaves it open that the field is null or empty: a quote or a separator.
fn is_open(delimiters: Delimiters, b: u8) -> bool
    ensures { result ≡ (eqb b (byte_of "\"") || blank delimiters.bytes b) }
{
    let bytes = delimiters.bytes;
    (b == b'"') | ((b == bytes[1]) | ((b == bytes[2]) | (b == bytes[4])))
}

// Whether repetition 1 of a field is seen to be present, and others to stand behind it only where they may, by a row that
// says its own type: its repetitions are then left to be judged.
fn is_sent(delimiters: Delimiters, row: Row, field: &[u8]) -> bool
    requires { 1 ≤ length field.now }
    ensures { result ≡ true → is_said row.kind ≡ false
        → in_order (repetition_checks delimiters.bytes 0 row.kind 1 (split (get_or delimiters.bytes 2 0) field.now)) ≡ passes
        → (said : List ℕ) → row_check delimiters.bytes row said (split (get_or delimiters.bytes 2 0) field.now) ≡ passes }
{
    if row.component != 0 {
        return false;
    }
    if is_open(delimiters, field[0]) {
        return false;
    }
    if row.repeats {
        return true;
    }
    let bytes = delimiters.bytes;
    search::find_by_words(field, bytes[2]) == field.len()
}

// The same look for a row that asks for an ID, of which no repetition is longer than the whole.
fn is_plain_identifier(delimiters: Delimiters, row: Row, field: &[u8]) -> bool
    requires { 1 ≤ length field.now }
    ensures { result ≡ true → row.kind ≡ Identifier → (said : List ℕ)
        → row_check delimiters.bytes row said (split (get_or delimiters.bytes 2 0) field.now) ≡ passes }
{
    let most = alphabet::id_limit();
    if most < field.len() {
        return false;
    }
    is_sent(delimiters, row, field)
}

// Whether a field is seen at once to pass what a row asks that says its own type; `false` says nothing.
pub fn is_plain(delimiters: Delimiters, row: Row, field: &[u8]) -> bool
    ensures { result ≡ true → Permitted delimiters.bytes → is_said row.kind ≡ false → (said : List ℕ)
        → row_check delimiters.bytes row said (split (get_or delimiters.bytes 2 0) field.now) ≡ passes }
{
    if field.len() == 0 {
        return !row.required;
    }
    if 1 < row.component {
        return false;
    }
    match row.kind {
        Kind::Any => is_sent(delimiters, row, field),
        Kind::Identifier => is_plain_identifier(delimiters, row, field),
        kind => is_plain_form(kind, field),
    }
}

// The same of a row whose type another field says, with all bytes of that field.
pub fn is_plain_said(row: Row, said: &[u8], field: &[u8]) -> bool
    ensures { result ≡ true → (ds : List ℕ) → Permitted ds → is_said row.kind ≡ true
        → row_check ds row (get_or (split (get_or ds 2 0) said.now) 0 []) (split (get_or ds 2 0) field.now) ≡ passes }
{
    if row.component != 0 {
        return false;
    }
    if !is_listed(said, Values::ValueTypes) {
        return false;
    }
    let kind = kind_said(said);
    if is_any(kind) {
        return !row.required & row.repeats;
    }
    if field.len() == 0 {
        return !row.required;
    }
    has_form(kind, field)
}
