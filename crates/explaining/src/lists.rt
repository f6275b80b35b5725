// The lists of values. The words that are printed are those of the table: `print_list` takes no others.
ghost use Rattle.std.specs.Prelude.{◌≡◌};
ghost use Rattle.alphabet.specs.Parts.{split};
ghost use Rattle.field_table.specs.Table.{values_of};

use field_table::{Kind, Values};
use terminal::Output;

// Prints the words of a text, which stand between its spaces, and ends the line. Each stands behind a comma where it is
// not the first.
pub fn print_words(out: &mut Output, text: &[u8]) {
    for (i, word) in text.split(|byte| *byte == b' ').enumerate() {
        if i != 0 {
            out.print(b", ");
        }
        out.print(word);
    }
    out.end_line();
}

// Prints the values of a list, handed in as a text: its words have to be the values.
fn print_list(out: &mut Output, values: Values, text: &[u8])
    requires { split 32 text.now ≡ values_of values }
{
    out.print(b"  its list: ");
    print_words(out, text);
}

// The values of each list.
fn print_values(out: &mut Output, values: Values) {
    match values {
        Values::Processing => print_list(out, Values::Processing, b"D P T"),
        Values::Version => print_list(out, Values::Version, b"2.4"),
        Values::Sex => print_list(out, Values::Sex, b"M F O U"),
        Values::ValueTypes => print_list(
            out,
            Values::ValueTypes,
            b"CE DT ED FT NM RP SN ST TM TS TX",
        ),
        Values::Statuses => print_list(out, Values::Statuses, b"C D F I N O P R S U W X"),
        Values::Codes => print_list(out, Values::Codes, b"AA AE AR"),
    }
}

// The list that a field is judged by, where it is judged by one.
pub fn print_list_of(out: &mut Output, kind: Kind) {
    if let Kind::OneOf(values) = kind {
        print_values(out, values);
    }
}
