// The types of fields with their forms, in the letters of document 01, and the limits.
ghost use Rattle.std.specs.Prelude.{◌≡◌};
ghost use Rattle.numbers.specs.Numbers.{most_digits};

use field_table::Kind;
use terminal::Output;

// The form of a time: a TS, or what the caller of an acknowledgement hands over.
pub fn print_time_form(out: &mut Output) {
    places::print_lines(
        out,
        b"  ",
        b"TS is a time as YYYY[MM[DD[HHMM[SS[.S to .SSSS]]]]][+/-ZZZZ]
(brackets: may be left out; the day has to exist, hours to 23, ZZZZ to 1459)
",
    );
}

// The form of a date.
fn print_date_form(out: &mut Output) {
    places::print_lines(
        out,
        b"  ",
        b"DT is a date as YYYY[MM[DD]]
(brackets: may be left out; the day has to exist)
",
    );
}

// The form of a time of day.
fn print_clock_form(out: &mut Output) {
    places::print_lines(
        out,
        b"  ",
        b"TM is a time of day as HH[MM[SS[.S to .SSSS]]][+/-ZZZZ]
(brackets: may be left out; hours to 23, ZZZZ to 1459)
",
    );
}

// The form of a number, with the most digits that it may have.
fn print_number_form(out: &mut Output, most: usize)
    requires { most ≡ most_digits }
{
    out.print_counted(
        b"  NM is a number as [+/-]digits[.digits], with 1 to ",
        most,
        b" digits in all",
    );
    out.end_line();
}

// The type that a field is judged by, and its form.
pub fn print_form(out: &mut Output, kind: Kind) {
    match kind {
        Kind::Ts => print_time_form(out),
        Kind::Dt => print_date_form(out),
        Kind::Tm => print_clock_form(out),
        Kind::Si => out.print_line(b"  SI is a number of one to four digits, with no sign"),
        Kind::Nm => print_number_form(out, 18),
        _ => {}
    }
}

// The most that a field may hold, of which it has more: bytes for an ID, digits for a number.
pub fn print_limit(out: &mut Output, kind: Kind, length: usize) {
    match kind {
        Kind::Nm => print_number_form(out, 18),
        _ => {
            out.print_counted(b"  this has ", length, b" bytes, and may have ");
            out.print_number(alphabet::id_limit());
            out.end_line()
        }
    }
}
