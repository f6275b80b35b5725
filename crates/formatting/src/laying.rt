// From a text to its page: one walk along it, by runs of plain bytes and by sequences. The whole text is walked even
// where something cannot be laid, since a fault of the text comes first.
ghost use Rattle.std.specs.Prelude.{◌≡◌, true, ◌||◌};
ghost use Rattle.alphabet.specs.Answers.{fails};
ghost use Rattle.text.specs.Unescape.{known};
ghost use Rattle.format_commands.specs.Commands.{order_of, command, held_order};
ghost use Rattle.format_commands.specs.Items.{saying};
ghost use Rattle.formatting.specs.Pages.{Sound, Follows};
ghost use Rattle.formatting.specs.Laying.{Lays, wrong_plain};

use crate::bytes::{take_meaning, take_run};
use crate::orders::take_order;
use crate::page::Page;
use alphabet::{Delimiters, Fault, Refusal};
use format_commands::{Order, order_of};
use plain::plain_run;
use text::is_known;

// Whether what stands between two escape delimiters is a command, or says bytes.
fn is_sequence(inside: &[u8], asked: Option<Order>) -> bool
    requires { asked ≡ held_order (order_of inside.now) }
    ensures { result ≡ (command inside.now || known inside.now) }
{
    asked.is_some() || is_known(inside)
}

// A sequence: a command, or the bytes that it says.
fn take_sequence(
    page: Page,
    line: &mut [u8],
    buffer: &mut [u8],
    delimiters: Delimiters,
    inside: &[u8],
    asked: Option<Order>,
) -> Page
    requires { (Sound page line.old buffer.old) × (asked ≡ held_order (order_of inside.now))
        × ((command inside.now || known inside.now) ≡ true) }
    ensures { Follows (saying delimiters.bytes inside.now) page line.old
        buffer.old result line.new buffer.new }
{
    match asked {
        Some(order) => take_order(order, page, line, buffer),
        None => take_meaning(page, line, buffer, delimiters, inside),
    }
}

// What is wrong with a byte that neither opens a sequence nor stands plainly.
fn wrong_plain(b: u8) -> Refusal
    ensures { result ≡ wrong_plain b }
{
    if alphabet::is_printable(b) {
        return Refusal::Separator;
    }
    Refusal::NotAllowed
}

// A fault of the text, which ends the walk.
fn fault(kind: Refusal, place: usize) -> Result<Page, Fault>
    ensures { result ≡ fails kind place }
{
    Err(Fault { kind, place })
}

// Lays a text on a page. The page of a text that has a fault is of no use. By index: a fault is told with its place,
// and how far a turn goes is known only in it.
pub fn lay(
    page: Page,
    line: &mut [u8],
    buffer: &mut [u8],
    delimiters: Delimiters,
    text: &[u8],
) -> Result<Page, Fault>
    requires { Sound page line.old buffer.old }
    ensures { Lays delimiters.bytes text.now page line.old buffer.old result
        line.new buffer.new }
{
    let five = delimiters.bytes;
    let mark = five[3];
    let mut p = page;
    let mut i = 0;
    while i < text.len() {
        if text[i] == mark {
            let from = i + 1;
            let rest = &text[from..];
            let n = alphabet::find(rest, mark);
            if rest.len() <= n {
                return fault(Refusal::UnclosedEscape, i);
            }
            let asked = order_of(&rest[..n]);
            if !is_sequence(&rest[..n], asked) {
                return fault(Refusal::UnknownEscape, i);
            }
            p = take_sequence(p, line, buffer, delimiters, &rest[..n], asked);
            i = from + n + 1;
        } else {
            let end = i + plain_run(delimiters, &text[i..]);
            if end == i {
                return fault(wrong_plain(text[i]), i);
            }
            p = take_run(p, line, buffer, &text[i..end]);
            i = end;
        }
    }
    Ok(p)
}
