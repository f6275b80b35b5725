// What a command does to the page, behind the word that it ends.
ghost use Rattle.std.specs.Prelude.{◌≡◌, true, ◌≤◌, Some};
ghost use Rattle.format_commands.specs.declared.orders.Order.TheVariants.{Centre, Down, Across, Margin, Once};
ghost use Rattle.formatting.specs.Sheet.{laid, down, natural, fits, moved, quiet, obey as Sheet·obey};
ghost use Rattle.formatting.specs.Pages.{Sound, Acts, Obeys, filling, spoiling};

use crate::page::{Page, WIDTH};
use crate::writing::end_lines;
use format_commands::{Amount, Order};

// The page of which something could not be laid.
fn spoil(mut page: Page) -> Page
    ensures { result ≡ spoiling page }
{
    page.unfit = true;
    page
}

// Whether a number is one that counts lines or blanks.
fn is_natural(a: Amount) -> bool
    ensures { result ≡ natural a }
{
    (a.size <= WIDTH) & !(a.minus & (0 < a.size))
}

// Whether the margin may be moved by a number.
fn is_fit(margin: usize, a: Amount) -> bool
    requires { margin ≤ 200 }
    ensures { result ≡ fits margin a }
{
    if WIDTH < a.size {
        return false;
    }
    (a.minus & (a.size <= margin)) | (!a.minus & (margin + a.size <= WIDTH))
}

// The margin moved by a number that fits.
fn moved_by(margin: usize, a: Amount) -> usize
    requires { fits margin a ≡ true }
    ensures { result ≡ moved margin a }
{
    if a.minus {
        return margin - a.size;
    }
    margin + a.size
}

// The line is ended, and n - 1 empty lines with it; the next begins at the same column.
fn go_down(page: Page, n: usize, line: &[u8], buffer: &mut [u8]) -> Page
    requires { (Sound page line.now buffer.old) × (page.word ≡ 0) × (n ≤ 200) }
    ensures { Acts (λ s. laid (down n s)) page line.now buffer.old result line.now
        buffer.new }
{
    if n == 0 {
        return page;
    }
    let position = page.position();
    let mut ended = end_lines(page, n, line, buffer);
    ended.left = position;
    ended
}

// `.sp`: lines down.
fn space_down(page: Page, a: Amount, line: &[u8], buffer: &mut [u8]) -> Page
    requires { (Sound page line.now buffer.old) × (page.word ≡ 0) }
    ensures { Acts (Sheet·obey (Some (Down a))) page line.now buffer.old result line.now
        buffer.new }
{
    if !is_natural(a) {
        return spoil(page);
    }
    go_down(page, a.size, line, buffer)
}

// `.sk`: blanks to the right.
fn skip(page: Page, a: Amount, line: &[u8], buffer: &[u8]) -> Page
    requires { (Sound page line.now buffer.now) × (page.word ≡ 0) }
    ensures { Acts (Sheet·obey (Some (Across a))) page line.now buffer.now result line.now
        buffer.now }
{
    if !is_natural(a) {
        return spoil(page);
    }
    page.owe(a.size)
}

// `.in`: the margin of this line, where it is empty, and of those behind it.
fn indent(mut page: Page, a: Amount, line: &[u8], buffer: &[u8]) -> Page
    requires { (Sound page line.now buffer.now) × (page.word ≡ 0) }
    ensures { Acts (Sheet·obey (Some (Margin a))) page line.now buffer.now result line.now
        buffer.now }
{
    if !is_fit(page.margin, a) {
        return spoil(page);
    }
    let margin = moved_by(page.margin, a);
    page.margin = margin;
    page.left = margin;
    page
}

// `.ti`: where this line begins, if it is empty.
fn indent_once(mut page: Page, a: Amount, line: &[u8], buffer: &[u8]) -> Page
    requires { (Sound page line.now buffer.now) × (page.word ≡ 0) }
    ensures { Acts (Sheet·obey (Some (Once a))) page line.now buffer.now result line.now
        buffer.now }
{
    if !is_fit(page.margin, a) {
        return spoil(page);
    }
    let left = moved_by(page.margin, a);
    page.left = left;
    page
}

// `.fi` and `.nf`: lines are filled from here on, or not.
fn set_fill(mut page: Page, fill: bool) -> Page
    ensures { result ≡ filling fill page }
{
    page.fill = fill;
    page
}

// `.ce`: the line is ended, and the next one is centred.
fn centre_next(page: Page, line: &[u8], buffer: &mut [u8]) -> Page
    requires { (Sound page line.now buffer.old) × (page.word ≡ 0) }
    ensures { Acts (Sheet·obey (Some Centre)) page line.now buffer.old result line.now
        buffer.new }
{
    let mut ended = end_lines(page, 1, line, buffer);
    ended.centre = true;
    ended
}

// What a command does behind its word.
fn obey(asked: Order, page: Page, line: &[u8], buffer: &mut [u8]) -> Page
    requires { (Sound page line.now buffer.old) × (page.word ≡ 0) }
    ensures { Acts (Sheet·obey (Some asked)) page line.now buffer.old result line.now
        buffer.new }
{
    match asked {
        Order::Highlight => page,
        Order::Break => end_lines(page, 1, line, buffer),
        Order::Centre => centre_next(page, line, buffer),
        Order::Fill => set_fill(page, true),
        Order::Unfill => set_fill(page, false),
        Order::Down(a) => space_down(page, a, line, buffer),
        Order::Across(a) => skip(page, a, line, buffer),
        Order::Margin(a) => indent(page, a, line, buffer),
        Order::Once(a) => indent_once(page, a, line, buffer),
    }
}

// Whether an order leaves no trace.
fn is_quiet(asked: Order) -> bool
    ensures { result ≡ quiet (Some asked) }
{
    matches!(asked, Order::Highlight)
}

// A command: it ends the word, and acts; a highlight does neither.
pub fn take_order(asked: Order, page: Page, line: &[u8], buffer: &mut [u8]) -> Page
    requires { Sound page line.now buffer.old }
    ensures { Obeys asked page line.now buffer.old result line.now
        buffer.new }
{
    if is_quiet(asked) {
        return page;
    }
    obey(asked, page.close_word(), line, buffer)
}
