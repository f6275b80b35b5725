// What the layout writes: bytes behind those that were written, counted against the room, and put into the buffer where
// the lines are written and not measured alone.
ghost use Rattle.std.specs.Prelude.{◌≡◌, ◌++◌, cond, ◌≤◌, length, replicate};
ghost use Rattle.alphabet.specs.Filling.{put_at};
ghost use Rattle.formatting.specs.Sheet.{blanks};
ghost use Rattle.formatting.specs.Pages.{Sound, spent_of, out_with, new_line, shown_of, Wrote};

use crate::page::Page;

// The page with n bytes more written, where they go into the room.
fn spend(mut page: Page, n: usize, room: usize) -> Page
    requires { page.place ≤ room }
    ensures { result ≡ spent_of n room page }
{
    if room - page.place < n {
        page.short = true;
        return page;
    }
    page.place = page.place + n;
    page
}

// Writes a byte n times into the buffer from `at` on, where there is room for it.
pub fn fill(buffer: &mut [u8], at: usize, n: usize, b: u8)
    ensures { buffer.new ≡ put_at buffer.old at (replicate n b) }
{
    if buffer.len() < at {
        return;
    }
    if buffer.len() - at < n {
        return;
    }
    let mut i = 0;
    while i < n {
        buffer[at + i] = b;
        i += 1;
    }
}

// Writes blanks, bytes and LFs, one behind another, into the buffer from `at` on: all of them, where lines are written
// and there is room, or none.
fn put_line(writes: bool, buffer: &mut [u8], at: usize, indent: usize, line: &[u8], n: usize)
    requires { (at ≤ length buffer.old) × (indent ≤ 200) × (length line.now ≤ 200) × (n ≤ 200) }
    ensures { buffer.new ≡ cond writes (put_at buffer.old at
        (blanks indent ++ (line.now ++ replicate n 10))) buffer.old }
{
    if !writes {
        return;
    }
    if buffer.len() - at < indent + line.len() + n {
        return;
    }
    fill(buffer, at, indent, 32);
    let behind = alphabet::put(buffer, at + indent, line);
    fill(buffer, behind, n, 10);
}

// Writes the line as it is shown, and n LF.
pub fn show_line(page: Page, n: usize, line: &[u8], buffer: &mut [u8]) -> Page
    requires { (Sound page line.now buffer.old) × (n ≤ 200) }
    ensures value { result ≡ out_with result.place result.short page }
    ensures wrote { Wrote (shown_of page line.now ++ replicate n 10) page buffer.old result
        buffer.new }
{
    let indent = page.indent();
    let length = page.line;
    put_line(page.writes, buffer, page.place, indent, &line[..length], n);
    spend(page, indent + length + n, buffer.len())
}

// Writes the line and n LF, and begins another line.
pub fn end_lines(page: Page, n: usize, line: &[u8], buffer: &mut [u8]) -> Page
    requires { (Sound page line.now buffer.old) × (n ≤ 200) }
    ensures value { result ≡ new_line (out_with result.place result.short page) }
    ensures wrote { Wrote (shown_of page line.now ++ replicate n 10) page buffer.old result
        buffer.new }
{
    let shown = show_line(page, n, line, buffer);
    shown.new_line()
}
