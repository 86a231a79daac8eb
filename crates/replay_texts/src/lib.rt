// Questions on texts, read from their lines and put to the library; the answers are printed, and returned is only
// whether they could be.
#![tactic(auto)]

pub mod quoted;

use listing::{Answer, Built, Index, Slices};
use replay_reading::text as reading;
use replay_saying::{room, say};
use std::io;
use text::Written;

// The listing that a text says, and what is then in the slices lent, one by one as `read_text` takes them.
fn read_into(
    rt: &impl Print,
    said: &[u8],
    counts: &mut [Index],
    ends: &mut [Index],
    inc: &mut [Index],
) -> io::Result<()> {
    let read = text::read_text(said, &mut *counts, &mut *ends, &mut *inc);
    say::built(rt, Built::from(read))?;
    say::lists(rt, Slices { counts, ends, inc })
}

// The same with room of the lengths that the line asks for, as far as there is so much.
fn read(rt: &impl Print, line: &[u8], said: &[u8]) -> io::Result<()> {
    room::for_listing(
        reading::plain(line, 0),
        reading::plain(line, 1),
        reading::plain(line, 2),
        |counts, ends, inc| read_into(rt, said, counts, ends, inc),
    )
}

// The listing that the text of a line says.
pub fn read_text(rt: &impl Print, line: &[u8]) -> io::Result<()> {
    let mut bytes = room::text();
    let n = quoted::put_text(line, &mut bytes);
    read(rt, line, &bytes[..n])
}

// Whether it is closed.
pub fn check_text(rt: &impl Print, line: &[u8]) -> io::Result<()> {
    let mut bytes = room::text();
    let n = quoted::put_text(line, &mut bytes);
    let checked = Answer::from(text::check_text(&bytes[..n]));
    say::number(rt, u64::from(checked.no))
}

// The text of a listing, and what is then in the slice lent.
fn write_into(rt: &impl Print, slices: Slices<'_>, bytes: &mut [u8]) -> io::Result<()> {
    let w = Written::from(text::write_text(slices, &mut *bytes));
    say::answer(rt, w.answer)?;
    say::number(rt, w.length as u64)?;
    say::bytes(rt, bytes)
}

// The same with room of a length, as far as there is so much.
pub fn write(rt: &impl Print, slices: Slices<'_>, length: u64) -> io::Result<()> {
    let mut bytes = room::written();
    let n = room::within(length, &bytes);
    write_into(rt, slices, &mut bytes[..n])
}

// The text of a listing, with room of the length that the line asks for.
pub fn write_text(rt: &impl Print, line: &[u8], slices: Slices<'_>) -> io::Result<()> {
    write(rt, slices, u64::from(reading::plain(line, 0)))
}
