// Questions on whether a cell is one body.
use crate::flags;
use listing::{Index, Slices};
use replay_reading::text;
use replay_saying::{room, say};
use search::Searched;
use std::io;

// The test, and what it left in the slices lent.
fn one_body_in(
    rt: &impl Print,
    slices: Slices<'_>,
    table: &mut [Index],
    odd: &mut [u8],
) -> io::Result<()> {
    let found = body::one_body(slices, &mut *table, &mut *odd);
    flags::searched(rt, Searched::from(found))?;
    say::list(rt, table)?;
    say::bytes(rt, odd)
}

// The test with the room that the line asks for, as far as there is so much.
pub fn one_body(rt: &impl Print, line: &[u8], slices: Slices<'_>) -> io::Result<()> {
    room::for_search(text::plain(line, 0), text::plain(line, 1), |table, odd| {
        one_body_in(rt, slices, table, odd)
    })
}
