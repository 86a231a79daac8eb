// A row of the table: what the tests say of one cell.
use crate::table;
use crate::table::Name;
use listing::{Index, Refusal, Slices, limit};
use search::Found;
use std::io;

// So many flags there is room for: more than any cell of the tour has.
const FLAGS: usize = 256;

// Whether a cell is closed and one body, and then its flags, by all changes.
fn one_body(slices: Slices<'_>) -> Result<Found, Refusal> {
    let mut table: [Index; limit::RANKS * FLAGS] = [0; limit::RANKS * FLAGS];
    let mut bytes = [0u8; FLAGS];
    body::one_body(slices, &mut table, &mut bytes)
}

// A cell, by its name.
pub fn show(rt: &impl Print, name: Name, slices: Slices<'_>) -> io::Result<()> {
    let valid = valid::is_valid(slices);
    let body = one_body(slices);
    table::row(rt, name, slices.counts, valid.is_ok(), body)
}
