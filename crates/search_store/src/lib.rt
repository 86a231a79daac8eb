// What a search has found: flags in a table, in the order found, their bytes, and where each flag stands.
#![tactic(auto)]

pub mod meeting;

use listing::Index;
use search_index::index::Chains;

// What a search has found: how many flags, and how many there were when the cell showed itself not orientable, 0 while
// it has not: no `Option`, since the definitions of the search, which the promises speak of, have 0 there.
#[derive(Clone, Copy)]
pub struct Found {
    pub count: u16,
    pub place: u16,
}

// One flag more turned up than there is room for: what had been found by then.
#[derive(Clone, Copy)]
pub struct Full {
    pub found: Found,
}

// Where the flags found are kept: a table of rows, a byte for each, and the chains by which a flag is looked up; and
// how many there is room for.
#[derive(Drop)]
pub struct Store<'a> {
    pub table: &'a mut [Index],
    pub bytes: &'a mut [u8],
    pub chains: Chains,
    pub room: usize,
}
