// The search for the flags of a cell that changes lead to from a first flag, and for an orientation of them.
#![tactic(auto)]

pub mod crossing;

ghost use Rattle.std.specs.Prelude.{◌≡◌};
ghost use Rattle.listing.specs.Listing.{held, limits};
ghost use Rattle.search.specs.SearchedBy.{searched_by, table_after, bytes_after, told_searched, told_walk};

use flag_change::chain;
use listing::{Answer, Index, Refusal, Slices};
use search_index::row;
use search_masks::mask;
pub use search_store::Found;
use search_store::Full;
use search_walk::walk;

// What a search answers: a refusal or 0; how many flags there are, how many came before the cell showed itself not
// orientable (0 if it never did), and whether it is orientable.
#[repr(C)]
#[derive(Clone, Copy)]
pub struct Searched {
    pub answer: Answer,
    pub count: u16,
    pub place: u16,
    pub orientable: u8,
}

// What is answered after the walk: a refusal where there was no more room.
fn after_walk(walked: Result<Found, Full>) -> Result<Found, Refusal>
    ensures { told_searched result ≡ told_walk walked }
{
    match walked {
        Ok(found) => Ok(found),
        Err(_) => Err(Refusal::MoreFlags),
    }
}

// The flags that the changes of a mask lead to from the first flag, written into the table in the order found, one
// after another, and their orientations into the bytes.
#[tactic(auto, using(crate::proofs::Cases::asked))]
pub fn search(
    slices: Slices<'_>,
    first: &[Index],
    mask: u16,
    table: &mut [Index],
    bytes: &mut [u8],
) -> Result<Found, Refusal>
    ensures value { told_searched result ≡ searched_by limits (held slices.entry) first.now mask table.old bytes.old }
    ensures table_after { table.new ≡ table_after limits (held slices.entry) first.now mask table.old bytes.old }
    ensures bytes_after { bytes.new ≡ bytes_after limits (held slices.entry) first.now mask table.old bytes.old }
{
    let cell = chain::check_flag(slices, first)?;
    let w = slices.counts.len();
    if !mask::fits(mask, w - 1) {
        return Err(Refusal::OutsideRanks);
    }
    let room = row::room_of(table.len(), bytes.len(), w);
    after_walk(walk::search_from(cell, first, mask, table, bytes, room))
}
