// The search that the test for one body leaves behind, and what is answered after it.
ghost use Rattle.std.specs.Prelude.{◌≡◌, ◌*◌, ◌≤◌, length, take};
ghost use Rattle.listing.specs.Listing.{held, limits};
ghost use Rattle.search_walk.specs.Ready.{Ended};
ghost use Rattle.search.specs.SearchedBy.{told_searched};
ghost use Rattle.body_theory.specs.First.{sups_flag};
ghost use Rattle.body.specs.Body.{whole_search, judged_as};

use listing::{Index, Refusal, Side, limit};
use search::Found;
use search_masks::mask;
use search_store::Full;
use search_walk::walk;
use valid::ClosedCell;

// The flag of first sups, at the beginning of the array: from the minimal element upward, the first sup each time.
#[tactic(auto, using(crate::proofs::FirstSups::firsts))]
fn first_sups(cell: ClosedCell<'_>) -> [Index; limit::RANKS]
    ensures { take (length cell.entry.slices.counts.now) result ≡ sups_flag (held cell.entry.slices) }
{
    let counts = cell.slices.counts;
    let mut flag: [Index; limit::RANKS] = [0; limit::RANKS];
    let mut here: usize = 0;
    // By index: each number comes from the one before.
    for r in 1..counts.len() {
        let sups = cell.slices.side_of(here, flag[r - 1], Side::Sups);
        flag[r] = sups[0];
        here += usize::from(counts[r - 1]);
    }
    flag
}

// The search with every change from the flag of first sups.
#[tactic(auto, using(crate::proofs::FoundAll::whole))]
pub fn search_whole(
    cell: ClosedCell<'_>,
    table: &mut [Index],
    bytes: &mut [u8],
    room: usize,
) -> Result<Found, Full>
    requires room_fits { (room * length cell.slices.counts.now ≤ length table.old) × (room ≤ length bytes.old)
        × (room ≤ limits.flags) }
    ensures { Ended (length cell.entry.slices.counts.now) room table.old bytes.old table.new bytes.new result
        (whole_search (held cell.entry.slices) room) }
{
    let w = cell.slices.counts.len();
    let first = first_sups(cell);
    let every = mask::every(w - 1);
    walk::search_from(cell, &first[..w], every, table, bytes, room)
}

// The answer after that search, of a cell with so many flags in all.
#[tactic(auto, using(crate::proofs::Judged::judging))]
pub fn judged(found: Found, all: u16, room: usize) -> Result<Found, Refusal>
    ensures { told_searched result ≡ judged_as room all found.count found.place }
{
    if room < usize::from(all) {
        return Err(Refusal::MoreFlags);
    }
    if found.count < all {
        return Err(Refusal::SeveralParts);
    }
    Ok(found)
}
