// The search on a closed cell: flags are kept in the table in the order found, and worked in that order.
ghost use Rattle.std.specs.Prelude.{◌≡◌, List, ℕ, ◌-◌, ◌*◌, ◌≤◌, ◌<◌, length, get_or};
ghost use Rattle.listing.specs.Listing.{held, limits, rank};
ghost use Rattle.flag_change.specs.Flags.{IsFlag};
ghost use Rattle.flag_change.specs.Change.{change_at};
ghost use Rattle.search_theory.specs.Search.{meet as meet_in, meet_all, run as run_in};
ghost use Rattle.search_index.specs.Rows.{row_of, same_list};
ghost use Rattle.search_store.specs.Held.{state_in, Held, Moved};
ghost use Rattle.search_masks.specs.Masks.{InnerRanks};
ghost use Rattle.search_walk.specs.Searched.{mask_changes, found_by};
ghost use Rattle.search_walk.specs.Ready.{nothing, Ended, Places, Ready, Walks, AtHand};

use crate::Ranks;
use flag::parity;
use flag_change::chain;
use listing::{Index, limit};
use search_index::index::{self, Chains};
use search_masks::mask;
use search_store::{Found, Full, Store};
use valid::ClosedCell;

// The places where the ranks begin.
fn places_of(counts: &[Index]) -> [usize; limit::RANKS]
    requires { length counts.now ≤ limits.ranks }
    ensures { Places counts.now result }
{
    let mut places = [0usize; limit::RANKS];
    let mut here: usize = 0;
    for (r, &count) in counts.iter().enumerate() {
        places[r] = here;
        here += usize::from(count);
    }
    places
}

// The change at rank r of the flag at hand, of which sum is the sum, is met; then the flag at hand is as it was.
#[tactic(auto, using(crate::proofs::AtHand::hand, valid::proofs::InClosed::ascends))]
fn try_next(
    cell: ClosedCell<'_>,
    ranks: &Ranks,
    store: &mut Store<'_>,
    flag: &mut [Index],
    sum: usize,
    r: u16,
    byte: u8,
    s: Found,
) -> Result<Found, Full>
    requires ready { Ready (held cell.slices) ranks.now }
    requires at_hand { AtHand (held cell.slices) flag.old sum }
    requires r_inside { (0 < r) × (r < rank (held cell.slices)) }
    requires held { Held (length cell.slices.counts.now) store.old s.count }
    ensures flag_unchanged { flag.new ≡ flag.old }
    ensures moved { Moved (length cell.entry.slices.counts.now) store.old s store.new result
        (meet_in same_list store.old.room byte (state_in (length cell.entry.slices.counts.now) store.old s)
        (change_at (held cell.entry.slices) r flag.old)) }
{
    let at = usize::from(r);
    let p = chain::replaced_at(
        cell.cell(),
        &*flag,
        at,
        ranks.places[at - 1],
        ranks.places[at + 1],
    );
    let h = index::hash_changed(sum, ranks.weights[at], p.taken, p.put);
    flag[at] = p.put;
    let met = store.meet(&*flag, h, byte, s);
    flag[at] = p.taken;
    met
}

// The changes of flag k that the mask asks for are met, from the lowest rank upward.
#[tactic(auto, using(crate::proofs::AtHand::few))]
fn work(
    cell: ClosedCell<'_>,
    ranks: &Ranks,
    store: &mut Store<'_>,
    mask: u16,
    k: u16,
    start: Found,
) -> Result<Found, Full>
    requires walks { Walks (held cell.slices) ranks.now mask store.old start.count }
    requires k_lt_count { k < start.count }
    ensures { Moved (length cell.entry.slices.counts.now) store.old start store.new result
        (meet_all same_list store.old.room (1 - get_or store.old.bytes.now k 0)
        (state_in (length cell.entry.slices.counts.now) store.old start)
        (mask_changes (held cell.entry.slices) mask
        (row_of (length cell.entry.slices.counts.now) store.old.table.now k))) }
{
    let at = usize::from(k);
    let mut numbers: [Index; limit::RANKS] = [0; limit::RANKS];
    let flag = &mut numbers[..cell.slices.counts.len()];
    store.get_row(at, flag);
    let sum = index::sum_of(&*flag, &ranks.weights);
    let byte = parity::flipped(store.bytes[at]);
    let mut left = mask;
    let mut s = start;
    // No `for`: the ranks are the ones of the mask, and each step takes the lowest out, as DECISIONS 45 has it.
    while mask::any_left(left) {
        let r = mask::lowest(left);
        left = mask::without(left, r);
        s = try_next(cell, ranks, store, flag, sum, r, byte, s)?;
    }
    Ok(s)
}

// The flags are worked in the order found, until none is left or one more turns up than there is room for.
fn run(
    cell: ClosedCell<'_>,
    ranks: &Ranks,
    store: &mut Store<'_>,
    mask: u16,
    start: Found,
) -> Result<Found, Full>
    requires { Walks (held cell.slices) ranks.now mask store.old start.count }
    ensures { (a : List ℕ) → Moved (length cell.entry.slices.counts.now) store.old start store.new result
        (run_in same_list store.old.room (mask_changes (held cell.entry.slices) mask) a 0
        (state_in (length cell.entry.slices.counts.now) store.old start)) }
{
    let mut s = start;
    let mut k: u16 = 0;
    // No `for` over a range: the flags that are found on the way are worked too, so the end moves as the loop goes on.
    while k < s.count {
        s = work(cell, ranks, store, mask, k, s)?;
        k += 1;
    }
    Ok(s)
}

// The search from the first flag, into a store in which nothing is found yet.
#[tactic(auto, using(valid::proofs::InClosed::is_closed))]
fn search_in(
    cell: ClosedCell<'_>,
    ranks: &Ranks,
    store: &mut Store<'_>,
    first: &[Index],
    mask: u16,
) -> Result<Found, Full>
    requires ready { Ready (held cell.slices) ranks.now }
    requires held { Held (length cell.slices.counts.now) store.old 0 }
    requires flag { IsFlag (held cell.slices) first.now }
    requires inner_ranks { InnerRanks (rank (held cell.slices)) mask }
    ensures { Moved (length cell.entry.slices.counts.now) store.old nothing store.new result
        (found_by (held cell.entry.slices) first.now mask store.old.room) }
{
    let h = index::sum_of(first, &ranks.weights) % index::HASHES;
    let nothing = Found { count: 0, place: 0 };
    let s = store.meet(first, h, 0, nothing)?;
    run(cell, ranks, store, mask, s)
}

// The search from the first flag, with room for so many.
#[tactic(auto, using(crate::proofs::AtHand::few))]
pub fn search_from(
    cell: ClosedCell<'_>,
    first: &[Index],
    mask: u16,
    table: &mut [Index],
    bytes: &mut [u8],
    room: usize,
) -> Result<Found, Full>
    requires flag { IsFlag (held cell.slices) first.now }
    requires inner_ranks { InnerRanks (rank (held cell.slices)) mask }
    requires room_fits { (room * length cell.slices.counts.now ≤ length table.old) × (room ≤ length bytes.old)
        × (room ≤ limits.flags) }
    ensures { Ended (length cell.entry.slices.counts.now) room table.old bytes.old table.new bytes.new result
        (found_by (held cell.entry.slices) first.now mask room) }
{
    let ranks = Ranks {
        places: places_of(cell.slices.counts),
        weights: index::weights(),
    };
    let mut store = Store {
        table,
        bytes,
        chains: Chains {
            heads: [0; index::HASHES],
            next: [0; limit::FLAGS],
        },
        room,
    };
    search_in(cell, &ranks, &mut store, first, mask)
}
