// What the entries, and the crates above, call to test a chain of elements and to change it at one rank.
ghost use Rattle.std.specs.Prelude.{◌≡◌, ◌+◌, ◌-◌, ◌≤◌, ◌<◌, length, IfOk};
ghost use Rattle.order.specs.Lists.{Ascending};
ghost use Rattle.listing.specs.Listing.{held, limits, before};
ghost use Rattle.listing.specs.Told.{told};
ghost use Rattle.valid.specs.Ascent.{Ascends};
ghost use Rattle.flag_change.specs.Flags.{flag_at, flag_test, start_test};
ghost use Rattle.flag_change.specs.Change.{common, other, replaced_at, padded, Flanked};

use listing::{Cell, Index, Refusal, Side, Slices, limit};
use listing_membership::members;
use valid::ClosedCell;

// What a change replaces: the index that it takes out of a flag, and the one that it puts in.
#[derive(Clone, Copy)]
pub struct Replaced {
    pub taken: Index,
    pub put: Index,
}

// Whether an index that exists stands in the flag at rank r, which begins at place here, and over what stands below it.
#[tactic(auto, using(listing::proofs::InCell::places, crate::proofs::FlagExact::flag_answers))]
fn stands_at(cell: Cell<'_>, flag: &[Index], here: usize, r: usize) -> bool
    requires here_value { (here ≡ before cell.slices.counts.now r) × (r < length cell.slices.counts.now) }
    requires flag_len { length flag.now ≡ length cell.slices.counts.now }
    ensures { result ≡ flag_at (held cell.entry.slices) flag.now r }
{
    let x = flag[r];
    if cell.slices.counts[r] <= x {
        return false;
    }
    if r == 0 {
        return true;
    }
    members::contains(cell.side_of(here, x, Side::Subs), flag[r - 1])
}

// Whether the numbers are a flag: one existing index per rank, each a sub of the next.
#[tactic(auto, using(crate::proofs::FlagExact::flag_walk), unfolding(order::specs::Tests::every))]
pub fn is_flag(cell: Cell<'_>, flag: &[Index]) -> bool
    ensures { result ≡ flag_test (held cell.entry.slices) flag.now }
{
    let counts = cell.slices.counts;
    if flag.len() != counts.len() {
        return false;
    }
    let mut here: usize = 0;
    for (r, &size) in counts.iter().enumerate() {
        if !stands_at(cell, flag, here, r) {
            return false;
        }
        here += usize::from(size);
    }
    true
}

// What a change or a search asks before all else: the closed test, and that the numbers are a flag.
#[tactic(auto, using(listing::proofs::Told::steps), unfolding(crate::specs::Flags::start_test))]
pub fn check_flag<'a>(slices: Slices<'a>, flag: &[Index]) -> Result<ClosedCell<'a>, Refusal>
    ensures value { told result ≡ start_test limits (held slices.entry) flag.now }
    ensures same { IfOk result (λ closed. closed.slices ≡ slices.entry) }
{
    let closed = valid::closed(slices)?;
    if !is_flag(closed.cell(), flag) {
        return Err(Refusal::NotAFlag);
    }
    Ok(closed)
}

// The first number of one list that another, ascending one holds too and that is not e; 0 where there is none, as
// `other` of the definitions says.
fn other_among(short: &[Index], long: &[Index], e: Index) -> Index
    requires { Ascending long.now }
    ensures { result ≡ other e (common short.now long.now) }
{
    short
        .iter()
        .copied()
        .find(|&x| x != e && members::ascending_contains(long, x))
        .unwrap_or(0)
}

// The first number that two ascending lists share and that is not e; 0 where there is none. The shorter list is walked:
// the other may be an end's, with thousands of numbers.
#[tactic(auto, using(crate::proofs::Common::common_swap))]
fn other_between(below: &[Index], above: &[Index], e: Index) -> Index
    requires ascending { Ascending below.now }
    requires ascending_2 { Ascending above.now }
    ensures { result ≡ other e (common below.now above.now) }
{
    if below.len() <= above.len() {
        return other_among(below, above, e);
    }
    other_among(above, below, e)
}

// What the change at rank r replaces: the flag's own element there, and the other of the two between those at the ranks
// r - 1, which begins at place low, and r + 1, which begins at place high. In line: a search calls it for each change,
// and to pass the cell by value it is copied.
#[inline(always)]
#[tactic(auto, using(crate::proofs::Neighbours::neighbours))]
pub fn replaced_at(cell: Cell<'_>, flag: &[Index], r: usize, low: usize, high: usize) -> Replaced
    requires ascends { Ascends (held cell.slices) }
    requires low_value { (low ≡ before cell.slices.counts.now (r - 1))
        × (high ≡ before cell.slices.counts.now (r + 1)) }
    requires flanked { Flanked (held cell.slices) flag.now r }
    ensures { result ≡ replaced_at (held cell.entry.slices) r flag.now }
{
    let below = cell.slices.side_of(low, flag[r - 1], Side::Sups);
    let above = cell.slices.side_of(high, flag[r + 1], Side::Subs);
    let taken = flag[r];
    let put = other_between(below, above, taken);
    Replaced { taken, put }
}

// A flag in room for the most ranks, 0 above the top.
pub fn pad(flag: &[Index]) -> [Index; limit::RANKS]
    requires { length flag.now ≤ limits.ranks }
    ensures { result ≡ padded flag.now }
{
    let mut a: [Index; limit::RANKS] = [0; limit::RANKS];
    a[..flag.len()].copy_from_slice(flag);
    a
}
