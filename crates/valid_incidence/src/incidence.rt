// Test 2, on a listing that is known to be shaped.
ghost use Rattle.std.specs.Prelude.{◌≡◌, ◌∷◌, ◌<◌, length, get_or, IfOk};
ghost use Rattle.listing.specs.Answers.{first_of};
ghost use Rattle.listing.specs.Listing.{width, held, limits, before};
ghost use Rattle.listing.specs.Told.{told};
ghost use Rattle.valid_incidence.specs.Incidence.{element_test, incidences_test};
ghost use Rattle.valid_incidence.specs.Ways.{down, up, WayFits, entry_test, along_test, list_test};

use crate::MatchedCell;
use listing::{Cell, Element, Index, Refusal, Side, reading};
use listing_membership::members;

// Where the entries of a list lead.
#[derive(Clone, Copy)]
pub struct Way {
    // which list it is
    pub side: Side,
    // how many elements they may name
    pub size: Index,
    // the place where those begin
    pub place: usize,
    // whether the list must hold anything: a yes or no beside numbers that are there either way
    pub asked: bool,
}

// One entry x of a list of an element.
#[tactic(auto, using(crate::proofs::Entries::entry))]
fn check_entry(cell: Cell<'_>, way: Way, of: Element, x: Index) -> Result<(), Refusal>
    requires { WayFits cell.slices.ends.now way }
    ensures { told result ≡ entry_test cell.entry.slices.ends.now cell.entry.slices.inc.now way of.rank of.index x }
{
    let side = way.side;
    if way.size <= x {
        return Err(Refusal::Missing { of, side, entry: x });
    }
    if !members::contains(cell.side_of(way.place, x, side.other()), of.index) {
        return Err(Refusal::NotBack { of, side, entry: x });
    }
    Ok(())
}

// The entries of a list in their order.
#[tactic(auto, using(listing::proofs::Told::along), unfolding(crate::specs::Ways::along_test))]
fn check_along(cell: Cell<'_>, way: Way, of: Element, list: &[Index]) -> Result<(), Refusal>
    requires { WayFits cell.slices.ends.now way }
    ensures { told result ≡ along_test cell.entry.slices.ends.now cell.entry.slices.inc.now way of.rank of.index
        list.now }
{
    for &x in list {
        check_entry(cell, way, of, x)?;
    }
    Ok(())
}

// A list: whether it may hold nothing, and then its entries.
#[tactic(auto, using(crate::proofs::Entries::lists))]
fn check_list(cell: Cell<'_>, way: Way, of: Element, list: &[Index]) -> Result<(), Refusal>
    requires { WayFits cell.slices.ends.now way }
    ensures { told result ≡ list_test cell.entry.slices.ends.now cell.entry.slices.inc.now way of.rank of.index
        list.now }
{
    if way.asked && list.is_empty() {
        return Err(Refusal::Bare { of, side: way.side });
    }
    check_along(cell, way, of, list)
}

// The number of elements of the rank below: none below rank 0.
fn below_at(counts: &[Index], r: usize) -> Index
    ensures { result ≡ get_or (0 ∷ counts.now) r 0 }
{
    if r == 0 {
        return 0;
    }
    reading::count_at(counts, r - 1)
}

// The way down from rank r, which begins at place here.
#[tactic(auto, using(listing::proofs::Listing::before_last))]
fn way_down(cell: Cell<'_>, here: usize, r: usize) -> Way
    requires { here ≡ before cell.slices.counts.now r }
    ensures { result ≡ down (held cell.entry.slices) r }
{
    let below = below_at(cell.slices.counts, r);
    Way {
        side: Side::Subs,
        size: below,
        place: here - usize::from(below),
        asked: 0 < r,
    }
}

// The way up from rank r, which begins at place here.
#[tactic(auto, using(listing::proofs::Listing::before_next))]
fn way_up(cell: Cell<'_>, here: usize, r: usize) -> Way
    requires here_value { here ≡ before cell.slices.counts.now r }
    requires r_in_bounds { (r < length cell.slices.counts.now) × (here < width) }
    ensures { result ≡ up (held cell.entry.slices) r }
{
    let counts = cell.slices.counts;
    Way {
        side: Side::Sups,
        size: reading::count_at(counts, r + 1),
        place: here + usize::from(counts[r]),
        asked: r < counts.len() - 1,
    }
}

// Element i of rank r, which begins at place here: its subs, then its sups.
fn check_element(cell: Cell<'_>, here: usize, r: usize, i: Index) -> Result<(), Refusal>
    requires { (here ≡ before cell.slices.counts.now r) × (i < get_or cell.slices.counts.now r 0) }
    ensures { told result ≡ element_test (held cell.entry.slices) r i }
{
    let of = Element {
        rank: r as Index,
        index: i,
    };
    let subs = cell.side_of(here, i, Side::Subs);
    check_list(cell, way_down(cell, here, r), of, subs)?;
    let sups = cell.side_of(here, i, Side::Sups);
    check_list(cell, way_up(cell, here, r), of, sups)
}

// The elements of rank r, which begins at place here.
#[tactic(auto, using(listing::proofs::Told::among))]
fn check_rank(cell: Cell<'_>, here: usize, r: usize) -> Result<(), Refusal>
    requires { (here ≡ before cell.slices.counts.now r) × (r < length cell.slices.counts.now) }
    ensures { told result ≡ first_of (element_test (held cell.entry.slices) r) 0
        (get_or cell.entry.slices.counts.now r 0) }
{
    for i in 0..cell.slices.counts[r] {
        check_element(cell, here, r, i)?;
    }
    Ok(())
}

// All elements, by rank and then index.
#[tactic(auto, using(crate::proofs::Turns::all), unfolding(crate::specs::Incidence::incidences_test))]
pub fn check_all(cell: Cell<'_>) -> Result<MatchedCell<'_>, Refusal>
    ensures value { told result ≡ incidences_test (held cell.entry.slices) }
    ensures same { IfOk result (λ matched. matched.slices ≡ cell.entry.slices) }
{
    let slices = cell.slices;
    let mut here: usize = 0;
    for (r, &count) in slices.counts.iter().enumerate() {
        check_rank(cell, here, r)?;
        here += usize::from(count);
    }
    Ok(MatchedCell { slices })
}
