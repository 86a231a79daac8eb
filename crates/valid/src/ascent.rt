// The ascent test, 19, of a cell.
ghost use Rattle.std.specs.Prelude.{◌≡◌, ◌<◌, length, get_or};
ghost use Rattle.listing.specs.Answers.{first_of};
ghost use Rattle.listing.specs.Listing.{held, before};
ghost use Rattle.listing.specs.Told.{side_no, told};
ghost use Rattle.valid.specs.Ascent.{climbs as climbs_from, side_ascent, element_ascent, ascent_test};

use listing::{Cell, Element, Index, Refusal, Side};

// Whether a list strictly ascends: each number is at least `from`, which is one more than the number before it.
#[tactic(auto, using(crate::proofs::AscentExact::climbing))]
fn climbs(list: &[Index]) -> bool
    ensures { result ≡ climbs_from 0 list.now }
{
    let mut from: usize = 0;
    for &number in list {
        let x = usize::from(number);
        if x < from {
            return false;
        }
        from = x + 1;
    }
    true
}

// The list at a side of an element, whose rank begins at place here.
#[tactic(auto, using(listing::proofs::InCell::places, crate::proofs::AscentExact::sides))]
fn check_side(cell: Cell<'_>, here: usize, of: Element, side: Side) -> Result<(), Refusal>
    requires { (here ≡ before cell.slices.counts.now of.rank)
        × (of.index < get_or cell.slices.counts.now of.rank 0) }
    ensures { told result ≡ side_ascent (held cell.entry.slices) of.rank of.index (side_no side) }
{
    if !climbs(cell.side_of(here, of.index, side)) {
        return Err(Refusal::NotAscending { of, side });
    }
    Ok(())
}

// An element, whose rank begins at place here: its subs, then its sups.
#[tactic(auto, using(listing::proofs::Told::steps), unfolding(crate::specs::Ascent::element_ascent))]
fn check_element(cell: Cell<'_>, here: usize, of: Element) -> Result<(), Refusal>
    requires { (here ≡ before cell.slices.counts.now of.rank)
        × (of.index < get_or cell.slices.counts.now of.rank 0) }
    ensures { told result ≡ element_ascent (held cell.entry.slices) of.rank of.index }
{
    check_side(cell, here, of, Side::Subs)?;
    check_side(cell, here, of, Side::Sups)
}

// The elements of rank r, which begins at place here.
#[tactic(auto, using(listing::proofs::Told::among))]
fn check_rank(cell: Cell<'_>, here: usize, r: usize) -> Result<(), Refusal>
    requires { (here ≡ before cell.slices.counts.now r) × (r < length cell.slices.counts.now) }
    ensures { told result ≡ first_of (element_ascent (held cell.entry.slices) r) 0
        (get_or cell.entry.slices.counts.now r 0) }
{
    for i in 0..cell.slices.counts[r] {
        let of = Element {
            rank: r as Index,
            index: i,
        };
        check_element(cell, here, of)?;
    }
    Ok(())
}

// All elements, by rank and then index.
#[tactic(auto, using(crate::proofs::AscentExact::ranks), unfolding(crate::specs::Ascent::ascent_test))]
pub fn check_all(cell: Cell<'_>) -> Result<(), Refusal>
    ensures { told result ≡ ascent_test (held cell.entry.slices) }
{
    let mut here: usize = 0;
    for (r, &count) in cell.slices.counts.iter().enumerate() {
        check_rank(cell, here, r)?;
        here += usize::from(count);
    }
    Ok(())
}
