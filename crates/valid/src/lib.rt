// The tests of a cell: those of the Rust's is_valid, and the closed test, which also looks at the top. Each entry takes
// any three slices and tests their shape first; the modules hold the tests of a cell.
#![tactic(auto)]

pub mod agreement;
pub mod ascent;
pub mod bounds;
pub mod lists;

ghost use Rattle.std.specs.Prelude.{◌≡◌, IfOk};
ghost use Rattle.listing.specs.Listing.{held, limits};
ghost use Rattle.listing.specs.Told.{told};
ghost use Rattle.valid.specs.Tests as tests;

use listing::{Cell, Refusal, Slices};
use valid_diamond::dyadic;
use valid_incidence::{MatchedCell, incidence};

// A closed listing.
#[derive(Clone, Copy)]
pub struct ClosedCell<'a> {
    pub slices: Slices<'a>,
    ghost closed: { (tests.closed limits (held slices)).no ≡ 0 },
}

impl<'a> ClosedCell<'a> {
    // The same listing, of which only the shape is told.
    #[tactic(auto, using(crate::proofs::InClosed::shaped))]
    pub fn cell(self) -> Cell<'a>
        ensures { result.slices ≡ self.entry.slices }
    {
        Cell {
            slices: self.slices,
        }
    }

    // The same listing, of which it is told that subs and sups match up.
    #[tactic(auto, using(crate::proofs::InClosed::shaped, crate::proofs::InClosed::matched))]
    pub fn matched(self) -> MatchedCell<'a>
        ensures { result.slices ≡ self.entry.slices }
    {
        MatchedCell {
            slices: self.slices,
        }
    }
}

// Whether the listing is valid: bounded, each index matched by one that leads back, and the diamond below the top.
#[tactic(auto, using(listing::proofs::Told::steps), unfolding(crate::specs::Tests::is_valid))]
pub fn is_valid(slices: Slices<'_>) -> Result<(), Refusal>
    ensures { told result ≡ tests.is_valid limits (held slices.entry) }
{
    let cell = listing_shape::shape(slices)?;
    bounds::check_bounded(cell.slices.counts)?;
    let matched = incidence::check_all(cell)?;
    dyadic::check_below_top(matched)
}

// One minimal and one maximal element.
#[tactic(auto, using(listing::proofs::Told::steps), unfolding(crate::specs::Tests::bounded))]
pub fn bounded(slices: Slices<'_>) -> Result<(), Refusal>
    ensures { told result ≡ tests.bounded limits (held slices.entry) }
{
    let cell = listing_shape::shape(slices)?;
    bounds::check_bounded(cell.slices.counts)
}

// Whether subs and sups match up, and all refer to elements that are there.
#[tactic(auto, using(listing::proofs::Told::steps), unfolding(crate::specs::Tests::check_incidences))]
pub fn check_incidences(slices: Slices<'_>) -> Result<(), Refusal>
    ensures { told result ≡ tests.check_incidences limits (held slices.entry) }
{
    let cell = listing_shape::shape(slices)?;
    incidence::check_all(cell)?;
    Ok(())
}

// The diamond at the ranks below the top. It means something only where subs and sups match up: that is tested first.
#[tactic(auto, using(listing::proofs::Told::steps), unfolding(crate::specs::Tests::is_dyadic))]
pub fn is_dyadic(slices: Slices<'_>) -> Result<(), Refusal>
    ensures { told result ≡ tests.is_dyadic limits (held slices.entry) }
{
    let cell = listing_shape::shape(slices)?;
    let matched = incidence::check_all(cell)?;
    dyadic::check_below_top(matched)
}

// Whether the listing is closed: valid, its lists ascending, and the diamond at the top as well.
#[tactic(auto, using(crate::proofs::ClosedSteps::closing), unfolding(crate::specs::Tests::closed))]
pub fn closed(slices: Slices<'_>) -> Result<ClosedCell<'_>, Refusal>
    ensures value { told result ≡ tests.closed limits (held slices.entry) }
    ensures same { IfOk result (λ cell. cell.slices ≡ slices.entry) }
{
    let cell = listing_shape::shape(slices)?;
    bounds::check_bounded(cell.slices.counts)?;
    let matched = lists::check_lists(cell)?;
    dyadic::check_up_to(matched, slices.counts.len() - 1)?;
    Ok(ClosedCell { slices })
}
