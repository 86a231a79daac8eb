// Whether subs and sups match up: each index that an element lists names an element that is there and lists it back.
#![tactic(auto)]

ghost use Rattle.std.specs.Prelude.{◌≡◌, ◌+◌, ◌*◌, ◌<◌, length};
ghost use Rattle.listing.specs.Listing.{held, limits, entries};
ghost use Rattle.listing.specs.Shape.{Shaped};
ghost use Rattle.listing.specs.Told.{side_no};
ghost use Rattle.valid_incidence.specs.Incidence.{incidences_test};

pub mod incidence;

use listing::{Cell, Index, Side, Slices};

// A listing whose subs and sups match up.
#[derive(Clone, Copy)]
pub struct MatchedCell<'a> {
    pub slices: Slices<'a>,
    ghost shaped: { Shaped limits (held slices) },
    ghost matched: { (incidences_test (held slices)).no ≡ 0 },
}

impl<'a> MatchedCell<'a> {
    // The same listing, of which only the shape is told.
    pub fn cell(self) -> Cell<'a>
        ensures { result.slices ≡ self.entry.slices }
    {
        Cell {
            slices: self.slices,
        }
    }

    // The list at a side of the element x places after the place p.
    pub fn side_of(self, p: usize, x: Index, side: Side) -> &'a [Index]
        requires { 2 * (p + x) + side_no side < length self.slices.ends.now }
        ensures { result.now ≡ entries self.entry.slices.ends.now self.entry.slices.inc.now
            (2 * (p + x) + side_no side) }
    {
        self.cell().side_of(p, x, side)
    }
}
