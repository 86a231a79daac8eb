// Tests 2 and 19 together, of a cell that is bounded.
ghost use Rattle.std.specs.Prelude.{◌≡◌, get_or, IfOk};
ghost use Rattle.listing.specs.Answers.{◌or_else◌};
ghost use Rattle.listing.specs.Listing.{held};
ghost use Rattle.listing.specs.Told.{told};
ghost use Rattle.valid_incidence.specs.Incidence.{incidences_test};
ghost use Rattle.valid.specs.Ascent.{ascent_test};

use crate::{agreement, ascent};
use listing::{Cell, Refusal};
use valid_incidence::{MatchedCell, incidence};

// What is wrong with the lists: an incidence first, then one that does not ascend. Most cells pass at the quick look;
// only where it says no do the tests go through the listing, to find what they refuse.
#[tactic(auto, using(listing::proofs::Told::steps, crate::proofs::AgreementTests::agreeing))]
pub fn check_lists(cell: Cell<'_>) -> Result<MatchedCell<'_>, Refusal>
    requires { get_or cell.slices.counts.now 0 0 ≡ 1 }
    ensures value { told result ≡ (incidences_test (held cell.entry.slices)
        or_else ascent_test (held cell.entry.slices)) }
    ensures same { IfOk result (λ matched. matched.slices ≡ cell.entry.slices) }
{
    if agreement::agree(cell) {
        return Ok(MatchedCell {
            slices: cell.slices,
        });
    }
    let matched = incidence::check_all(cell)?;
    ascent::check_all(cell)?;
    Ok(matched)
}
