// The tests of a product's two factors.
ghost use Rattle.std.specs.Prelude.{◌≡◌, not, eqb};
ghost use Rattle.listing.specs.Answers.{on};
ghost use Rattle.listing.specs.Listing.{held, limits};
ghost use Rattle.listing.specs.Told.{answer_of, told};
ghost use Rattle.valid.specs.Tests.{is_valid};
ghost use Rattle.product_factors.specs.Factors.{factors_test};

use listing::{Refusal, Slices};

// Whether is_valid accepts a factor; else the refusal is the one that is given.
fn check_factor(slices: Slices<'_>, why: Refusal) -> Result<(), Refusal>
    ensures { told result ≡ on (not (eqb (is_valid limits (held slices.entry)).no 0)) (answer_of why) }
{
    valid::is_valid(slices).map_err(|_| why)
}

// The left factor, p, and then the right one, q.
#[tactic(auto, using(listing::proofs::Told::steps), unfolding(crate::specs::Factors::factors_test))]
pub fn check_factors(p: Slices<'_>, q: Slices<'_>) -> Result<(), Refusal>
    ensures { told result ≡ factors_test limits (held p.entry) (held q.entry) }
{
    check_factor(p, Refusal::LeftInvalid)?;
    check_factor(q, Refusal::RightInvalid)
}
