// Test 1, of the counts alone.
ghost use Rattle.std.specs.Prelude.{◌≡◌, List, ℕ, ◌<◌, length};
ghost use Rattle.listing.specs.Listing.{listing};
ghost use Rattle.listing.specs.Told.{told};
ghost use Rattle.valid.specs.Bounds.{bounded_test};

use listing::{Index, Refusal};

// One minimal and one maximal element. Counts alone are looked at, and so it takes no cell.
#[tactic(auto, unfolding(crate::specs::Bounds::bounded_test))]
pub fn check_bounded(counts: &[Index]) -> Result<(), Refusal>
    requires { 0 < length counts.now }
    ensures { (e i : List ℕ) → told result ≡ bounded_test (listing counts.now e i) }
{
    let smallest = counts[0];
    let largest = counts[counts.len() - 1];
    if smallest != 1 || largest != 1 {
        return Err(Refusal::NotBounded { smallest, largest });
    }
    Ok(())
}
