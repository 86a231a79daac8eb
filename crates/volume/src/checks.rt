// The mask of the search, and what is refused after it.
ghost use Rattle.std.specs.Prelude.{◌≡◌, ◌-◌, ◌≤◌};
ghost use Rattle.listing.specs.Answers.{fine};
ghost use Rattle.listing.specs.Listing.{limits};
ghost use Rattle.listing.specs.Told.{told};
ghost use Rattle.search.specs.SearchedBy.{found_as};
ghost use Rattle.search_masks.specs.Masks.{every_rank};
ghost use Rattle.volume.specs.Volumes.{volume_test};

use listing::{Index, Refusal, limit};
use search_masks::mask;
use search_store::Found;
use volume_metres::metres;

// The mask of every change, of a listing with so many ranks. Of one with too many, which a search refuses before it
// looks at the mask, any mask will do.
#[tactic(auto, using(crate::proofs::Tested::masks))]
pub fn every_change(ranks: usize) -> u16
    ensures { ranks ≤ limits.ranks → result ≡ every_rank (ranks - 1) }
{
    if ranks == 0 || limit::RANKS < ranks {
        return 0;
    }
    mask::every(ranks - 1)
}

// What is refused of a cell that a search has been through: 50, 51, 52, 53. A cell of rank 4 has five counts.
#[tactic(auto, using(crate::proofs::Tested::tested))]
pub fn check_cell(counts: &[Index], coordinates: &[f64], found: Found) -> Result<(), Refusal>
    ensures { told result ≡ volume_test counts.now coordinates.now (found_as fine found.count found.place) }
{
    let &[_, vertices, _, _, _] = counts else {
        return Err(Refusal::NotRankFour);
    };
    if found.place != 0 {
        return Err(Refusal::NotOrientable);
    }
    if coordinates.len() != 3 * usize::from(vertices) {
        return Err(Refusal::WrongCoordinates);
    }
    if !metres::all_coordinates(coordinates) {
        return Err(Refusal::NotInMetres);
    }
    Ok(())
}
