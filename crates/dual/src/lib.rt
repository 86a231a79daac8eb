// The dual of a closed listing, written into lent slices.
#![tactic(auto)]

mod write;

ghost use Rattle.listing.specs.Listing.{listing, held, limits};
ghost use Rattle.listing.specs.Told.{told_built};
ghost use Rattle.dual.specs.Duals.{DualMade};

use listing::{Index, Lengths, Refusal, Slices};
use listing_outputs::outputs;
use listing_outputs::outputs::Room;

// Writes the dual of a listing: the ranks from the top down, with the subs and the sups of each element changed over.
// All that is refused is known before a number is written. The output slices stay parameters of their own, as in
// `write`.
pub fn dual(
    slices: Slices<'_>,
    counts: &mut [Index],
    ends: &mut [Index],
    inc: &mut [Index],
) -> Result<Lengths, Refusal>
    ensures { DualMade limits (held slices.entry)
        (listing counts.old ends.old inc.old) (listing counts.new ends.new inc.new) (told_built result) }
{
    let cell = valid::closed(slices)?.cell();
    // the dual takes as much room as the listing
    let need = Room {
        counts: slices.counts.len(),
        ends: slices.ends.len(),
        inc: slices.inc.len(),
    };
    let room = Room {
        counts: counts.len(),
        ends: ends.len(),
        inc: inc.len(),
    };
    outputs::check_room(need, room)?;
    write::put_counts(slices.counts, counts);
    write::put_lists(cell, ends, inc);
    Ok(outputs::lengths(need))
}
