// A change of a flag, where nothing is refused.
ghost use Rattle.std.specs.Prelude.{◌≡◌, ◌<◌, Ok};
ghost use Rattle.listing.specs.Answers.{fine};
ghost use Rattle.listing.specs.Listing.{held, rank};
ghost use Rattle.flag_change.specs.Flags.{IsFlag};
ghost use Rattle.flag.specs.Changed.{changed_as, told_changed};

use flag_change::chain;
use listing::{Index, limit, reading};
use valid::ClosedCell;

// A change that is made: the new flag, 0 above the top; and what was replaced, the index that the change took out and
// the one that it put in.
#[derive(Clone, Copy)]
pub struct Change {
    pub flag: [Index; limit::RANKS],
    pub taken: Index,
    pub put: Index,
}

// The change at rank r of a flag of a closed listing.
#[tactic(auto, using(crate::proofs::Making::making, valid::proofs::InClosed::ascends))]
pub fn changed_at(cell: ClosedCell<'_>, flag: &[Index], r: usize) -> Change
    requires flag { IsFlag (held cell.slices) flag.now }
    requires r_nonzero { (0 < r) × (r < rank (held cell.slices)) }
    ensures { told_changed (Ok result) ≡ changed_as fine (held cell.entry.slices) flag.now r }
{
    let low = reading::elements_before(cell.slices.counts, r - 1);
    let high = reading::elements_before(cell.slices.counts, r + 1);
    let p = chain::replaced_at(cell.cell(), flag, r, low, high);
    let mut new = chain::pad(flag);
    new[r] = p.put;
    Change {
        flag: new,
        taken: p.taken,
        put: p.put,
    }
}
