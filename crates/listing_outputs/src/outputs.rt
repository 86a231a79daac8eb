// Output slices that a caller lends: whether they have room for a listing, and what is answered of one that is written.
ghost use Rattle.std.specs.Prelude.{◌≡◌, ◌<◌, take};
ghost use Rattle.listing.specs.Listing.{width};
ghost use Rattle.listing.specs.Told.{told};
ghost use Rattle.listing_outputs.specs.Output.{short_test};

use listing::{Lengths, Refusal, Slices, reading};

// How many numbers the three slices of a listing take, or have room for.
#[derive(Clone, Copy)]
pub struct Room {
    pub counts: usize,
    pub ends: usize,
    pub inc: usize,
}

// Whether slices with this much room can hold a listing that needs so much.
#[tactic(auto, using(crate::proofs::Output::room))]
pub fn check_room(need: Room, room: Room) -> Result<(), Refusal>
    ensures { told result ≡ short_test need room }
{
    if room.counts < need.counts || room.ends < need.ends || room.inc < need.inc {
        return Err(Refusal::OutputShort);
    }
    Ok(())
}

// How many numbers are written of a listing that takes so much room.
pub fn lengths(need: Room) -> Lengths
    requires { (need.counts < width) × (need.ends < width) × (need.inc < width) }
    ensures { (result.counts ≡ need.counts) × (result.ends ≡ need.ends) × (result.inc ≡ need.inc) }
{
    Lengths {
        counts: need.counts as u16,
        ends: need.ends as u16,
        inc: need.inc as u16,
    }
}

// What is written in them: so many numbers at the start of each.
pub fn written<'a>(slices: Slices<'a>, n: Lengths) -> Slices<'a>
    ensures counts { result.counts.now ≡ take n.counts slices.entry.counts.now }
    ensures ends { result.ends.now ≡ take n.ends slices.entry.ends.now }
    ensures inc { result.inc.now ≡ take n.inc slices.entry.inc.now }
{
    Slices {
        counts: reading::front(slices.counts, usize::from(n.counts)),
        ends: reading::front(slices.ends, usize::from(n.ends)),
        inc: reading::front(slices.inc, usize::from(n.inc)),
    }
}
