// What is asked of a listing before all else: the four counts and the shape test; and the class of a refusal.
#![tactic(auto)]

ghost use Rattle.std.specs.Prelude.{◌≡◌, IfOk};
ghost use Rattle.listing.specs.Refusals.{band, band_no};
ghost use Rattle.listing.specs.Listing.{held, limits};
ghost use Rattle.listing.specs.Told.{told, told_number};
ghost use Rattle.listing.specs.Shape.{shape_test, fills as fills_to};
ghost use Rattle.listing_shape.specs.Counts.{rank_of, el_count_of, vertex_count_of, facet_count_of};

use listing::{Band, Cell, Index, Refusal, Slices, limit, reading};

// The class that a refusal's number falls into: by number, for C, which has no enum.
#[tactic(auto, using(crate::proofs::Bands::bands))]
pub fn class(no: u16) -> Option<Band>
    ensures { result ≡ band no }
{
    match no {
        1..=9 => Some(Band::Shape),
        10..=19 => Some(Band::Structure),
        20..=29 => Some(Band::Flags),
        30..=39 => Some(Band::Products),
        _ => None,
    }
}

// A class as a number, for callers that have no enum.
#[tactic(auto, unfolding(listing::specs::Refusals::band_no))]
pub fn band_number(b: Option<Band>) -> u16
    ensures { result ≡ band_no b }
{
    match b {
        None => 0,
        Some(Band::Shape) => 1,
        Some(Band::Structure) => 2,
        Some(Band::Flags) => 3,
        Some(Band::Products) => 4,
    }
}

// The rank: one less than the number of ranks.
#[tactic(auto, using(crate::proofs::Counts::counts), unfolding(crate::specs::Counts::rank_of))]
pub fn rank(counts: &[Index]) -> Result<usize, Refusal>
    ensures { told_number result ≡ rank_of counts.now }
{
    if counts.is_empty() {
        return Err(Refusal::NoRanks);
    }
    Ok(counts.len() - 1)
}

// The number of elements of a rank: 0 for a rank that is not there.
#[tactic(auto, using(crate::proofs::Counts::counts), unfolding(crate::specs::Counts::el_count_of))]
pub fn el_count(counts: &[Index], rank: usize) -> Result<usize, Refusal>
    ensures { told_number result ≡ el_count_of counts.now rank }
{
    if counts.is_empty() {
        return Err(Refusal::NoRanks);
    }
    Ok(usize::from(reading::count_at(counts, rank)))
}

// The number of elements of rank 1.
#[tactic(auto, unfolding(crate::specs::Counts::vertex_count_of))]
pub fn vertex_count(counts: &[Index]) -> Result<usize, Refusal>
    ensures { told_number result ≡ vertex_count_of counts.now }
{
    el_count(counts, 1)
}

// The number of elements of the rank below the top. The nullitope has none: its rank less one wraps, to a rank that is
// not there.
pub fn facet_count(counts: &[Index]) -> Result<usize, Refusal>
    ensures { told_number result ≡ facet_count_of counts.now }
{
    el_count(counts, rank(counts)?.wrapping_sub(1))
}

// Whether the ends do not fall, and come to n.
#[tactic(auto, using(listing::proofs::ShapeExact::filling))]
fn fills(ends: &[Index], n: usize) -> bool
    ensures { result ≡ fills_to 0 ends.now n }
{
    let mut from: Index = 0;
    for &end in ends {
        if end < from {
            return false;
        }
        from = end;
    }
    usize::from(from) == n
}

// The shape tests in their order, 1 to 6.
#[tactic(auto, using(listing::proofs::ShapeExact::shape))]
pub fn shape(slices: Slices<'_>) -> Result<Cell<'_>, Refusal>
    ensures value { told result ≡ shape_test limits (held slices.entry) }
    ensures same { IfOk result (λ cell. cell.slices ≡ slices.entry) }
{
    if slices.counts.is_empty() {
        return Err(Refusal::NoRanks);
    }
    if limit::RANKS < slices.counts.len() {
        return Err(Refusal::OverRanks);
    }
    let n = reading::elements_before(slices.counts, slices.counts.len());
    if limit::ELEMENTS < n {
        return Err(Refusal::OverElements);
    }
    if slices.ends.len() != 2 * n {
        return Err(Refusal::WrongEnds);
    }
    if limit::INCIDENCES < slices.inc.len() {
        return Err(Refusal::OverIncidences);
    }
    if !fills(slices.ends, slices.inc.len()) {
        return Err(Refusal::FallingEnds);
    }
    Ok(Cell { slices })
}
