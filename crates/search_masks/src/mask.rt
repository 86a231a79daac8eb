// The change mask: bit r asks for the change at rank r.
ghost use Rattle.std.specs.Prelude.{◌≡◌, ◌||◌, ◌&&◌, ◌-◌, ◌^◌, ◌≤◌, ◌<◌, eqb, ltb};
ghost use Rattle.std.specs.Int.Count.{count_trailing_zeros};
ghost use Rattle.listing.specs.Listing.{limits};
ghost use Rattle.search_masks.specs.Masks.{bit_at, mask_fits, every_rank};

use listing::limit;

// How many bits a mask has: one for each rank.
const BITS: u16 = limit::RANKS as u16;

// Whether rank r is to be changed.
fn in_mask(mask: u16, r: u16) -> bool
    requires { r < limits.ranks }
    ensures { result ≡ eqb (bit_at mask r) 1 }
{
    (mask >> r) & 1 == 1
}

// Whether rank r is not to be changed, or can be: from 1 to rank - 1.
#[tactic(auto, using(crate::proofs::Ranks::bit_unset))]
fn allowed(mask: u16, rank: usize, r: u16) -> bool
    requires { r < limits.ranks }
    ensures { result ≡ (eqb (bit_at mask r) 0 || (ltb 0 r && ltb r rank)) }
{
    !in_mask(mask, r) || (0 < r && usize::from(r) < rank)
}

// Whether the mask asks for ranks from 1 to rank - 1 only.
pub fn fits(mask: u16, rank: usize) -> bool
    ensures { result ≡ mask_fits rank mask }
{
    (0..BITS).all(|r| allowed(mask, rank, r))
}

// The mask that asks for every change of a cell of that rank: at 1 to rank - 1.
#[tactic(auto, using(crate::proofs::Every::power_fits))]
pub fn every(rank: usize) -> u16
    requires { rank < limits.ranks }
    ensures { result ≡ every_rank rank }
{
    // One bit less 2: all bits below it but the lowest. For rank 0 that would fall below 0, and there is no change.
    (1u16 << rank).saturating_sub(2)
}

// Whether any change is left: whether the mask has a one.
#[tactic(auto, using(crate::proofs::Low::any_ones))]
pub fn any_left(left: u16) -> bool
    ensures { result ≡ ltb 0 left }
{
    left.count_ones() != 0
}

// The rank of the next change.
pub fn lowest(left: u16) -> u16
    requires { 0 < left }
    ensures { (result ≡ count_trailing_zeros limits.ranks left) × (result < limits.ranks) }
{
    left.trailing_zeros() as u16
}

// The changes that are left after that at rank r.
pub fn without(left: u16, r: u16) -> u16
    requires { (r < limits.ranks) × (2 ^ r ≤ left) }
    ensures { result ≡ left - 2 ^ r }
{
    left - (1u16 << r)
}
