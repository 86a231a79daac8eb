// Numbers written at a place of a slice.
// Output slices stay parameters of their own: a struct of them would need a clause on each of its parts everywhere.
ghost use Rattle.std.specs.Prelude.{◌≡◌, cond, ℕ, ◌+◌, ◌*◌, ◌≤◌, ◌<◌, length, get_or, set};
ghost use Rattle.order.specs.Lists.{In};
ghost use Rattle.listing.specs.Listing.{width};
ghost use Rattle.product_pairs.specs.Trimmed.{bit};
ghost use Rattle.listing.specs.Laid.{Laid, LaidList};
ghost use Rattle.product_places.specs.Places.{subs_of};

use listing::Index;

// Where an element is written: its number among all, and the place of `inc` at which its lists begin.
#[derive(Clone, Copy)]
pub struct Spot {
    pub e: usize,
    pub at: usize,
}

// How the subs of an element follow from those of its two members: a 0 where `low` is set (the numbers beside it are
// there either way), then left + x * scale for
// each sub x of the first, then right + y for each sub y of the second.
#[derive(Clone, Copy)]
pub struct Shift {
    pub low: bool,
    pub left: usize,
    pub scale: usize,
    pub right: usize,
}

// Writes a number at place `at` where it is asked for. Returns the place after it.
pub fn put_if(d: &mut [Index], at: usize, asked: bool, x: Index) -> usize
    requires { at + bit asked ≤ length d.old }
    ensures value { result ≡ at + bit asked }
    ensures laid { Laid at (λ j. x) (bit asked) d.old d.new }
{
    if asked {
        d[at] = x;
        at + 1
    } else {
        at
    }
}

// Writes off + x * scale for each x of a list, from place `at` on. Returns the place after the last.
pub fn put_scaled(d: &mut [Index], at: usize, list: &[Index], off: usize, scale: usize) -> usize
    requires list_in_bounds { at + length list.now ≤ length d.old }
    requires by_index { (j : ℕ) → j < length list.now → off + get_or list.now j 0 * scale < width }
    ensures value { result ≡ at + length list.now }
    ensures laid { Laid at (λ j. off + get_or list.now j 0 * scale) (length list.now)
        d.old d.new }
{
    for (j, &x) in list.iter().enumerate() {
        d[at + j] = (off + usize::from(x) * scale) as Index;
    }
    at + list.len()
}

// Writes 0, 1, .. n - 1 from place `at` on. Returns the place after the last.
pub fn put_up_to(d: &mut [Index], at: usize, n: usize) -> usize
    requires { (at + n ≤ length d.old) × (n ≤ width) }
    ensures value { result ≡ at + n }
    ensures laid { Laid at (λ j. j) n d.old d.new }
{
    for j in 0..n {
        d[at + j] = j as Index;
    }
    at + n
}

// Writes the added minimal element where it is asked for: nothing under it, and room for its sups. Returns the place
// after those.
pub fn put_min(ends: &mut [Index], min: bool, sups: usize) -> usize
    requires { (2 * bit min ≤ length ends.old) × (sups < width) }
    ensures value { result ≡ cond min sups 0 }
    ensures ends_after { ends.new ≡ cond min (set (set ends.old 0 0) 1 sups) ends.old }
{
    if min {
        ends[0] = 0;
        ends[1] = sups as Index;
        sups
    } else {
        0
    }
}

// Writes the added maximal element where it is asked for: the n elements under it, and nothing over it. Returns the
// place after those.
pub fn put_max(ends: &mut [Index], inc: &mut [Index], max: bool, spot: Spot, n: usize) -> usize
    requires max_in_bounds { 2 * (spot.e + bit max) ≤ length ends.old }
    requires n_in_bounds { (spot.at + cond max n 0 ≤ length inc.old) × (spot.at + cond max n 0 < width) }
    ensures value { result ≡ spot.at + cond max n 0 }
    ensures laid { Laid spot.at (λ j. j) (cond max n 0) inc.old inc.new }
    ensures ends_after { ends.new ≡ cond max (set (set ends.old (2 * spot.e) result) (2 * spot.e + 1) result)
        ends.old }
{
    if max {
        let to = put_up_to(&mut *inc, spot.at, n);
        let e = spot.e;
        ends[2 * e] = to as Index;
        ends[2 * e + 1] = to as Index;
        to
    } else {
        spot.at
    }
}

// Writes one element: what it has under it, by the subs `left` and `right` of its members, and its two ends, with room
// left for its sups. Returns the place after those.
#[tactic(auto, using(crate::proofs::Parts::subs_length))]
pub fn put_element(
    ends: &mut [Index],
    inc: &mut [Index],
    spot: Spot,
    shift: Shift,
    left: &[Index],
    right: &[Index],
    sups: usize,
) -> usize
    requires sups_bound { spot.at + length (subs_of shift left.now right.now) + sups < width }
    requires sups_in_bounds { spot.at + length (subs_of shift left.now right.now) + sups ≤ length inc.old }
    requires e_in_bounds { 2 * spot.e + 1 < length ends.old }
    requires by_index { (x : ℕ) → In x (subs_of shift left.now right.now) → x < width }
    ensures value { result ≡ spot.at + length (subs_of shift left.now right.now) + sups }
    ensures laid_list { LaidList spot.at (subs_of shift left.now right.now)
        inc.old inc.new }
    ensures ends_after { ends.new ≡ set (set ends.old (2 * spot.e)
        (spot.at + length (subs_of shift left.now right.now))) (2 * spot.e + 1) result }
{
    let a = put_if(&mut *inc, spot.at, shift.low, 0);
    let b = put_scaled(&mut *inc, a, left, shift.left, shift.scale);
    let c = put_scaled(&mut *inc, b, right, shift.right, 1);
    let d = c + sups;
    let e = spot.e;
    ends[2 * e] = c as Index;
    ends[2 * e + 1] = d as Index;
    d
}
