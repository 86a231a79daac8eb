// One pair, and the pairs of one element of the first factor with all of a rank of the second.
// Output slices stay parameters of their own: a struct of them would need a clause on each of its parts everywhere.
ghost use Rattle.std.specs.Prelude.{◌≡◌, cond, [], ◌+◌, ◌*◌, ◌≤◌, ◌<◌, eqb, length, get_or};
ghost use Rattle.listing.specs.Listing.{width, held, entries, Ends};
ghost use Rattle.listing_sups.specs.Filling.{starts, Put};
ghost use Rattle.product_element.specs.Pairs.{subs_in_use};
ghost use Rattle.product_element.specs.Writing.{lists_in, number_in, BlockIn, Writable};

use crate::Factors;
use listing::{Index, Slices, reading};
use product_places::block::Block;
use product_places::put;
use product_places::put::{Shift, Spot};

// A pair of a block: element a of its first rank and element b of its second.
#[derive(Clone, Copy)]
pub struct Pair {
    pub a: usize,
    pub b: usize,
}

// The subs in use of element e of the lists, of rank i: none at the lowest rank in use.
fn subs_in_use<'a>(slices: Slices<'a>, e: usize, i: usize) -> &'a [Index]
    requires ends { Ends slices.ends.now slices.inc.now }
    requires e_in_bounds { 2 * e + 0 < length slices.ends.now }
    ensures { result.now ≡ cond (eqb i 0) [] (entries slices.entry.ends.now slices.entry.inc.now (2 * e + 0)) }
{
    if i == 0 { &[] } else { slices.list_of(2 * e) }
}

// The number of a pair of a block among all elements.
fn get_element_index(block: Block, pair: Pair) -> usize
    requires { block.from + pair.a * block.qcount + pair.b ≤ width }
    ensures { result ≡ block.from + pair.a * block.qcount + pair.b }
{
    block.from + pair.a * block.qcount + pair.b
}

// How many elements lie over that pair.
fn sups_over(factors: Factors<'_>, block: Block, pair: Pair) -> usize
    requires { (block.pbefore + pair.a ≤ width) × (block.qbefore + pair.b ≤ width) × (block.cap ≤ 1) }
    ensures { result ≡ get_or factors.entry.p.sups.now (block.pbefore + pair.a) 0
        + get_or factors.entry.q.sups.now (block.qbefore + pair.b) 0 + block.cap }
{
    let x = usize::from(reading::count_at(factors.p.sups, block.pbefore + pair.a));
    let y = usize::from(reading::count_at(factors.q.sups, block.qbefore + pair.b));
    x + y + block.cap
}

// One pair of a block, from place `at` on, where `left` are the subs in use of its first member. Returns the place
// after it.
fn put_pair(
    factors: Factors<'_>,
    ends: &mut [Index],
    inc: &mut [Index],
    block: Block,
    left: &[Index],
    pair: Pair,
    at: usize,
) -> usize
    requires writable { Writable factors ends.old inc.old }
    requires block_of { BlockIn factors block }
    requires a_bound { (pair.a < get_or factors.p.slices.counts.now block.i 0)
        × (pair.b < get_or factors.q.slices.counts.now block.j 0) }
    requires left_value { left.now ≡ subs_in_use factors.poles.min (held factors.p.slices) block.i pair.a }
    requires at_value { at ≡ starts (lists_in factors) (2 * number_in factors block pair.a pair.b) }
    ensures { Put (lists_in factors.entry) (number_in factors.entry block pair.a pair.b)
        (number_in factors.entry block pair.a (pair.b + 1)) result ends.old inc.old ends.new inc.new }
{
    let right = subs_in_use(
        factors.q.slices,
        block.base + block.qbefore + pair.b,
        block.j,
    );
    let sups = sups_over(factors, block, pair);
    let e = get_element_index(block, pair);
    let spot = Spot { e, at };
    let shift = Shift {
        low: block.low,
        left: block.left + pair.b,
        scale: block.qcount,
        right: block.right + pair.a * block.qbelow,
    };
    put::put_element(&mut *ends, &mut *inc, spot, shift, left, right, sups)
}

// The pairs of element a of a block's first rank with all elements of its second, from place `at` on. Returns the place
// after them.
pub fn put_pairs_of(
    factors: Factors<'_>,
    ends: &mut [Index],
    inc: &mut [Index],
    block: Block,
    a: usize,
    at: usize,
) -> usize
    requires writable { Writable factors ends.old inc.old }
    requires block_of { BlockIn factors block }
    requires a_bound { a < get_or factors.p.slices.counts.now block.i 0 }
    requires at_value { at ≡ starts (lists_in factors) (2 * number_in factors block a 0) }
    ensures { Put (lists_in factors.entry) (number_in factors.entry block a 0)
        (number_in factors.entry block (a + 1) 0) result ends.old inc.old ends.new inc.new }
{
    let left = subs_in_use(factors.p.slices, block.base + block.pbefore + a, block.i);
    let mut to = at;
    for b in 0..block.qcount {
        to = put_pair(
            factors,
            &mut *ends,
            &mut *inc,
            block,
            left,
            Pair { a, b },
            to,
        );
    }
    to
}
