// The four products of cells, under the names that the promises and the C interface say. Each is `make` of its poles,
// and takes its output slices one by one as `make` does.
#![tactic(auto)]

pub mod make;

ghost use Rattle.listing.specs.Listing.{held, limits, listing};
ghost use Rattle.listing.specs.Told.{told_built};
ghost use Rattle.std.specs.Prelude.{true, false};
ghost use Rattle.product.specs.Outcome.{Outcome};

use listing::{Index, Lengths, Refusal, Slices};
use product_places::Poles;

// The duopyramid: all pairs, none left out. The first members are of the right factor, q.
pub fn duopyramid(
    p: Slices<'_>,
    q: Slices<'_>,
    counts: &mut [Index],
    ends: &mut [Index],
    inc: &mut [Index],
) -> Result<Lengths, Refusal>
    ensures { Outcome limits false false (held p.entry) (held q.entry)
        (listing counts.old ends.old inc.old) (listing counts.new ends.new inc.new) (told_built result) }
{
    make::make(Poles::DUOPYRAMID, p, q, counts, ends, inc)
}

// The duoprism: the pairs without minimal elements, and one added.
pub fn duoprism(
    p: Slices<'_>,
    q: Slices<'_>,
    counts: &mut [Index],
    ends: &mut [Index],
    inc: &mut [Index],
) -> Result<Lengths, Refusal>
    ensures { Outcome limits true false (held p.entry) (held q.entry)
        (listing counts.old ends.old inc.old) (listing counts.new ends.new inc.new) (told_built result) }
{
    make::make(Poles::DUOPRISM, p, q, counts, ends, inc)
}

// The duotegum: the pairs without maximal elements, and one added. The first members are of the right factor, q.
pub fn duotegum(
    p: Slices<'_>,
    q: Slices<'_>,
    counts: &mut [Index],
    ends: &mut [Index],
    inc: &mut [Index],
) -> Result<Lengths, Refusal>
    ensures { Outcome limits false true (held p.entry) (held q.entry)
        (listing counts.old ends.old inc.old) (listing counts.new ends.new inc.new) (told_built result) }
{
    make::make(Poles::DUOTEGUM, p, q, counts, ends, inc)
}

// The duocomb: the pairs without minimal and maximal elements, and one of each added.
pub fn duocomb(
    p: Slices<'_>,
    q: Slices<'_>,
    counts: &mut [Index],
    ends: &mut [Index],
    inc: &mut [Index],
) -> Result<Lengths, Refusal>
    ensures { Outcome limits true true (held p.entry) (held q.entry)
        (listing counts.old ends.old inc.old) (listing counts.new ends.new inc.new) (told_built result) }
{
    make::make(Poles::DUOCOMB, p, q, counts, ends, inc)
}
