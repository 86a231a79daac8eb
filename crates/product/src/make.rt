// The chain of tests, and then the builder, whichever product it is.
// Output slices stay parameters of their own: a struct of them would need a clause on each of its parts everywhere.
ghost use Rattle.std.specs.Prelude.{◌≡◌, false, ◌||◌, ◌*◌, ◌<◌, eqb, length, IfOk};
ghost use Rattle.listing.specs.Listing.{Listing, held, limits, listing, rank};
ghost use Rattle.listing.specs.Told.{told, told_built};
ghost use Rattle.valid.specs.Tests.{is_valid};
ghost use Rattle.listing.specs.Cells.{nullitope};
ghost use Rattle.listing_outputs.specs.Output.{Made};
ghost use Rattle.product_pairs.specs.Product.{product_of};
ghost use Rattle.product_closure.specs.Result.{first_factor, second_factor, null_case, comb_case, result_of};
ghost use Rattle.product_sizes.specs.Sizing.{size_test, totals_test, Usable};
ghost use Rattle.product.specs.Outcome.{rest_test, Outcome};

use listing::{Index, Lengths, Refusal, Slices};
use listing_outputs::outputs;
use listing_outputs::outputs::Room;
use product_building::build;
use product_factors::factors;
use product_places::Poles;
use product_sizes::sizes;
use product_sizes::sizes::Totals;

// Whether a product of these sizes is within the limits and has room, and how many numbers are then written.
#[tactic(auto, using(crate::proofs::Made::little))]
fn check_room(
    s: Totals,
    counts: &[Index],
    ends: &[Index],
    inc: &[Index],
) -> Result<Lengths, Refusal>
    ensures test { told result ≡ totals_test limits s
        (record { counts = length counts.now; ends = length ends.now; inc = length inc.now }) }
    ensures lengths { IfOk result (λ n. (n.counts ≡ s.ranks) × (n.ends ≡ 2 * s.elements) × (n.inc ≡ s.incidences)) }
{
    let room = Room {
        counts: counts.len(),
        ends: ends.len(),
        inc: inc.len(),
    };
    sizes::check_sizes(s, room)?;
    Ok(outputs::lengths(sizes::need_of(s)))
}

// Whether one of two listings has rank n.
fn either_is(p: Slices<'_>, q: Slices<'_>, n: usize) -> bool
    requires { (0 < length p.counts.now) × (0 < length q.counts.now) }
    ensures { result ≡ (eqb (rank (held p.entry)) n || eqb (rank (held q.entry)) n) }
{
    p.counts.len() - 1 == n || q.counts.len() - 1 == n
}

// Whether the product is the nullitope: of a factor of rank 0, for all but the duopyramid.
#[tactic(auto, unfolding(product_closure::specs::Result::null_case))]
fn is_null(poles: Poles, p: Slices<'_>, q: Slices<'_>) -> bool
    requires { (0 < length p.counts.now) × (0 < length q.counts.now) }
    ensures { result ≡ null_case poles.min poles.max (held p.entry) (held q.entry) }
{
    (poles.min || poles.max) && either_is(p, q, 0)
}

// Whether it is a duocomb with a factor of rank 1, where none has rank 0.
#[tactic(auto, unfolding(product_closure::specs::Result::comb_case))]
fn is_comb_of_point(poles: Poles, p: Slices<'_>, q: Slices<'_>) -> bool
    requires some_rank { (0 < length p.counts.now) × (0 < length q.counts.now) }
    requires not_null { null_case poles.min poles.max (held p) (held q) ≡ false }
    ensures { result ≡ comb_case poles.min poles.max (held p.entry) (held q.entry) }
{
    poles.min && poles.max && either_is(p, q, 1)
}

// The nullitope, written out.
#[tactic(auto, using(crate::proofs::Made::null_room))]
fn put_nullitope(
    counts: &mut [Index],
    ends: &mut [Index],
    inc: &[Index],
) -> Result<Lengths, Refusal>
    ensures { Made (size_test limits nullitope (length counts.old) (length ends.old) (length inc.now))
        nullitope (listing counts.old ends.old inc.now) (listing counts.new ends.new inc.now) (told_built result) }
{
    let s = Totals {
        ranks: 1,
        elements: 1,
        incidences: 0,
    };
    let n = check_room(s, counts, ends, inc)?;
    counts[0] = 1;
    ends[0] = 0;
    ends[1] = 0;
    Ok(n)
}

// The product of two factors that can be used: the pairs are of p and q, in this order.
fn product(
    poles: Poles,
    p: Slices<'_>,
    q: Slices<'_>,
    counts: &mut [Index],
    ends: &mut [Index],
    inc: &mut [Index],
) -> Result<Lengths, Refusal>
    requires usable { Usable poles.min poles.max (held p) }
    requires usable_2 { Usable poles.min poles.max (held q) }
    ensures { Made
        (size_test limits (product_of poles.min poles.max (held p.entry) (held q.entry))
        (length counts.old) (length ends.old) (length inc.old))
        (product_of poles.min poles.max (held p.entry) (held q.entry))
        (listing counts.old ends.old inc.old) (listing counts.new ends.new inc.new) (told_built result) }
{
    let s = sizes::product_sizes(
        poles,
        sizes::extent_of(poles, p),
        sizes::extent_of(poles, q),
    );
    let n = check_room(s, counts, ends, inc)?;
    build::build(
        poles,
        sizes::in_use(poles, p),
        sizes::in_use(poles, q),
        counts,
        ends,
        inc,
    );
    Ok(n)
}

// The two factors in the order of the members: the left one gives the first where min is set, else the right one does.
fn in_order<'a>(poles: Poles, left: Slices<'a>, right: Slices<'a>) -> (Slices<'a>, Slices<'a>)
    ensures { (held result.0 ≡ first_factor poles.min (held left.entry) (held right.entry))
        × (held result.1 ≡ second_factor poles.min (held left.entry) (held right.entry)) }
{
    if poles.min {
        (left, right)
    } else {
        (right, left)
    }
}

// The product of two factors that is_valid accepts: the nullitope, or that of the pairs.
#[tactic(auto, using(crate::proofs::Chain::usable_ones))]
fn product_of_valid(
    poles: Poles,
    p: Slices<'_>,
    q: Slices<'_>,
    counts: &mut [Index],
    ends: &mut [Index],
    inc: &mut [Index],
) -> Result<Lengths, Refusal>
    requires p_valid { (is_valid limits (held p)).no ≡ 0 }
    requires q_valid { (is_valid limits (held q)).no ≡ 0 }
    ensures { Made
        (rest_test limits poles.min poles.max (held p.entry) (held q.entry)
        (length counts.old) (length ends.old) (length inc.old))
        (result_of poles.min poles.max (held p.entry) (held q.entry))
        (listing counts.old ends.old inc.old) (listing counts.new ends.new inc.new) (told_built result) }
{
    if is_null(poles, p, q) {
        return put_nullitope(counts, ends, inc);
    }
    if is_comb_of_point(poles, p, q) {
        return Err(Refusal::CombOfPoint);
    }
    let (first, second) = in_order(poles, p, q);
    product(poles, first, second, counts, ends, inc)
}

// The product that the poles tell, of the left factor p and the right factor q.
#[tactic(auto, using(crate::proofs::Chain::valid_ones))]
pub fn make(
    poles: Poles,
    p: Slices<'_>,
    q: Slices<'_>,
    counts: &mut [Index],
    ends: &mut [Index],
    inc: &mut [Index],
) -> Result<Lengths, Refusal>
    ensures { Outcome limits poles.min poles.max (held p.entry) (held q.entry)
        (listing counts.old ends.old inc.old) (listing counts.new ends.new inc.new) (told_built result) }
{
    factors::check_factors(p, q)?;
    product_of_valid(poles, p, q, counts, ends, inc)
}
