// Test 3, on a listing whose subs and sups match up. One tally serves all elements: it counts what the walk under an
// element meets, and where the element passes, only the counts that the walk has touched are set back.
ghost use Rattle.std.specs.Prelude.{◌≡◌, true, List, [], ◌∷◌, ℕ, ◌+◌, ◌-◌, ◌≤◌, ◌<◌, length, get_or, set, IfOk, OnOk};
ghost use Rattle.order.specs.Lists.{In};
ghost use Rattle.listing.specs.Answers.{first_of};
ghost use Rattle.listing.specs.Listing.{width, held, limits, before};
ghost use Rattle.listing.specs.Told.{told};
ghost use Rattle.valid_diamond.specs.Dyadic.{subs_of_all, seen_after, third, lone, sections_test, dyadic_test};
ghost use Rattle.valid_diamond.specs.Tally.{MetIn, TotalsIn, Tally, Tallied, lone_in, undone, Walkable, SubsUnder};

use listing::{Element, Index, Refusal, Side, limit};
use valid_incidence::MatchedCell;

// How many indices a walk has met, and how many of them twice.
#[derive(Clone, Copy)]
struct Totals {
    met: Index,
    twice: Index,
}

// The totals, when one more index is met that had been met `before` times.
fn totals_after(totals: Totals, before: u8) -> Totals
    requires { (before < 2) × (totals.met + 1 < width) × (totals.twice + 1 < width) }
    ensures { (result.met + before ≡ totals.met + 1) × (result.twice ≡ totals.twice + before) }
{
    if before == 0 {
        Totals {
            met: totals.met + 1,
            twice: totals.twice,
        }
    } else {
        Totals {
            met: totals.met,
            twice: totals.twice + 1,
        }
    }
}

// Counts the subs of one of an element's subs, and refuses the first that is met a third time. `totals` are those of
// what was met, before and after: lent, since beside a refusal in one result they are slower to read.
#[tactic(auto, using(crate::proofs::Walks::along_list, crate::proofs::Totals::totals_few))]
fn tally_list(
    tally: &mut [u8; limit::ELEMENTS],
    subs: &[Index],
    totals: &mut Totals,
    of: Element,
) -> Result<(), Refusal>
    requires by_index { (x : ℕ) → In x subs.now → x < limits.elements }
    requires le_rank { (2 ≤ of.rank) × TotalsIn limits.elements tally.old totals.old.met totals.old.twice }
    ensures tallied { (seen : List ℕ) → Tally limits.elements tally.old seen
        → Tallied limits.elements tally.new (third of.rank of.index) seen
        subs.now (told result) }
    ensures totals_in { OnOk result (TotalsIn limits.elements tally.new totals.new.met totals.new.twice) }
{
    for &sub_sub in subs {
        let at = usize::from(sub_sub);
        if 2 <= tally[at] {
            let low = Element {
                rank: of.rank - 2,
                index: sub_sub,
            };
            return Err(Refusal::ThirdBetween { low, high: of });
        }
        *totals = totals_after(*totals, tally[at]);
        tally[at] += 1;
    }
    Ok(())
}

// Counts the subs of an element's subs, in walking order, in the tally of nothing. The lists of those subs begin at
// place b.
#[tactic(auto, using(crate::proofs::Walks::along_lists))]
fn tally_all(
    tally: &mut [u8; limit::ELEMENTS],
    cell: MatchedCell<'_>,
    b: usize,
    subs: &[Index],
    of: Element,
) -> Result<Totals, Refusal>
    requires walkable { Walkable cell.slices.ends.now cell.slices.inc.now b limits.elements subs.now }
    requires le_rank { (2 ≤ of.rank) × Tally limits.elements tally.old [] }
    ensures tallied { Tallied limits.elements tally.new (third of.rank of.index) []
        (subs_of_all cell.entry.slices.ends.now cell.entry.slices.inc.now b subs.now) (told result) }
    ensures totals_in { IfOk result (λ totals. TotalsIn limits.elements tally.new totals.met totals.twice) }
{
    let mut totals = Totals { met: 0, twice: 0 };
    for &sub in subs {
        tally_list(tally, cell.side_of(b, sub, Side::Subs), &mut totals, of)?;
    }
    Ok(totals)
}

// The smallest index below n that was met once.
#[tactic(auto, using(listing::proofs::Told::of_over), unfolding(crate::specs::Tally::lone_in))]
fn check_once(tally: &[u8; limit::ELEMENTS], n: Index, of: Element) -> Result<(), Refusal>
    requires n_le_elements { n ≤ limits.elements }
    requires le_rank { 2 ≤ of.rank }
    ensures { told result ≡ lone_in (lone of.rank of.index) tally.now n }
{
    for x in 0..n {
        if tally[usize::from(x)] == 1 {
            let low = Element {
                rank: of.rank - 2,
                index: x,
            };
            return Err(Refusal::LoneBetween { low, high: of });
        }
    }
    Ok(())
}

// The smallest index below n that was met once: it is looked for only if not all that were met were met twice.
#[tactic(auto, using(crate::proofs::Totals::lone_none))]
fn check_lone(
    tally: &[u8; limit::ELEMENTS],
    totals: Totals,
    n: Index,
    of: Element,
) -> Result<(), Refusal>
    requires n_le_elements { n ≤ limits.elements }
    requires le_rank { (2 ≤ of.rank) × TotalsIn limits.elements tally.now totals.met totals.twice }
    ensures { told result ≡ lone_in (lone of.rank of.index) tally.now n }
{
    if totals.met == totals.twice {
        return Ok(());
    }
    check_once(tally, n, of)
}

// Sets a count back to 0. Before, `left` counts are not 0; the answer is how many are not after. A count that is 0
// already is not written: the memory may lie behind a slow bus.
#[tactic(auto, using(crate::proofs::Totals::left_some, crate::proofs::Undoing::zero_already))]
fn undo_count(tally: &mut [u8; limit::ELEMENTS], at: usize, left: Index) -> Index
    requires { (at < limits.elements) × MetIn limits.elements tally.old left }
    ensures tally_after { tally.new ≡ set tally.old at 0 }
    ensures met_in { MetIn limits.elements tally.new result }
{
    if tally[at] == 0 {
        return left;
    }
    tally[at] = 0;
    left - 1
}

// Sets the counts of some indices back to 0, the last first. Before, `met` counts are not 0; the answer is how many are
// not after.
fn undo_list(tally: &mut [u8; limit::ELEMENTS], subs: &[Index], met: Index) -> Index
    requires by_index { (x : ℕ) → In x subs.now → x < limits.elements }
    requires met_in { MetIn limits.elements tally.old met }
    ensures tally_after { tally.new ≡ undone subs.now tally.old }
    ensures left_in { MetIn limits.elements tally.new result }
{
    let mut left = met;
    for &sub_sub in subs.iter().rev() {
        left = undo_count(tally, usize::from(sub_sub), left);
    }
    left
}

// Undoes what tally_all has counted: the same lists are walked again, the last first, until none is left of the `met`
// indices that were met.
fn undo_all(
    tally: &mut [u8; limit::ELEMENTS],
    cell: MatchedCell<'_>,
    b: usize,
    subs: &[Index],
    met: Index,
)
    requires walkable { Walkable cell.slices.ends.now cell.slices.inc.now b limits.elements subs.now }
    requires tally { Tally limits.elements tally.old
        (seen_after [] (subs_of_all cell.slices.ends.now cell.slices.inc.now b subs.now)) }
    requires met_in { MetIn limits.elements tally.old met }
    ensures { Tally limits.elements tally.new [] }
{
    let mut left = met;
    for &sub in subs.iter().rev() {
        if left == 0 {
            return;
        }
        left = undo_list(tally, cell.side_of(b, sub, Side::Subs), left);
    }
}

// Whether a walk meets one index twice and nothing else, as that under an edge does: there are two subs with one sub
// each, the same. Such a walk needs no tally.
#[tactic(auto, using(crate::proofs::Walks::list_there, crate::proofs::OneTwice::one_twice))]
fn meets_one_twice(cell: MatchedCell<'_>, b: usize, subs: &[Index]) -> bool
    requires { Walkable cell.slices.ends.now cell.slices.inc.now b limits.elements subs.now }
    ensures { result ≡ true → (x : ℕ)
        × (subs_of_all cell.entry.slices.ends.now cell.entry.slices.inc.now b subs.now ≡ x ∷ x ∷ []) }
{
    let &[first, second] = subs else {
        return false;
    };
    let &[under_first] = cell.side_of(b, first, Side::Subs) else {
        return false;
    };
    let &[under_second] = cell.side_of(b, second, Side::Subs) else {
        return false;
    };
    under_first == under_second
}

// The subs of an element. The rank below begins at place b.
#[tactic(auto, using(listing::proofs::InCell::places))]
fn subs_of<'a>(cell: MatchedCell<'a>, b: usize, of: Element) -> &'a [Index]
    requires b_value { (b ≡ before cell.slices.counts.now (of.rank - 1)) × (2 ≤ of.rank) }
    requires in_rank { of.index < get_or cell.slices.counts.now of.rank 0 }
    ensures { SubsUnder (held cell.entry.slices) of.rank of.index b limits.elements result.now }
{
    let below = cell.slices.counts[usize::from(of.rank) - 1];
    cell.side_of(b + usize::from(below), of.index, Side::Subs)
}

// The sections under an element. The tally comes in as that of nothing, and is so again where they pass. The rank below
// begins at place b.
#[tactic(auto, using(listing::proofs::InCell::places))]
fn check_sections(
    tally: &mut [u8; limit::ELEMENTS],
    cell: MatchedCell<'_>,
    b: usize,
    of: Element,
) -> Result<(), Refusal>
    requires b_value { (b ≡ before cell.slices.counts.now (of.rank - 1)) × (2 ≤ of.rank) }
    requires index_bound { (of.index < get_or cell.slices.counts.now of.rank 0) × Tally limits.elements tally.old [] }
    ensures value { told result ≡ sections_test (held cell.entry.slices) of.rank of.index }
    ensures passed { OnOk result (Tally limits.elements tally.new []) }
{
    let subs = subs_of(cell, b, of);
    if meets_one_twice(cell, b, subs) {
        return Ok(());
    }
    let totals = tally_all(tally, cell, b, subs, of)?;
    check_lone(
        tally,
        totals,
        cell.slices.counts[usize::from(of.rank) - 2],
        of,
    )?;
    undo_all(tally, cell, b, subs, totals.met);
    Ok(())
}

// The elements of rank r. The tally comes in as that of nothing, and is so again where they pass. The rank below begins
// at place b.
#[tactic(auto, using(valid_incidence::proofs::Turns::all))]
fn check_rank(
    tally: &mut [u8; limit::ELEMENTS],
    cell: MatchedCell<'_>,
    b: usize,
    r: usize,
) -> Result<(), Refusal>
    requires b_value { (b ≡ before cell.slices.counts.now (r - 1)) × (2 ≤ r)
        × (r < length cell.slices.counts.now) }
    requires tally { Tally limits.elements tally.old [] }
    ensures value { told result ≡ first_of (sections_test (held cell.entry.slices) r) 0
        (get_or cell.entry.slices.counts.now r 0) }
    ensures passed { OnOk result (Tally limits.elements tally.new []) }
{
    let rank = r as Index;
    for index in 0..cell.slices.counts[r] {
        check_sections(tally, cell, b, Element { rank, index })?;
    }
    Ok(())
}

// The elements of the ranks 2 to high, by rank and then index.
#[tactic(auto, using(crate::proofs::Walks::along_ranks), unfolding(crate::specs::Dyadic::dyadic_test))]
pub fn check_up_to(cell: MatchedCell<'_>, high: usize) -> Result<(), Refusal>
    requires { high < length cell.slices.counts.now }
    ensures { told result ≡ dyadic_test (held cell.entry.slices) high }
{
    // Below rank 2 there is nothing to walk, so there is no tally to clear.
    if high < 2 {
        return Ok(());
    }
    let counts = cell.slices.counts;
    let mut tally = [0u8; limit::ELEMENTS];
    let mut b = usize::from(counts[0]);
    for r in 2..=high {
        check_rank(&mut tally, cell, b, r)?;
        b += usize::from(counts[r - 1]);
    }
    Ok(())
}

// The elements of the ranks below the top, as the Rust walks them.
#[tactic(auto, using(crate::proofs::Walks::dyadic_low))]
pub fn check_below_top(cell: MatchedCell<'_>) -> Result<(), Refusal>
    ensures { told result ≡ dyadic_test (held cell.entry.slices)
        (length cell.entry.slices.counts.now - 1 - 1) }
{
    let rank = cell.slices.counts.len() - 1;
    if rank == 0 {
        return Ok(());
    }
    check_up_to(cell, rank - 1)
}
