// The listing of layers whose numbers have been noted down flat, written into lent slices: no text is read.
ghost use Rattle.std.specs.Prelude.{List, ℕ, ◌+◌, ◌*◌, ◌≤◌, ◌<◌, length, get_or};
ghost use Rattle.listing.specs.Listing.{width, listing};
ghost use Rattle.listing.specs.Layers.{Layers, derived};
ghost use Rattle.listing.specs.Laid.{Laid};
ghost use Rattle.listing.specs.Written.{written};
ghost use Rattle.listing_sups.specs.Filling.{ElementsLaid};
ghost use Rattle.text_building.specs.Building.{Source, Flat, ElementPut, StandsOver};

use listing::Index;
use listing_sups::sups;
use text_sizes::notes::Notes;

// Where the subs of an element begin among those noted, and where its lists begin in `inc`.
#[derive(Clone, Copy)]
struct FromTo {
    from: usize,
    to: usize,
}

// Copies n numbers from place `at` of one slice to place `to` of another.
fn copy(source: &[Index], at: usize, n: usize, out: &mut [Index], to: usize)
    requires { (at + n ≤ length source.now) × (to + n ≤ length out.old) }
    ensures { Laid to (λ j. get_or source.now (at + j) 0) n out.old out.new }
{
    out[to..to + n].copy_from_slice(&source[at..at + n]);
}

// Writes element e: its subs, and its two ends, with room left for its sups. Returns the places of the next one.
fn put_element(notes: &Notes, ends: &mut [Index], inc: &mut [Index], e: usize, p: FromTo) -> FromTo
    requires e_in_bounds { (e < length notes.now.many) × (e < length notes.now.up) × (2 * e + 1 < length ends.old) }
    requires e_in_bounds_2 { p.from + get_or notes.now.many e 0 ≤ length notes.now.subs }
    requires e_in_bounds_3 { p.to + get_or notes.now.many e 0 + get_or notes.now.up e 0 ≤ length inc.old }
    requires e_bound { p.to + get_or notes.now.many e 0 + get_or notes.now.up e 0 < width }
    ensures { ElementPut (get_or notes.now.many e 0) notes.now.subs (get_or notes.now.up e 0) e p
        ends.old inc.old ends.new inc.new result }
{
    let k = usize::from(notes.many[e]);
    copy(&notes.subs, p.from, k, inc, p.to);
    let end = p.to + k;
    let to = end + usize::from(notes.up[e]);
    ends[2 * e] = end as Index;
    ends[2 * e + 1] = to as Index;
    FromTo {
        from: p.from + k,
        to,
    }
}

// Writes n elements.
fn put_elements(notes: &Notes, n: usize, ends: &mut [Index], inc: &mut [Index])
    requires { (lists : ℕ → List ℕ)
        × Flat lists notes.now.many notes.now.subs notes.now.up n (length ends.old) (length inc.old) }
    ensures { (lists : ℕ → List ℕ)
        → Flat lists notes.now.many notes.now.subs notes.now.up n (length ends.old) (length inc.old)
        → ElementsLaid lists n ends.old inc.old ends.new inc.new }
{
    let mut p = FromTo { from: 0, to: 0 };
    for e in 0..n {
        p = put_element(notes, ends, inc, e, p);
    }
}

// Writes the listing of layers that have been noted down, of so many ranks and n elements. The three lent slices stay
// apart: in a struct each function would have to say that they are still the same slices.
pub fn build(
    notes: &Notes,
    ranks: usize,
    n: usize,
    counts: &mut [Index],
    ends: &mut [Index],
    inc: &mut [Index],
)
    requires { (M : Layers)
        × Source M notes.now.counts notes.now.many notes.now.subs notes.now.up ranks n
        (length counts.old) (length ends.old) (length inc.old) }
    ensures { (M : Layers)
        → Source M notes.now.counts notes.now.many notes.now.subs notes.now.up ranks n
        (length counts.old) (length ends.old) (length inc.old)
        → StandsOver (written M (derived M)) (listing counts.old ends.old inc.old)
        (listing counts.new ends.new inc.new) }
{
    copy(&notes.counts, 0, ranks, counts, 0);
    put_elements(notes, n, ends, inc);
    sups::fill(&counts[..ranks], &ends[..2 * n], inc);
}
