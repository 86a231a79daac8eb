// The dual of a cell, written into lent slices that have room for it: the counts, and then, rank by rank from
// the highest down, the sups and the subs of each element.
// Output slices stay parameters of their own: a struct of them would need a clause on each of its parts everywhere.
ghost use Rattle.std.specs.Prelude.{◌≡◌, ◌+◌, ◌*◌, ◌≤◌, ◌<◌, length};
ghost use Rattle.order.specs.Sums.{sum};
ghost use Rattle.order.specs.Lists.{over};
ghost use Rattle.listing.specs.Listing.{held, width};
ghost use Rattle.listing.specs.Written.{lengths};
ghost use Rattle.dual_theory.specs.Dual.{dual_of};
ghost use Rattle.dual.specs.Writing.{reversed, turned_from, ListsPut};

use listing::{Cell, Index};

// How many ends stand, and how many numbers of lists.
#[derive(Clone, Copy)]
struct Place {
    ends: usize,
    inc: usize,
}

// Writes a list, and where it ends.
fn put_list(list: &[Index], ends: &mut [Index], inc: &mut [Index], p: Place) -> Place
    requires ends_in_bounds { p.ends < length ends.old }
    requires list_in_bounds { (p.inc + length list.now ≤ length inc.old) × (p.inc + length list.now < width) }
    ensures { ListsPut (λ j. list.now) 1 p ends.old inc.old
        ends.new inc.new result }
{
    // Number by number: the library's copy would have the archive need `memmove` from outside.
    for j in 0..list.len() {
        inc[p.inc + j] = list[j];
    }
    let end = p.inc + list.len();
    let at = p.ends;
    ends[at] = end as Index;
    Place {
        ends: p.ends + 1,
        inc: end,
    }
}

// Writes the lists of an element of the dual: the sups and then the subs of the one at place `at`.
fn put_element(cell: Cell<'_>, at: usize, ends: &mut [Index], inc: &mut [Index], p: Place) -> Place
    requires at_there { 2 * at + 1 < length cell.slices.ends.now }
    requires ends_in_bounds { p.ends + 2 ≤ length ends.old }
    requires at_in_bounds { (p.inc + sum (lengths (turned_from cell.slices.ends.now cell.slices.inc.now at)) 2 ≤ length inc.old)
        × (p.inc + sum (lengths (turned_from cell.slices.ends.now cell.slices.inc.now at)) 2 < width) }
    ensures { ListsPut (turned_from cell.entry.slices.ends.now cell.entry.slices.inc.now at) 2 p
        ends.old inc.old ends.new inc.new result }
{
    let sups = cell.list_of(2 * at + 1);
    let subs = cell.list_of(2 * at);
    let q = put_list(sups, ends, inc, p);
    put_list(subs, ends, inc, q)
}

// Writes the lists of the n elements that stand from place `here` on, the first of them first.
fn put_rank(
    cell: Cell<'_>,
    here: usize,
    n: Index,
    ends: &mut [Index],
    inc: &mut [Index],
    p: Place,
) -> Place
    requires n_there { 2 * (here + n) ≤ length cell.slices.ends.now }
    requires n_in_bounds { p.ends + 2 * n ≤ length ends.old }
    requires n_in_bounds_2 { (p.inc + sum (lengths (turned_from cell.slices.ends.now cell.slices.inc.now here)) (2 * n) ≤ length inc.old)
        × (p.inc + sum (lengths (turned_from cell.slices.ends.now cell.slices.inc.now here)) (2 * n) < width) }
    ensures { ListsPut (turned_from cell.entry.slices.ends.now cell.entry.slices.inc.now here) (2 * n) p
        ends.old inc.old ends.new inc.new result }
{
    let mut q = p;
    for k in 0..n {
        let at = here + usize::from(k);
        q = put_element(cell, at, ends, inc, q);
    }
    q
}

// Writes all lists, from the highest rank down.
pub fn put_lists(cell: Cell<'_>, ends: &mut [Index], inc: &mut [Index])
    requires { (length cell.slices.ends.now ≤ length ends.old) × (length cell.slices.inc.now ≤ length inc.old) }
    ensures ends_after { ends.new ≡ over (dual_of (held cell.entry.slices)).ends ends.old }
    ensures inc_after { inc.new ≡ over (dual_of (held cell.entry.slices)).inc inc.old }
{
    let mut p = Place { ends: 0, inc: 0 };
    let mut here = cell.slices.ends.len() / 2;
    for &n in cell.slices.counts.iter().rev() {
        here -= usize::from(n);
        p = put_rank(cell, here, n, ends, inc, p);
    }
}

// Writes the counts, the last first.
pub fn put_counts(pcounts: &[Index], counts: &mut [Index])
    requires { length pcounts.now ≤ length counts.old }
    ensures { counts.new ≡ over (reversed pcounts.now) counts.old }
{
    for (place, &n) in pcounts.iter().rev().enumerate() {
        counts[place] = n;
    }
}
