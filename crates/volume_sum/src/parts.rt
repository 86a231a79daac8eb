// What the even flags of a cell of rank 4 add to six times its volume.
ghost use Rattle.std.specs.Prelude.{◌≡◌, ◌*◌, ◌≤◌, length, get_or};
ghost use Rattle.listing.specs.Listing.{held, rank, before};
ghost use Rattle.flag_change.specs.Flags.{IsFlag};
ghost use Rattle.search_theory.specs.Search.{evens};
ghost use Rattle.search_index.specs.Rows.{rows};
ghost use Rattle.search_walk.specs.Ready.{AllFlags};
ghost use Rattle.volume_metres.specs.Formulas.{in_floats};
ghost use Rattle.volume_theory.specs.Six.{cell_rank, part_formula, six_formula};
ghost use Rattle.volume_sum.specs.Sums.{LowestOfEach};

use crate::faces;
use flag_change::chain;
use listing::{Index, limit, reading};
use valid::ClosedCell;
use volume_metres::point;

// What a flag adds: the determinant of where the lowest vertex of its face, its vertex and the other vertex of its edge
// stand. The edges begin at place edges.
#[tactic(auto, using(crate::proofs::InFlags::part, valid::proofs::InClosed::ascends))]
fn part_of(
    cell: ClosedCell<'_>,
    coordinates: &[f64],
    lowest: &[Index; limit::ELEMENTS],
    edges: usize,
    flag: &[Index],
) -> f64
    requires rank_value { rank (held cell.slices) ≡ cell_rank }
    requires coordinates_len { length coordinates.now ≡ 3 * get_or cell.slices.counts.now 1 0 }
    requires lowest_of_each { LowestOfEach (held cell.slices) lowest.now }
    requires edges_value { edges ≡ before cell.slices.counts.now 2 }
    requires flag { IsFlag (held cell.slices) flag.now }
    ensures { result ≡ in_floats coordinates.now (part_formula (held cell.entry.slices) flag.now) }
{
    // The change at rank 1 takes out the vertex of the flag, and puts in the other one of its edge.
    let p = chain::replaced_at(cell.cell(), flag, 1, 0, edges);
    let a = point::point_of(coordinates, lowest[usize::from(flag[3])]);
    let b = point::point_of(coordinates, p.taken);
    let c = point::point_of(coordinates, p.put);
    point::det(a, b, c)
}

// What the even ones of the first n flags of a table add, one after another.
#[tactic(auto, using(crate::proofs::SixRows::six))]
pub fn six_of(
    cell: ClosedCell<'_>,
    coordinates: &[f64],
    table: &[Index],
    orientations: &[u8],
    n: u16,
) -> f64
    requires rank_value { rank (held cell.slices) ≡ cell_rank }
    requires coordinates_len { length coordinates.now ≡ 3 * get_or cell.slices.counts.now 1 0 }
    requires counts_in_bounds { (n * length cell.slices.counts.now ≤ length table.now)
        × (n ≤ length orientations.now) }
    requires all_flags { AllFlags (held cell.slices) table.now n }
    ensures { result ≡ in_floats coordinates.now (six_formula (held cell.entry.slices)
        (evens (rows (length cell.entry.slices.counts.now) table.now n) orientations.now)) }
{
    let lowest = faces::lowest_of_faces(cell);
    let edges = reading::elements_before(cell.slices.counts, 2);
    let ranks = cell.slices.counts.len();
    let mut six = 0.0;
    for k in 0..usize::from(n) {
        if orientations[k] == 0 {
            let from = k * ranks;
            let flag = &table[from..from + ranks];
            six += part_of(cell, coordinates, &lowest, edges, flag);
        }
    }
    six
}
