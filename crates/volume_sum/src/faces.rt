// The lowest-numbered vertex of each face, found once a face.
ghost use Rattle.std.specs.Prelude.{◌≡◌, ◌<◌, get_or};
ghost use Rattle.order.specs.Lists.{least_of};
ghost use Rattle.listing.specs.Listing.{held, rank, before, subs};
ghost use Rattle.volume_theory.specs.Six.{cell_rank, lowest_of};
ghost use Rattle.volume_sum.specs.Sums.{LowestOfEach};

use listing::{Index, Side, limit, reading};
use valid::ClosedCell;

// The lowest-numbered vertex of an edge: its subs ascend. The edges begin at place edges.
#[tactic(auto, using(crate::proofs::InFaces::edges))]
fn lowest_of_edge(cell: ClosedCell<'_>, edges: usize, e: Index) -> Index
    requires { (edges ≡ before cell.slices.counts.now 2) × (e < get_or cell.slices.counts.now 2 0) }
    ensures { result ≡ least_of (subs (held cell.entry.slices) 2 e) }
{
    let edge = cell.slices.side_of(edges, e, Side::Subs);
    edge[0]
}

// The lowest-numbered vertex of a face: the lowest of its edges'. The faces begin at place faces.
#[tactic(auto, using(crate::proofs::InFaces::faces))]
fn lowest_of_face(cell: ClosedCell<'_>, edges: usize, faces: usize, i: Index) -> Index
    requires edges_value { (edges ≡ before cell.slices.counts.now 2) × (faces ≡ before cell.slices.counts.now 3) }
    requires i_bound { i < get_or cell.slices.counts.now 3 0 }
    ensures { result ≡ lowest_of (held cell.entry.slices) i }
{
    let face = cell.slices.side_of(faces, i, Side::Subs);
    let mut lowest = lowest_of_edge(cell, edges, face[0]);
    for &edge in &face[1..] {
        lowest = lowest.min(lowest_of_edge(cell, edges, edge));
    }
    lowest
}

// The lowest-numbered vertex of each face, by the face's index.
#[tactic(auto, using(crate::proofs::InFaces::all_faces))]
pub fn lowest_of_faces(cell: ClosedCell<'_>) -> [Index; limit::ELEMENTS]
    requires { rank (held cell.slices) ≡ cell_rank }
    ensures { LowestOfEach (held cell.entry.slices) result }
{
    let counts = cell.slices.counts;
    let edges = reading::elements_before(counts, 2);
    let faces = edges + usize::from(counts[2]);
    let mut lowest: [Index; limit::ELEMENTS] = [0; limit::ELEMENTS];
    for i in 0..counts[3] {
        lowest[usize::from(i)] = lowest_of_face(cell, edges, faces, i);
    }
    lowest
}
