// Two vertices under an edge.
use listing::Slices;

pub const CELL: Slices<'static> = Slices {
    counts: &[1, 2, 1],
    ends: &[0, 2, 3, 4, 5, 6, 8, 8],
    inc: &[0, 1, 0, 0, 0, 0, 0, 1],
};
