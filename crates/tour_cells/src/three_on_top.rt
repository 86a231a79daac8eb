// Three vertices under the top: a dyad with one vertex too many.
use listing::Slices;

pub const CELL: Slices<'static> = Slices {
    counts: &[1, 3, 1],
    ends: &[0, 3, 4, 5, 6, 7, 8, 9, 12, 12],
    inc: &[0, 1, 2, 0, 0, 0, 0, 0, 0, 0, 1, 2],
};
