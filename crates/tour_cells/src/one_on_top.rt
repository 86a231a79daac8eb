// One vertex under the top: a dyad with one vertex too few.
use listing::Slices;

pub const CELL: Slices<'static> = Slices {
    counts: &[1, 1, 1],
    ends: &[0, 1, 2, 3, 4, 4],
    inc: &[0, 0, 0, 0],
};
