// One vertex, and an edge that lists it twice.
use listing::Slices;

pub const CELL: Slices<'static> = Slices {
    counts: &[1, 1, 1, 1],
    ends: &[0, 1, 2, 3, 5, 6, 7, 7],
    inc: &[0, 0, 0, 0, 0, 0, 0],
};
