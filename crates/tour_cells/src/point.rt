// A vertex.
use listing::Slices;

pub const CELL: Slices<'static> = Slices {
    counts: &[1, 1],
    ends: &[0, 1, 2, 2],
    inc: &[0, 0],
};
