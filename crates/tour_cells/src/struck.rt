// The triangle with edge 1 struck from vertex 0's sups.
use listing::Slices;

pub const CELL: Slices<'static> = Slices {
    counts: &[1, 3, 3, 1],
    ends: &[0, 3, 4, 5, 6, 8, 9, 11, 13, 14, 16, 17, 19, 20, 23, 23],
    inc: &[
        0, 1, 2, 0, 0, 0, 0, 2, 0, 1, 2, 0, 1, 0, 0, 2, 0, 1, 2, 0, 0, 1, 2,
    ],
};
