// The triangle with the edges {0,1}, {0,2}, {1,2}.
use listing::Slices;

pub const CELL: Slices<'static> = Slices {
    counts: &[1, 3, 3, 1],
    ends: &[0, 3, 4, 6, 7, 9, 10, 12, 14, 15, 17, 18, 20, 21, 24, 24],
    inc: &[
        0, 1, 2, 0, 0, 1, 0, 0, 2, 0, 1, 2, 0, 1, 0, 0, 2, 0, 1, 2, 0, 0, 1, 2,
    ],
};
