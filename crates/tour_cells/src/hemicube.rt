// Half a box: 4 vertices, 6 edges, 3 faces, opposite elements taken for one.
use listing::Slices;

pub const CELL: Slices<'static> = Slices {
    counts: &[1, 4, 6, 3, 1],
    ends: &[
        0, 4, 5, 8, 9, 12, 13, 16, 17, 20, 22, 24, 26, 28, 30, 32, 34, 36, 38, 40, 42, 44, 48, 49,
        53, 54, 58, 59, 62, 62,
    ],
    inc: &[
        0, 1, 2, 3, 0, 0, 1, 2, 0, 0, 3, 4, 0, 1, 4, 5, 0, 2, 3, 5, 0, 1, 0, 1, 0, 2, 0, 2, 0, 3,
        1, 2, 1, 3, 0, 2, 1, 2, 1, 2, 2, 3, 0, 1, 0, 1, 3, 5, 0, 0, 2, 4, 5, 0, 1, 2, 3, 4, 0, 0,
        1, 2,
    ],
};
