// Two minimal elements and one maximal, with no incidences.
use listing::Slices;

pub const CELL: Slices<'static> = Slices {
    counts: &[2, 1],
    ends: &[0, 0, 0, 0, 0, 0],
    inc: &[],
};
