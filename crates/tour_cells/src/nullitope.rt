// One element.
use listing::Slices;

pub const CELL: Slices<'static> = Slices {
    counts: &[1],
    ends: &[0, 0],
    inc: &[],
};
