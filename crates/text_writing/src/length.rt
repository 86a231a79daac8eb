// How long a text is, before a byte of it is written: a number, a row of numbers, a line, the lines of a rank, all.
ghost use Rattle.std.specs.Prelude.{◌≡◌, ◌*◌, ◌≤◌, ◌<◌, length};
ghost use Rattle.listing.specs.Listing.{held, width, before};
ghost use Rattle.listing.specs.Layers.{layers};
ghost use Rattle.text_theory.specs.Text.{numeral, commas, line, line_bytes, rank_bytes, text_of};

use listing::{Cell, Index, Side};

// How many digits a number has.
#[tactic(auto, using(crate::proofs::Numbers::digit_counts))]
pub fn digits(x: Index) -> usize
    ensures { (result ≡ length (numeral x)) × (result ≤ 5) }
{
    if x < 10 {
        return 1;
    }
    if x < 100 {
        return 2;
    }
    if x < 1000 {
        return 3;
    }
    if x < 10000 {
        return 4;
    }
    5
}

// How long numbers are, parted by commas: each with its comma, less the first comma.
#[tactic(auto, using(crate::proofs::Rows::row_lengths))]
fn row_length(list: &[Index]) -> usize
    requires { length list.now < width }
    ensures { (result ≡ length (commas list.now)) × (result < 6 * width) }
{
    let mut n: usize = 0;
    for &x in list {
        n += 1 + digits(x);
    }
    n.saturating_sub(1)
}

// How long a line is.
#[tactic(auto, using(crate::proofs::Parts::line_parts))]
fn line_length(key: &[u8], list: &[Index]) -> usize
    requires { (length key.now < width) × (length list.now < width) }
    ensures { (result ≡ length (line_bytes (line key.now list.now))) × (result < 8 * width) }
{
    key.len() + row_length(list) + 1
}

// How long the lines of rank r are, which begins at place here.
#[tactic(auto, using(crate::proofs::Ranks::rank_lengths))]
fn rank_length(cell: Cell<'_>, here: usize, r: usize) -> usize
    requires { (here ≡ before cell.slices.counts.now r) × (r < length cell.slices.counts.now) }
    ensures { (result ≡ length (rank_bytes (layers (held cell.entry.slices)) r))
        × (result ≤ width * (8 * width)) }
{
    let counts = cell.slices.counts;
    let mut n = line_length(b"count=", &counts[r..r + 1]);
    for i in 0..counts[r] {
        n += line_length(b"subs=", cell.side_of(here, i, Side::Subs));
    }
    n
}

// How long the text of a listing is.
#[tactic(auto, using(crate::proofs::Ranks::text_lengths))]
pub fn text_length(cell: Cell<'_>) -> usize
    ensures { result ≡ length (text_of (layers (held cell.entry.slices))) }
{
    let counts = cell.slices.counts;
    let rank = [(counts.len() - 1) as Index];
    let mut n = line_length(b"rank=", &rank);
    let mut here: usize = 0;
    for (r, &count) in counts.iter().enumerate() {
        n += rank_length(cell, here, r);
        here += usize::from(count);
    }
    n
}
