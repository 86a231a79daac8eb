// A text written into a lent slice that has room for it: each function writes its part at a place, and returns the
// place after it.
ghost use Rattle.std.specs.Prelude.{◌≡◌, ◌+◌, ◌*◌, ◌≤◌, ◌<◌, length as size};
ghost use Rattle.order.specs.Lists.{over};
ghost use Rattle.listing.specs.Listing.{held, before};
ghost use Rattle.listing.specs.Layers.{layers};
ghost use Rattle.listing.specs.Written.{joined};
ghost use Rattle.text_theory.specs.Text.{numeral, parted, commas, line, line_bytes, rank_bytes, text_of};
ghost use Rattle.text_writing.specs.Writing.{lines_from, PutAt};

use crate::length;
use listing::{Cell, Index, Side};

// Writes the bytes of a key.
fn put_key(key: &[u8], text: &mut [u8], at: usize) -> usize
    requires { at + size key.now ≤ size text.old }
    ensures { PutAt key.now at text.old text.new result }
{
    let end = at + key.len();
    text[at..end].copy_from_slice(key);
    end
}

// Writes a number in decimal, from its last digit to its first.
#[tactic(auto, using(crate::proofs::Numbers::spelling))]
fn put_number(x: Index, text: &mut [u8], at: usize) -> usize
    requires { at + size (numeral x) ≤ size text.old }
    ensures { PutAt (numeral x) at text.old text.new result }
{
    let end = at + length::digits(x);
    let mut v = x;
    for p in (at + 1..end).rev() {
        text[p] = b'0' + (v % 10) as u8;
        v /= 10;
    }
    text[at] = b'0' + v as u8;
    end
}

// Writes numbers, each after a comma.
#[tactic(auto, using(crate::proofs::Rows::row_puts))]
fn put_more(list: &[Index], text: &mut [u8], at: usize) -> usize
    requires { at + size (parted list.now) ≤ size text.old }
    ensures { PutAt (parted list.now) at text.old text.new result }
{
    let mut p = at;
    for &x in list {
        text[p] = b',';
        p = put_number(x, text, p + 1);
    }
    p
}

// Writes numbers, parted by commas.
#[tactic(auto, using(crate::proofs::Rows::row_puts))]
fn put_row(list: &[Index], text: &mut [u8], at: usize) -> usize
    requires { at + size (commas list.now) ≤ size text.old }
    ensures { PutAt (commas list.now) at text.old text.new result }
{
    let Some((&first, more)) = list.split_first() else {
        return at;
    };
    let p = put_number(first, text, at);
    put_more(more, text, p)
}

// Writes a line.
#[tactic(auto, using(crate::proofs::Parts::line_parts))]
fn put_line(key: &[u8], list: &[Index], text: &mut [u8], at: usize) -> usize
    requires { at + size (line_bytes (line key.now list.now)) ≤ size text.old }
    ensures { PutAt (line_bytes (line key.now list.now)) at
        text.old text.new result }
{
    let from = put_key(key, text, at);
    let end = put_row(list, text, from);
    text[end] = b'\n';
    end + 1
}

// Writes the lines of the n elements from place here on.
fn put_elements(cell: Cell<'_>, here: usize, n: Index, text: &mut [u8], at: usize) -> usize
    requires here_bound { 2 * (here + n) ≤ size cell.slices.ends.now }
    requires n_bound { at + size (lines_from cell.slices.ends.now cell.slices.inc.now here n) ≤ size text.old }
    ensures { PutAt (lines_from cell.entry.slices.ends.now cell.entry.slices.inc.now here n) at
        text.old text.new result }
{
    let mut p = at;
    for i in 0..n {
        p = put_line(b"subs=", cell.side_of(here, i, Side::Subs), text, p);
    }
    p
}

// Writes the lines of rank r, which begins at place here.
fn put_rank(cell: Cell<'_>, here: usize, r: usize, text: &mut [u8], at: usize) -> usize
    requires here_value { (here ≡ before cell.slices.counts.now r) × (r < size cell.slices.counts.now) }
    requires r_bound { at + size (rank_bytes (layers (held cell.slices)) r) ≤ size text.old }
    ensures { PutAt (rank_bytes (layers (held cell.entry.slices)) r) at
        text.old text.new result }
{
    let counts = cell.slices.counts;
    let p = put_line(b"count=", &counts[r..r + 1], text, at);
    put_elements(cell, here, counts[r], text, p)
}

// Writes the lines of all ranks.
fn put_ranks(cell: Cell<'_>, text: &mut [u8], at: usize) -> usize
    requires { at + size (joined (rank_bytes (layers (held cell.slices))) (size cell.slices.counts.now))
        ≤ size text.old }
    ensures { PutAt
        (joined (rank_bytes (layers (held cell.entry.slices))) (size cell.entry.slices.counts.now)) at
        text.old text.new result }
{
    let mut p = at;
    let mut here: usize = 0;
    for (r, &count) in cell.slices.counts.iter().enumerate() {
        p = put_rank(cell, here, r, text, p);
        here += usize::from(count);
    }
    p
}

// Writes the text of a listing.
pub fn put_text(cell: Cell<'_>, text: &mut [u8])
    requires { size (text_of (layers (held cell.slices))) ≤ size text.old }
    ensures { text.new ≡ over (text_of (layers (held cell.entry.slices))) text.old }
{
    let rank = [(cell.slices.counts.len() - 1) as Index];
    let p = put_line(b"rank=", &rank, text, 0);
    put_ranks(cell, text, p);
}
