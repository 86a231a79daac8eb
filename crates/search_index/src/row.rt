// Flags in a table, one after another: a row for each, which is as wide as the cell has ranks. That is known only when
// it runs, so that the width stands beside the table.
ghost use Rattle.std.specs.Prelude.{◌≡◌, ◌+◌, ◌*◌, ◌/◌, ◌≤◌, ◌<◌, min, length};
ghost use Rattle.std.proofs.Math.Seq.{paste};
ghost use Rattle.listing.specs.Listing.{limits};
ghost use Rattle.search_index.specs.Rows.{same_list, row_of};

use listing::{Index, limit};

// How many flags there is room for: the whole rows of w numbers in a table, the bytes, and the limit.
pub fn room_of(table: usize, bytes: usize, w: usize) -> usize
    requires { 0 < w }
    ensures { result ≡ min (min (table / w) bytes) limits.flags }
{
    (table / w).min(bytes).min(limit::FLAGS)
}

// Row k of a table with w numbers a row.
#[tactic(auto, using(crate::proofs::Rows::row_between))]
pub fn row_at<'a>(table: &'a [Index], k: usize, w: usize) -> &'a [Index]
    requires { k * w + w ≤ length table.now }
    ensures { result.now ≡ row_of w table.now k }
{
    let from = k * w;
    &table[from..from + w]
}

// Whether the flag stands in row k. Number by number, and not by `==` of slices: that reads several numbers at once,
// and has to wait for the one that was just written.
#[tactic(auto, using(crate::proofs::Rows::compared))]
pub fn same_row(table: &[Index], k: usize, flag: &[Index]) -> bool
    requires { k * length flag.now + length flag.now ≤ length table.now }
    ensures { result ≡ same_list (row_of (length flag.now) table.now k) flag.now }
{
    let row = row_at(table, k, flag.len());
    for (j, &x) in flag.iter().enumerate() {
        if row[j] != x {
            return false;
        }
    }
    true
}

// The flag is written into row k.
pub fn put_row(table: &mut [Index], k: usize, flag: &[Index])
    requires { k * length flag.now + length flag.now ≤ length table.old }
    ensures { table.new ≡ paste table.old (k * length flag.now) flag.now (length flag.now) }
{
    let from = k * flag.len();
    // Number by number: the library's copy would have the archive need `memmove` from outside.
    for j in 0..flag.len() {
        table[from + j] = flag[j];
    }
}
