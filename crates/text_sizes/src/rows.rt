// The lines of elements: their numbers counted and written down, and with them the sups of what they name counted.
ghost use Rattle.std.specs.Prelude.{◌≡◌, not, [], ◌∷◌, ℕ, ◌+◌, ◌*◌, ◌≤◌, ◌<◌, length, get_or, drop, IfOk};
ghost use Rattle.order.specs.Lists.{occurs};
ghost use Rattle.listing.specs.Answers.{plain, on};
ghost use Rattle.listing.specs.Listing.{width, limits};
ghost use Rattle.listing.specs.Refusals.{bad_line};
ghost use Rattle.listing.specs.Told.{told};
ghost use Rattle.listing_sups.specs.Sups.{Raised};
ghost use Rattle.text_theory.specs.Text.{subs_key};
ghost use Rattle.text_theory.specs.Said.{values_from, values, below_in};
ghost use Rattle.text_theory.specs.Digits.{good_row};
ghost use Rattle.text_lines.specs.Lines.{form_of};
ghost use Rattle.text_sizes.specs.Rows.{RowCounted};

use listing::{Index, Refusal};
use text_lines::lines;

// A row of numbers: how many there are; how many of them name an element; and the place after the newline.
#[derive(Clone, Copy)]
pub struct Row {
    pub count: usize,
    pub known: usize,
    pub next: usize,
}

// Raises the count of the element that x names, of n elements that are counted from place `from` on. Returns 1, or 0
// where it names none.
fn count_known(up: &mut [Index], from: usize, n: usize, x: usize) -> usize
    requires n_in_bounds { from + n ≤ length up.old }
    requires x_bound { x < n → get_or up.old (from + x) 0 + 1 < width }
    ensures raised { Raised from n (λ y. occurs y (x ∷ [])) up.old up.new }
    ensures value { (result ≡ below_in n (x ∷ [])) × (result ≤ 1) }
{
    if x < n {
        up[from + x] += 1;
        return 1;
    }
    0
}

// Counts the numbers of a row that begins at a place, and raises the count of each of n elements, from place `from`
// on, that one of them names. The numbers are written from place `to` of subs on: each takes two bytes of the text. Of
// the notes these two arrays are lent alone: of all four it would have to be said that the others stay as they are.
#[tactic(auto, using(crate::proofs::Tallies::rows))]
fn tally_row(
    text: &[u8],
    at: usize,
    up: &mut [Index],
    from: usize,
    n: usize,
    subs: &mut [Index],
    to: usize,
) -> Result<Row, Refusal>
    requires at_in_bounds { (at ≤ length text.now) × (length text.now ≤ limits.text) × (from + n ≤ length up.old) }
    requires to_bound { (2 * to ≤ at) × (length text.now ≤ 2 * length subs.old) }
    requires by_index { (k : ℕ) → get_or up.old k 0 < at }
    ensures test { told result ≡ on (not (good_row (values_from 0 (drop at text.now)) (drop at text.now)))
        (plain bad_line) }
    ensures counted { IfOk result (RowCounted text.now at (values_from 0 (drop at text.now)) from n to
        up.old up.new subs.old subs.new) }
{
    let mut count: usize = 0;
    let mut named: usize = 0;
    let mut i = at;
    // No `for`: where a number begins is known only when the one before it is read.
    while let Some(w) = lines::term_at(text, i) {
        subs[to + count] = w.value as Index;
        named += count_known(up, from, n, w.value);
        count += 1;
        if w.more {
            i = w.next;
        } else {
            return Ok(Row {
                count,
                known: named,
                next: w.next,
            });
        }
    }
    Err(Refusal::BadLine)
}

// The line of an element that begins at a place, counted and written so.
#[tactic(auto, using(crate::proofs::SubsLines::subs_line))]
pub fn tally_subs(
    text: &[u8],
    at: usize,
    up: &mut [Index],
    from: usize,
    n: usize,
    subs: &mut [Index],
    to: usize,
) -> Result<Row, Refusal>
    requires at_in_bounds { (at ≤ length text.now) × (length text.now ≤ limits.text) × (from + n ≤ length up.old) }
    requires to_bound { (2 * to ≤ at) × (length text.now ≤ 2 * length subs.old) }
    requires by_index { (k : ℕ) → get_or up.old k 0 < at }
    ensures test { told result ≡ form_of subs_key (values (drop (length subs_key) (drop at text.now)))
        (drop at text.now) }
    ensures counted { IfOk result (RowCounted text.now at (values (drop (length subs_key) (drop at text.now)))
        from n to up.old up.new subs.old subs.new) }
{
    if !lines::has_key(text, at, b"subs=") {
        return Err(Refusal::WrongKey);
    }
    let row = at + b"subs=".len();
    let Some(&first) = text.get(row) else {
        return Err(Refusal::BadLine);
    };
    if first == b'\n' {
        return Ok(Row {
            count: 0,
            known: 0,
            next: row + 1,
        });
    }
    tally_row(text, row, up, from, n, subs, to)
}
