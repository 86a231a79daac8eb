// Questions on counts, on one cell, and on the number of a refusal; told apart by letters, as in `ask`.
use listing::{Answer, Index, Number, Refusal, Slices};
use replay_reading::text;
use replay_saying::say;
use std::io;

// The four counts by the fourth letter: rank, vertex_count, facet_count, el_count.
fn count_of(letter: u8, counts: &[Index], r: usize) -> Result<usize, Refusal> {
    match letter {
        b'k' => listing_shape::rank(counts),
        b't' => listing_shape::vertex_count(counts),
        b'e' => listing_shape::facet_count(counts),
        _ => listing_shape::el_count(counts, r),
    }
}

// A count.
pub fn count(rt: &impl Print, line: &[u8], counts: &[Index]) -> io::Result<()> {
    let r = text::plain(line, 0) as usize;
    let n = count_of(text::letter(line, 3), counts, r);
    say::count(rt, Number::from(n))
}

// The tests by the fourth letter: bounded, check_incidences, is_dyadic, closed, is_valid.
fn answer_of(letter: u8, slices: Slices<'_>) -> Answer {
    match letter {
        b'n' => Answer::from(valid::bounded(slices)),
        b'c' => Answer::from(valid::check_incidences(slices)),
        b'd' => Answer::from(valid::is_dyadic(slices)),
        b's' => Answer::from(valid::closed(slices)),
        _ => Answer::from(valid::is_valid(slices)),
    }
}

// A test.
pub fn test(rt: &impl Print, line: &[u8], slices: Slices<'_>) -> io::Result<()> {
    say::answer(rt, answer_of(text::letter(line, 3), slices))
}

// The class of a refusal's number.
pub fn class(rt: &impl Print, line: &[u8]) -> io::Result<()> {
    let band = listing_shape::class(text::narrow(text::plain(line, 0)));
    say::number(rt, u64::from(listing_shape::band_number(band)))
}
