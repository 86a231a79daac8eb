// Questions on products.
use listing::{Answer, Built, Index, Lengths, Refusal, Slices};
use listing_outputs::outputs;
use product::make;
use product_places::Poles;
use replay_reading::text;
use replay_saying::{room, say};
use std::io;

// Whether the line asks for a product and what the tests say of it: it begins with the word 'tested'. Questions are
// told apart by letters here, as where they are read.
fn is_tested(line: &[u8]) -> bool {
    text::letter(line, 0) == b't'
}

// Whether the line asks for a product and its text: it begins with the word 'written'.
fn is_written(line: &[u8]) -> bool {
    text::letter(line, 0) == b'w'
}

// The fifth letter of a product's name.
fn letter_of(line: &[u8]) -> u8 {
    if is_tested(line) {
        return text::letter(line, 11);
    }
    if is_written(line) {
        return text::letter(line, 12);
    }
    text::letter(line, 4)
}

// The product by that letter.
fn poles_of(letter: u8) -> Poles {
    match letter {
        b'r' => Poles::DUOPRISM,
        b'e' => Poles::DUOTEGUM,
        b'o' => Poles::DUOCOMB,
        _ => Poles::DUOPYRAMID,
    }
}

// What is_valid and closed say of a listing, and its counts.
fn tests(rt: &impl Print, slices: Slices<'_>) -> io::Result<()> {
    say::answer(rt, Answer::from(valid::is_valid(slices)))?;
    say::answer(rt, Answer::from(valid::closed(slices)))?;
    say::list(rt, slices.counts)
}

// What is asked besides of what a product wrote: what the tests say of it, or its text, with room of the fourth length.
fn besides(rt: &impl Print, line: &[u8], slices: Slices<'_>) -> io::Result<()> {
    if is_written(line) {
        replay_texts::write(rt, slices, u64::from(text::plain(line, 3)))
    } else {
        tests(rt, slices)
    }
}

// Whether more is asked than the product.
fn asks_more(line: &[u8]) -> bool {
    is_tested(line) || is_written(line)
}

// What a product answered and left in its slices: all of it or, where more is asked, that of what it wrote; of a
// refused one nothing then.
fn left(
    rt: &impl Print,
    line: &[u8],
    made: Result<Lengths, Refusal>,
    slices: Slices<'_>,
) -> io::Result<()> {
    say::built(rt, Built::from(made))?;
    if !asks_more(line) {
        return say::lists(rt, slices);
    }
    match made {
        Ok(n) => besides(rt, line, outputs::written(slices, n)),
        Err(_) => Ok(()),
    }
}

// The product that the line asks for, and what it left in the slices lent, one by one as `make` takes them.
fn product_in(
    rt: &impl Print,
    line: &[u8],
    p: Slices<'_>,
    q: Slices<'_>,
    counts: &mut [Index],
    ends: &mut [Index],
    inc: &mut [Index],
) -> io::Result<()> {
    let poles = poles_of(letter_of(line));
    let made = make::make(poles, p, q, &mut *counts, &mut *ends, &mut *inc);
    left(rt, line, made, Slices { counts, ends, inc })
}

// The product that the line asks for, with room of the lengths that it asks for, as far as there is so much.
pub fn product(rt: &impl Print, line: &[u8], p: Slices<'_>, q: Slices<'_>) -> io::Result<()> {
    room::for_listing(
        text::plain(line, 0),
        text::plain(line, 1),
        text::plain(line, 2),
        |counts, ends, inc| product_in(rt, line, p, q, counts, ends, inc),
    )
}
