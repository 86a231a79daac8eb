// From two texts to the text of a product. Each cell is read into arrays of its own and lent on, since no memory is
// asked for.
use crate::say;
use listing::{Index, Refusal, Slices, limit};
use listing_outputs::outputs;
use product::make;
use product_places::Poles;
use std::io;

// More bytes than the text of any closed listing has, so that it is the limit that refuses one.
const ROOM: usize = 2 * limit::TEXT;

// The text of a cell, or why it has none.
fn written(rt: &impl Print, slices: Slices<'_>) -> io::Result<()> {
    let mut text: [u8; ROOM] = [0; ROOM];
    match text::write_text(slices, &mut text) {
        Ok(n) => rt.write_all(&text[..n]),
        Err(why) => say::of_cell(rt, why, slices.counts),
    }
}

// Why a product is refused: where it is for a factor, with what is_valid says of it.
fn refused(rt: &impl Print, why: Refusal, p: Slices<'_>, q: Slices<'_>) -> io::Result<()> {
    match why {
        Refusal::LeftInvalid => say::of_factor(
            rt,
            why,
            "the first cell",
            valid::is_valid(p),
            p.counts,
        ),
        Refusal::RightInvalid => say::of_factor(
            rt,
            why,
            "the second cell",
            valid::is_valid(q),
            q.counts,
        ),
        _ => say::of_cell(rt, why, p.counts),
    }
}

// The product of two cells.
fn product(rt: &impl Print, poles: Poles, p: Slices<'_>, q: Slices<'_>) -> io::Result<()> {
    let mut counts: [Index; limit::RANKS] = [0; limit::RANKS];
    let mut ends: [Index; limit::ENDS] = [0; limit::ENDS];
    let mut inc: [Index; limit::INCIDENCES] = [0; limit::INCIDENCES];
    match make::make(poles, p, q, &mut counts, &mut ends, &mut inc) {
        Ok(n) => {
            let slices = Slices {
                counts: &counts,
                ends: &ends,
                inc: &inc,
            };
            written(rt, outputs::written(slices, n))
        }
        Err(why) => refused(rt, why, p, q),
    }
}

// Lends the cell in a text, which is called so; or says why there is none.
fn with_cell<F>(rt: &impl Print, said: &[u8], called: &str, lend: F) -> io::Result<()>
where
    F: FnOnce(Slices<'_>) -> io::Result<()>,
    requires { F.IsAlwaysCallable lend }
{
    let mut counts: [Index; limit::RANKS] = [0; limit::RANKS];
    let mut ends: [Index; limit::ENDS] = [0; limit::ENDS];
    let mut inc: [Index; limit::INCIDENCES] = [0; limit::INCIDENCES];
    match text::read_text(said, &mut counts, &mut ends, &mut inc) {
        Ok(n) => {
            let slices = Slices {
                counts: &counts,
                ends: &ends,
                inc: &inc,
            };
            lend(outputs::written(slices, n))
        }
        Err(why) => say::of_text(rt, called, why),
    }
}

// The product of the cells in two texts.
pub fn of_texts(rt: &impl Print, poles: Poles, first: &[u8], second: &[u8]) -> io::Result<()> {
    with_cell(rt, first, "the first text", |p| {
        with_cell(rt, second, "the second text", |q| {
            product(rt, poles, p, q)
        })
    })
}
