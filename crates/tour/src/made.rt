// Cells that are made as products of others.
use crate::table::Name;
use crate::{row, table};
use listing::{Index, Slices, limit};
use listing_outputs::outputs;
use product::make;
use product_places::Poles;
use std::io;

// So many elements and incidences there is room for: more than any product of the tour has.
const ELEMENTS: usize = 64;

const INCIDENCES: usize = 256;

// A product of two cells, with the name of its row.
#[derive(Clone, Copy)]
pub struct Product<'a> {
    pub name: Name,
    pub poles: Poles,
    pub p: Slices<'a>,
    pub q: Slices<'a>,
}

// What a product left in its slices, as a row.
pub fn show(rt: &impl Print, asked: Product<'_>) -> io::Result<()> {
    let mut counts: [Index; limit::RANKS] = [0; limit::RANKS];
    let mut ends: [Index; 2 * ELEMENTS] = [0; 2 * ELEMENTS];
    let mut inc: [Index; INCIDENCES] = [0; INCIDENCES];
    match make::make(
        asked.poles,
        asked.p,
        asked.q,
        &mut counts,
        &mut ends,
        &mut inc,
    ) {
        Ok(n) => {
            let slices = Slices {
                counts: &counts,
                ends: &ends,
                inc: &inc,
            };
            row::show(rt, asked.name, outputs::written(slices, n))
        }
        Err(why) => table::refused(rt, asked.name, why),
    }
}
