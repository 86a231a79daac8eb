// A tour: the tests and the products on cells by name, a row of a table for each.
#![tactic(auto)]

mod made;
mod names;
mod row;
mod table;

use listing::Slices;
use made::Product;
use product_places::Poles;
use std::io;
use table::Name;
use tour_cells::{
    dyad, hemicube, leaking_box, lidless_box, nullitope, one_on_top, point, struck, three_on_top,
    triangle, twice_listed, two_minimal, whole_box,
};

// A cell, with the name of its row.
#[derive(Clone, Copy)]
struct Sample<'a> {
    name: Name,
    slices: Slices<'a>,
}

// A box; the insurer's cell, a box with an edge too many, which lies in one face only; a box with a face too few; half
// of a box, its opposite elements taken for one.
const BOXES: [Sample<'static>; 4] = [
    Sample {
        name: names::BOX,
        slices: whole_box::CELL,
    },
    Sample {
        name: names::INSURERS_CELL,
        slices: leaking_box::CELL,
    },
    Sample {
        name: names::NO_LID,
        slices: lidless_box::CELL,
    },
    Sample {
        name: names::HEMICUBE,
        slices: hemicube::CELL,
    },
];

// The nullitope, the point, the dyad and the triangle.
const SMALL: [Sample<'static>; 4] = [
    Sample {
        name: names::NULLITOPE,
        slices: nullitope::CELL,
    },
    Sample {
        name: names::POINT,
        slices: point::CELL,
    },
    Sample {
        name: names::DYAD,
        slices: dyad::CELL,
    },
    Sample {
        name: names::TRIANGLE,
        slices: triangle::CELL,
    },
];

// Products of these.
const PRODUCTS: [Product<'static>; 9] = [
    Product {
        name: names::PRISM_T_D,
        poles: Poles::DUOPRISM,
        p: triangle::CELL,
        q: dyad::CELL,
    },
    Product {
        name: names::PRISM_D_D,
        poles: Poles::DUOPRISM,
        p: dyad::CELL,
        q: dyad::CELL,
    },
    Product {
        name: names::PYRAMID_D_P,
        poles: Poles::DUOPYRAMID,
        p: dyad::CELL,
        q: point::CELL,
    },
    Product {
        name: names::PRISM_N_T,
        poles: Poles::DUOPRISM,
        p: nullitope::CELL,
        q: triangle::CELL,
    },
    Product {
        name: names::TEGUM_D_D,
        poles: Poles::DUOTEGUM,
        p: dyad::CELL,
        q: dyad::CELL,
    },
    Product {
        name: names::COMB_D_D,
        poles: Poles::DUOCOMB,
        p: dyad::CELL,
        q: dyad::CELL,
    },
    Product {
        name: names::COMB_D_T,
        poles: Poles::DUOCOMB,
        p: dyad::CELL,
        q: triangle::CELL,
    },
    Product {
        name: names::COMB_P_P,
        poles: Poles::DUOCOMB,
        p: point::CELL,
        q: point::CELL,
    },
    Product {
        name: names::COMB_T_T,
        poles: Poles::DUOCOMB,
        p: triangle::CELL,
        q: triangle::CELL,
    },
];

// Listings with a fault: two smallest elements; a triangle with an entry of one of its lists struck out; three vertices
// under one edge; one vertex under one edge; an edge with the same vertex twice in its list.
const FAULTY: [Sample<'static>; 5] = [
    Sample {
        name: names::TWO_SMALLEST,
        slices: two_minimal::CELL,
    },
    Sample {
        name: names::STRUCK,
        slices: struck::CELL,
    },
    Sample {
        name: names::THREE_VERTICES,
        slices: three_on_top::CELL,
    },
    Sample {
        name: names::ONE_VERTEX,
        slices: one_on_top::CELL,
    },
    Sample {
        name: names::VERTEX_TWICE,
        slices: twice_listed::CELL,
    },
];

// A row for each of some cells.
fn rows(rt: &impl Print, samples: &[Sample<'_>]) -> io::Result<()> {
    for s in samples {
        row::show(rt, s.name, s.slices)?;
    }
    Ok(())
}

// A row for each of some products.
fn products(rt: &impl Print, asked: &[Product<'_>]) -> io::Result<()> {
    for &product in asked {
        made::show(rt, product)?;
    }
    Ok(())
}

// What comes before the table, with the heads of its columns.
fn headline(rt: &impl Print) -> io::Result<()> {
    rt.print(
        "Is the cell closed, and one body? is_valid is the old test; closed also looks at the cell as a whole.
Elements are counted by rank, from the smallest element to the whole. Refusals: docs/REFUSALS.md.

cell                            elements       is_valid  flags  orientable  closed, one body
",
    )
}

// What the table shows.
fn last_words(rt: &impl Print) -> io::Result<()> {
    rt.print(
        "
What let the insurer's cell through: is_valid asks for two elements in between only below the cell
itself, so an edge that lies in only one of its faces goes unseen; closed asks up to the cell itself.
Products keep cells closed: a product of two closed cells is closed again, which is proved once for
all four, and the one exception is the duocomb of two dyads. A product of two cells that are one body
is one body too, the duocomb only from polygons on: duocomb(D, T) is two separate parts, two triangles
under one top.
",
    )
}

fn main(rt: HostRuntime) -> io::Result<()> {
    headline(&rt)?;
    rows(&rt, &BOXES)?;
    println!(rt)?;
    rows(&rt, &SMALL)?;
    products(&rt, &PRODUCTS)?;
    println!(rt)?;
    rows(&rt, &FAULTY)?;
    last_words(&rt)
}
