// Where the elements of a product stand, and numbers written there: how many pairs come before others, and one element
// with its subs and ends, at a place of lent slices.
#![tactic(auto)]

pub mod block;
pub mod put;

// Which product it is: where min is set the minimal elements are left out of the pairs and one is added again, and
// where max is set the maximal ones.
#[derive(Clone, Copy)]
pub struct Poles {
    pub min: bool,
    pub max: bool,
}

impl Poles {
    // All pairs, none left out.
    pub const DUOPYRAMID: Poles = Poles {
        min: false,
        max: false,
    };

    // The pairs without minimal elements, and one added.
    pub const DUOPRISM: Poles = Poles {
        min: true,
        max: false,
    };

    // The pairs without maximal elements, and one added.
    pub const DUOTEGUM: Poles = Poles {
        min: false,
        max: true,
    };

    // The pairs without minimal and maximal elements, and one of each added.
    pub const DUOCOMB: Poles = Poles {
        min: true,
        max: true,
    };
}
