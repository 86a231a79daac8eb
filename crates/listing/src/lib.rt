// Listings: cells in three lent slices. Here are their answers, refusals and limits, and how they are read.
#![tactic(auto)]

ghost use Rattle.listing.specs.Listing.{held, limits};
ghost use Rattle.listing.specs.Shape.{Shaped};

pub mod crossing;
pub mod limit;
pub mod numbers;
pub mod reading;

// A number of a listing: a count, an end, an index. Its width is `width` in specs/Listing. `as Index` stands where a
// contract bounds the number: `try_from` would need a refusal that cannot come.
pub type Index = u16;

// The largest number of a listing.
pub const LARGEST: Index = 65535;

// Three lent slices, of which nothing is known yet.
#[derive(Clone, Copy)]
pub struct Slices<'a> {
    pub counts: &'a [Index],
    pub ends: &'a [Index],
    pub inc: &'a [Index],
}

// Slices that have passed the shape test: they are a listing.
#[derive(Clone, Copy)]
pub struct Cell<'a> {
    pub slices: Slices<'a>,
    ghost shaped: { Shaped limits (held slices) },
}

// An element: its rank, and its index there.
#[derive(Clone, Copy)]
pub struct Element {
    pub rank: Index,
    pub index: Index,
}

// The two lists of an element: the elements one rank lower, and those one rank higher.
#[derive(Clone, Copy)]
pub enum Side {
    Subs,
    Sups,
}

// Why a listing, or what is asked of it, is refused. docs/REFUSALS.md gives the numbers.
#[derive(Clone, Copy)]
pub enum Refusal {
    // Shape.
    NoRanks,
    OverRanks,
    OverElements,
    WrongEnds,
    OverIncidences,
    FallingEnds,
    // Structure.
    NotBounded {
        smallest: Index,
        largest: Index,
    },
    Bare {
        of: Element,
        side: Side,
    },
    NotBack {
        of: Element,
        side: Side,
        entry: Index,
    },
    Missing {
        of: Element,
        side: Side,
        entry: Index,
    },
    ThirdBetween {
        low: Element,
        high: Element,
    },
    LoneBetween {
        low: Element,
        high: Element,
    },
    NotAscending {
        of: Element,
        side: Side,
    },
    // Flags.
    NotAFlag,
    OutsideRanks,
    MoreFlags,
    SeveralParts,
    // Products.
    LeftInvalid,
    RightInvalid,
    CombOfPoint,
    ProductRanks,
    ProductElements,
    ProductIncidences,
    OutputShort,
    // Texts.
    WrongKey,
    BadLine,
    LongText,
    MoreBytes,
    BytesShort,
    // Volumes.
    NotRankFour,
    NotOrientable,
    WrongCoordinates,
    NotInMetres,
}

// The class of a refusal.
#[derive(Clone, Copy)]
pub enum Band {
    Shape,
    Structure,
    Flags,
    Products,
}

// What a test answers: a refusal's number, 0 for none, and the fields that it carries.
#[repr(C)]
#[derive(Clone, Copy)]
pub struct Answer {
    pub no: u16,
    pub a: Index,
    pub b: Index,
    pub c: Index,
    pub d: Index,
}

// What a count answers: a refusal's number, 0 for none, and the count.
#[repr(C)]
#[derive(Clone, Copy)]
pub struct Number {
    pub no: u16,
    pub value: usize,
}

// How many numbers were written into each output slice: as wide as in the C record `Built`.
#[derive(Clone, Copy)]
pub struct Lengths {
    pub counts: u16,
    pub ends: u16,
    pub inc: u16,
}

// What a function that writes a listing answers: a refusal or 0, and how many numbers it wrote into each output slice.
#[repr(C)]
#[derive(Clone, Copy)]
pub struct Built {
    pub answer: Answer,
    pub counts: u16,
    pub ends: u16,
    pub inc: u16,
}
