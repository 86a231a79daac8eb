// The numbers of the refusals. The C header gives them; they are used only where a `Refusal` becomes an `Answer`.

// Shape.
pub const NO_RANKS: u16 = 1;

pub const OVER_RANKS: u16 = 2;

pub const OVER_ELEMENTS: u16 = 3;

pub const WRONG_ENDS: u16 = 4;

pub const OVER_INCIDENCES: u16 = 5;

pub const FALLING_ENDS: u16 = 6;

// Structure.
pub const NOT_BOUNDED: u16 = 10;

pub const NO_SUBS: u16 = 11;

pub const NO_SUPS: u16 = 12;

pub const SUB_NOT_BACK: u16 = 13;

pub const SUP_NOT_BACK: u16 = 14;

pub const SUB_MISSING: u16 = 15;

pub const SUP_MISSING: u16 = 16;

pub const THIRD_BETWEEN: u16 = 17;

pub const LONE_BETWEEN: u16 = 18;

pub const NOT_ASCENDING: u16 = 19;

// Flags.
pub const NOT_A_FLAG: u16 = 20;

pub const OUTSIDE_RANKS: u16 = 21;

pub const MORE_FLAGS: u16 = 22;

pub const SEVERAL_PARTS: u16 = 25;

// Products.
pub const LEFT_INVALID: u16 = 30;

pub const RIGHT_INVALID: u16 = 31;

pub const COMB_OF_POINT: u16 = 32;

pub const PRODUCT_RANKS: u16 = 33;

pub const PRODUCT_ELEMENTS: u16 = 34;

pub const PRODUCT_INCIDENCES: u16 = 35;

pub const OUTPUT_SHORT: u16 = 36;

// Texts.
pub const WRONG_KEY: u16 = 40;

pub const BAD_LINE: u16 = 41;

pub const LONG_TEXT: u16 = 42;

pub const MORE_BYTES: u16 = 43;

pub const BYTES_SHORT: u16 = 44;

// Volumes.
pub const NOT_RANK_FOUR: u16 = 50;

pub const NOT_ORIENTABLE: u16 = 51;

pub const WRONG_COORDINATES: u16 = 52;

pub const NOT_IN_METRES: u16 = 53;
