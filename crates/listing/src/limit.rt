// How much a listing, a search over it, and its text may hold.
pub const RANKS: usize = 16;

pub const ELEMENTS: usize = 4096;

// Two for each element.
pub const ENDS: usize = 8192;

pub const INCIDENCES: usize = 32768;

pub const FLAGS: usize = 16384;

// The bytes of a text.
pub const TEXT: usize = 65536;
