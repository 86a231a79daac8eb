// What is noted down of a text while it is read. Its listing is written from these notes, and the text is not read
// again.
use listing::{Index, limit};

#[derive(Drop)]
pub struct Notes {
    // how many sups each element has, as far as the lines that were read tell
    pub up: [Index; limit::ELEMENTS],
    // how many elements each rank has
    pub counts: [Index; limit::RANKS],
    // how many subs each element has
    pub many: [Index; limit::ELEMENTS],
    // the subs of all elements, one after another
    pub subs: [Index; limit::INCIDENCES],
}
