// How large the listing of a text is, and what is refused of the text, known before a number is written.
#![tactic(auto)]

pub mod measure;
pub mod notes;
pub mod rows;
