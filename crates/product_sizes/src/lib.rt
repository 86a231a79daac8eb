// How large a product is, known before a number is written, and whether that is within the limits and the room. No
// entries: the functions in the module ask for factors that is_valid accepts.
#![tactic(auto)]

pub mod sizes;
