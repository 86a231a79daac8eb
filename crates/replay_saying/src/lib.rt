// Answers as text: numbers, lists and flags, printed; and the arrays that are lent for them. The functions of `say`
// return only whether they could print.
#![tactic(auto)]

pub mod room;
pub mod say;
