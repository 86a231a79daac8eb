// Coordinates in whole metres, and the determinant of three points.
#![tactic(auto)]

pub mod metres;
pub mod point;
