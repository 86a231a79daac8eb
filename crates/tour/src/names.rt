// The names of the rows.
use crate::table::Name;

// Boxes.
pub const BOX: Name = "box";

pub const INSURERS_CELL: Name = "insurer's cell, edge 0 doubled";

pub const NO_LID: Name = "box without a lid";

pub const HEMICUBE: Name = "hemicube";

// Small cells.
pub const NULLITOPE: Name = "nullitope N";

pub const POINT: Name = "point P";

pub const DYAD: Name = "dyad D";

pub const TRIANGLE: Name = "triangle T";

// Products of them.
pub const PRISM_T_D: Name = "prism: duoprism(T, D)";

pub const PRISM_D_D: Name = "duoprism(D, D)";

pub const PYRAMID_D_P: Name = "duopyramid(D, P)";

pub const PRISM_N_T: Name = "duoprism(N, T)";

pub const TEGUM_D_D: Name = "duotegum(D, D)";

pub const COMB_D_D: Name = "duocomb(D, D)";

pub const COMB_D_T: Name = "duocomb(D, T)";

pub const COMB_P_P: Name = "duocomb(P, P)";

pub const COMB_T_T: Name = "duocomb(T, T)";

// Listings with a fault.
pub const TWO_SMALLEST: Name = "two smallest elements";

pub const STRUCK: Name = "T, edge 1 struck at vertex 0";

pub const THREE_VERTICES: Name = "edge with three vertices";

pub const ONE_VERTEX: Name = "edge with one vertex";

pub const VERTEX_TWICE: Name = "edge that lists a vertex twice";
