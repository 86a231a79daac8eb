// The elements of a cell, as an engineer names them.
use listing::{Element, Index};
use std::fmt;

// What an element of a rank is called.
#[derive(Drop)]
struct Kind(Index);

impl fmt::Display for Kind {
    fn fmt<W: fmt::Write>(&self, f: &mut fmt::Formatter<W>) -> fmt::Result {
        match self.0 {
            1 => f.write_str("vertex"),
            2 => f.write_str("edge"),
            3 => f.write_str("face"),
            4 => f.write_str("cell"),
            rank => write!(f, "rank {rank} element"),
        }
    }
}

// An element, by its name.
#[derive(Drop)]
pub struct Name(pub Element);

impl fmt::Display for Name {
    fn fmt<W: fmt::Write>(&self, f: &mut fmt::Formatter<W>) -> fmt::Result {
        let Element { rank, index } = self.0;
        if rank == 0 {
            f.write_str("the smallest element")
        } else {
            write!(f, "{} {index}", Kind(rank))
        }
    }
}

// What a refused section has of a rank, where it has a third element.
#[derive(Drop)]
pub struct MoreThanTwo(pub Index);

impl fmt::Display for MoreThanTwo {
    fn fmt<W: fmt::Write>(&self, f: &mut fmt::Formatter<W>) -> fmt::Result {
        if self.0 == 1 {
            f.write_str("more than two vertices")
        } else {
            write!(f, "more than two {}s", Kind(self.0))
        }
    }
}

// What it has of a rank, where it has a lone element.
#[derive(Drop)]
pub struct OnlyOne(pub Index);

impl fmt::Display for OnlyOne {
    fn fmt<W: fmt::Write>(&self, f: &mut fmt::Formatter<W>) -> fmt::Result {
        write!(f, "only one {}", Kind(self.0))
    }
}
