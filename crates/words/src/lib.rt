// What is refused, in words: those of docs/REFUSALS.md, with the elements named as an engineer names them.
#![tactic(auto)]

mod element;
mod sentence;

use element::{MoreThanTwo, Name, OnlyOne};
use listing::{Answer, Element, Index, Refusal, Side};
use std::fmt;

// Why a listing of rank top, or what is asked of it, is refused.
#[derive(Clone, Copy)]
pub struct Reason {
    why: Refusal,
    top: usize,
}

// A refusal that is not one of a listing's structure: there is no top to name.
impl From<Refusal> for Reason {
    fn from(why: Refusal) -> Self {
        Reason { why, top: 0 }
    }
}

// The same, and then its number.
#[derive(Drop)]
pub struct Numbered(pub Reason);

// What a test says: that it accepts, or why it refuses.
#[derive(Drop)]
pub struct Verdict(Option<Reason>);

// The element that an entry of an element names: it lies one rank lower or higher.
fn entered(of: Element, side: Side, entry: Index) -> Element {
    let rank = match side {
        Side::Subs => of.rank.wrapping_sub(1),
        Side::Sups => of.rank.wrapping_add(1),
    };
    Element { rank, index: entry }
}

// What an entry of a list is called.
fn entry_of(side: Side) -> &'static str {
    match side {
        Side::Subs => "sub",
        Side::Sups => "sup",
    }
}

// Where the elements of a list lie.
fn place_of(side: Side) -> &'static str {
    match side {
        Side::Subs => "under",
        Side::Sups => "over",
    }
}

impl Reason {
    // Why a listing with these counts is refused.
    pub fn of(why: Refusal, counts: &[Index]) -> Self {
        let top = listing_shape::rank(counts).unwrap_or(0);
        Reason { why, top }
    }

    // A section without two elements between its ends: what its upper end has over the smallest element, or else what
    // its lower end lies in. An upper end of rank top is the whole cell, and goes without saying.
    fn section<W: fmt::Write, D: fmt::Display + Drop>(
        &self,
        f: &mut fmt::Formatter<W>,
        low: Element,
        high: Element,
        between: D,
    ) -> fmt::Result {
        if low.rank == 0 {
            write!(f, "{} has {between}", Name(high))
        } else if usize::from(high.rank) == self.top {
            write!(f, "{} lies in {between}", Name(low))
        } else {
            write!(f, "{} lies in {between} of {}", Name(low), Name(high))
        }
    }
}

impl fmt::Display for Reason {
    fn fmt<W: fmt::Write>(&self, f: &mut fmt::Formatter<W>) -> fmt::Result {
        match self.why {
            Refusal::NotBounded { smallest, largest } => {
                write!(f, "{smallest} smallest and {largest} largest elements")
            }
            Refusal::Bare { of, side } => {
                write!(f, "{} has nothing {} it", Name(of), place_of(side))
            }
            Refusal::NotBack { of, side, entry } => {
                let other = entered(of, side, entry);
                write!(f, "{} does not list {} back", Name(other), Name(of))
            }
            Refusal::Missing { of, side, entry } => {
                let called = entry_of(side);
                write!(f, "{} lists {called} {entry}, which is missing", Name(of))
            }
            Refusal::ThirdBetween { low, high } => {
                self.section(f, low, high, MoreThanTwo(low.rank.wrapping_add(1)))
            }
            Refusal::LoneBetween { low, high } => {
                self.section(f, low, high, OnlyOne(low.rank.wrapping_add(1)))
            }
            Refusal::NotAscending { of, side } => {
                write!(f, "the {}s of {} do not ascend", entry_of(side), Name(of))
            }
            why => f.write_str(sentence::of(why)),
        }
    }
}

impl fmt::Display for Numbered {
    fn fmt<W: fmt::Write>(&self, f: &mut fmt::Formatter<W>) -> fmt::Result {
        write!(f, "{} ({})", self.0, Answer::from(self.0.why).no)
    }
}

impl Verdict {
    // What a test of a listing with these counts says.
    pub fn of(why: Option<Refusal>, counts: &[Index]) -> Self {
        Verdict(why.map(|why| Reason::of(why, counts)))
    }
}

impl fmt::Display for Verdict {
    fn fmt<W: fmt::Write>(&self, f: &mut fmt::Formatter<W>) -> fmt::Result {
        match self.0 {
            None => f.write_str("accepts"),
            Some(reason) => write!(f, "{}", Numbered(reason)),
        }
    }
}
