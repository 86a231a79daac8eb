// A table of cells, a row for each: its name, its elements by rank, is_valid, flags, orientable, closed and one body.
use listing::{Index, Refusal, reading};
use search::Found;
use std::{fmt, io};
use words::{Numbered, Reason, Verdict};

// The name of a row.
pub type Name = &'static str;

// So many ranks have a column.
const COLUMNS: usize = 5;

// How many elements there are at each rank that has a column; blanks for the ranks that are not there.
#[derive(Drop)]
struct Elements<'a>(&'a [Index]);

impl fmt::Display for Elements<'_> {
    fn fmt<W: fmt::Write>(&self, f: &mut fmt::Formatter<W>) -> fmt::Result {
        for r in 0..COLUMNS {
            match reading::count_at(self.0, r) {
                0 => f.write_str("   ")?,
                n => write!(f, "{n:>2} ")?,
            }
        }
        Ok(())
    }
}

// How many flags there are, if they were counted, and whether the cell is orientable.
#[derive(Drop)]
struct Flags(Option<Found>);

impl fmt::Display for Flags {
    fn fmt<W: fmt::Write>(&self, f: &mut fmt::Formatter<W>) -> fmt::Result {
        match self.0 {
            Some(found) => {
                let orientable = if found.place == 0 { "yes" } else { "no" };
                write!(f, "{:>3}  {orientable:<12}", found.count)
            }
            None => write!(f, "{:>3}  {:<12}", "-", "-"),
        }
    }
}

// A cell: its counts, whether is_valid accepts it, its flags if they were counted, and what one_body answers.
pub fn row(
    rt: &impl Print,
    name: Name,
    counts: &[Index],
    accepts: bool,
    body: Result<Found, Refusal>,
) -> io::Result<()> {
    let valid = if accepts { "accepts" } else { "refuses" };
    let flags = Flags(body.ok());
    let verdict = Verdict::of(body.err(), counts);
    println!(rt;
        "{name:<30} {} {valid:<12}{flags}{verdict}",
        Elements(counts)
    )
}

// A cell that was not made: there is nothing to count or to test.
pub fn refused(rt: &impl Print, name: Name, why: Refusal) -> io::Result<()> {
    let reason = Numbered(Reason::from(why));
    println!(rt;
        "{name:<30} {:<15} {:<12}{}{reason}",
        " -",
        "-",
        Flags(None)
    )
}
