// What is refused, on a line of its own: the number, and in words what it means.
use listing::{Answer, Index, Refusal};
use std::io;
use words::{Reason, Verdict};

// The number of a refusal.
fn number_of(why: Refusal) -> u16 {
    Answer::from(why).no
}

// A refusal of a text, which is called so.
pub fn of_text(rt: &impl Print, called: &str, why: Refusal) -> io::Result<()> {
    let number = number_of(why);
    println!(rt; "{number} {called}: {}", Reason::from(why))
}

// A refusal of a product, or of a cell that was built, with these counts.
pub fn of_cell(rt: &impl Print, why: Refusal, counts: &[Index]) -> io::Result<()> {
    let number = number_of(why);
    println!(rt; "{number} {}", Reason::of(why, counts))
}

// A refusal of a product for a factor, which is called so, with these counts and what is_valid says of it.
pub fn of_factor(
    rt: &impl Print,
    why: Refusal,
    called: &str,
    valid: Result<(), Refusal>,
    counts: &[Index],
) -> io::Result<()> {
    let number = number_of(why);
    let verdict = Verdict::of(valid.err(), counts);
    println!(rt; "{number} {called} is not valid: {verdict}")
}

// How the program is called.
pub fn names(rt: &impl Eprint) -> io::Result<()> {
    rt.eprintln(
        "cellbuild PRODUCT: duopyramid, duoprism, duotegum or duocomb, of two texts on standard input",
    )
}
