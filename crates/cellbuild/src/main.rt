// Reads two texts, one after another, from standard input; builds the product of their cells that the first argument
// names; and writes its text. Where something is refused it writes one line: the number, and in words what it means.
#![tactic(auto)]

mod build;
mod kind;
mod say;
mod two;

use listing::limit;
use product_places::Poles;
use std::env::Env;
use std::io;

// So many bytes are read: one more of each text than it may have, so that a longer one is refused.
const ROOM: usize = 2 * (limit::TEXT + 1);

// So long is the name of a product at most, and of no product if it is longer.
const NAME: usize = 16;

// The two texts, told apart, and the product of their cells.
fn of_two(rt: &impl Print, poles: Poles, both: &[u8]) -> io::Result<()> {
    let at = two::first_of_two(both);
    build::of_texts(rt, poles, &both[..at], &both[at..])
}

// What standard input has.
fn of_input(rt: &(impl Input + Print), poles: Poles) -> io::Result<()> {
    let mut room: [u8; ROOM] = [0; ROOM];
    let n = lent_input::read_full(&mut rt.reader(), &mut room);
    of_two(rt, poles, &room[..n])
}

fn main(rt: HostRuntime) -> io::Result<()> {
    let mut name: [u8; NAME] = [0; NAME];
    let n = rt.arg(1, &mut name).unwrap_or(0);
    match kind::named(&name[..n]) {
        Some(poles) => of_input(&rt, poles),
        None => say::names(&rt),
    }
}
