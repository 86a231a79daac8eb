// Reads a text from standard input, up to one byte past the limit, and prints closed= and the number that check_text
// answers: 0 where the text says a closed listing.
#![tactic(auto)]

use listing::{Answer, limit};
use std::io;

// So many bytes are read: one more than a text may have, so that a longer one is refused.
const ROOM: usize = limit::TEXT + 1;

fn main(rt: HostRuntime) -> io::Result<()> {
    let mut room: [u8; ROOM] = [0; ROOM];
    let n = lent_input::read_full(&mut rt.stdin(), &mut room);
    let checked = Answer::from(text::check_text(&room[..n]));
    rt.write_all(b"closed=")?;
    rt.print(checked.no)?;
    rt.write_all(b"\n")
}
