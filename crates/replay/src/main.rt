// Answers a list of questions, read from standard input, a line each: the line, then ' = ' and the answer. Lines that
// are empty or begin with '#' come back as they are. The lines expected are answers of the Rust program, and answers
// by the rules where the Rust has none.
#![tactic(auto)]

mod ask;
mod bodies;
mod cell;
mod flags;

ghost use Rattle.std.specs.Prelude.{◌≡◌, length};

use replay_reading::text;
use replay_saying::room;
use std::io;

// So many bytes there is room for.
const TEXT: usize = 524288;

// Whether a line asks something: it is not empty and no comment.
fn is_question(line: &[u8]) -> bool {
    !line.is_empty() && line[0] != b'#'
}

// One line, answered.
fn line(rt: &impl Print, text: &[u8]) -> io::Result<()> {
    rt.write_all(text)?;
    if is_question(text) {
        rt.write_all(b" =")?;
        ask::ask(rt, text)?;
    }
    rt.write_all(b"\n")
}

// All lines.
fn all(rt: &impl Print, text: &[u8]) -> io::Result<()> {
    let mut at = 0;
    // No `for`: `split` would give one line more, an empty one, at the end.
    while at < text.len() {
        let end = text::find(text, at, b'\n');
        line(rt, &text[at..end])?;
        at = end + 1;
    }
    Ok(())
}

// An array for the text; the contract gives the length, which lending an array needs.
fn room_for_text() -> [u8; TEXT]
    ensures { 524288 ≡ length result }
{
    room::bytes::<TEXT>()
}

fn main(rt: HostRuntime) -> io::Result<()> {
    let mut text = room_for_text();
    let n = lent_input::read_full(&mut rt.stdin(), &mut text);
    all(&rt, &text[..n])
}
