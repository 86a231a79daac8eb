// The text in the quotes of a line: pieces one after another, each perhaps with a star after it and how often it stands
// there, where \n in a piece is a newline. Nothing else is escaped: "x"*3"\n" is xxx and a newline.
ghost use Rattle.std.specs.Prelude.{◌≡◌, [], ◌∷◌, ◌≤◌, length};
ghost use Rattle.lent_input.specs.Counts.{IsPrefixLen};
ghost use Rattle.replay_reading.specs.Text.{Stored};
ghost use Rattle.replay_texts.specs.Quoted.{unescaped, times_said, copies, quoted_in};

use replay_reading::text as reading;

const QUOTE: u8 = b'"';

const ESCAPE: u8 = b'\\';

// Writes a byte at a place, if that is inside, and says where it stopped.
#[tactic(auto, using(replay_reading::proofs::Stores::sets_out))]
fn put_byte(out: &mut [u8], at: usize, b: u8) -> usize
    requires { at ≤ length out.old }
    ensures { Stored (b ∷ []) at out.old out.new result }
{
    if at < out.len() {
        out[at] = b;
        return at + 1;
    }
    at
}

// Writes what a piece stands for from a place on, as far as there is room, and says where it stopped.
fn put_once(piece: &[u8], out: &mut [u8], from: usize) -> usize
    requires { from ≤ length out.old }
    ensures { Stored (unescaped piece.now) from out.old out.new result }
{
    let mut n = from;
    let mut i = 0;
    // No `for`: an escape and the byte after it are one step.
    while i < piece.len() {
        let b = piece[i];
        if b == ESCAPE {
            n = put_byte(&mut *out, n, b'\n');
            i += 2;
        } else {
            n = put_byte(&mut *out, n, b);
            i += 1;
        }
    }
    n
}

// The same as often as asked.
fn put_times(piece: &[u8], times: u32, out: &mut [u8], from: usize) -> usize
    requires { from ≤ length out.old }
    ensures { Stored (copies times (unescaped piece.now)) from out.old out.new result }
{
    let mut n = from;
    for _ in 0..times {
        n = put_once(piece, &mut *out, n);
    }
    n
}

// How often a piece stands there, by what follows it.
#[tactic(auto, using(crate::proofs::Pieces::times))]
fn times_of(rest: &[u8]) -> u32
    ensures { result ≡ times_said rest.now }
{
    match rest {
        [b'*', said @ ..] => reading::number_at(said, 0),
        _ => 1,
    }
}

// The text in the quotes of a line, into the start of a slice, as far as there is room; says how many bytes it wrote.
pub fn put_text(line: &[u8], out: &mut [u8]) -> usize
    ensures stored { Stored (quoted_in line.now) 0 out.old out.new result }
    ensures prefix_len { IsPrefixLen result out.new }
{
    let mut n = 0;
    let mut from = 0;
    // No `for`: each pair of quotes is looked for behind the one before it.
    loop {
        let quote = reading::find(line, from, QUOTE);
        if quote == line.len() {
            return n;
        }
        let at = quote + 1;
        let end = reading::find(line, at, QUOTE);
        if end == line.len() {
            return n;
        }
        let after = end + 1;
        let next = reading::find(line, after, QUOTE);
        let times = times_of(&line[after..next]);
        n = put_times(&line[at..end], times, &mut *out, n);
        from = next;
    }
}
