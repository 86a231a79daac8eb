// Two texts, one after another.
ghost use Rattle.std.specs.Prelude.{◌≡◌, ◌≤◌, ◌<◌, length, drop};
ghost use Rattle.cellbuild.specs.Two.{ends_text, first_of_two};

use text_lines::lines;

// Whether the byte at a place ends a text before another: a newline after which one begins.
#[tactic(auto, using(crate::proofs::Texts::ends))]
fn ends_text(both: &[u8], i: usize) -> bool
    requires { i < length both.now }
    ensures { result ≡ ends_text (drop i both.now) }
{
    both[i] == b'\n' && lines::has_key(both, i + 1, b"rank=")
}

// How many bytes belong to the first text.
#[tactic(auto, using(crate::proofs::Texts::firsts))]
pub fn first_of_two(both: &[u8]) -> usize
    ensures { (result ≡ first_of_two both.now) × (result ≤ length both.now) }
{
    for i in 0..both.len() {
        if ends_text(both, i) {
            return i + 1;
        }
    }
    both.len()
}
