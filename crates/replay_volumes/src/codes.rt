// Coordinates by their codes, since the lists of a line hold only numbers of 16 bits.
ghost use Rattle.std.specs.Prelude.{◌≡◌};
ghost use Rattle.replay_volumes.specs.Codes.{metres_for, MetresStored, Lendable};

use listing::Index;

// The code of 0 metres.
const ZERO: i64 = 2000;

// The coordinate of a code: whole metres up to 4000, then NaN, infinity and -infinity, a half, and -0.0.
fn metres_of(code: Index) -> f64
    ensures { result ≡ metres_for code }
{
    match code {
        0..=4000 => std::num::nearest_i64_to_f64(code as i64 - ZERO),
        4001 => 0.0 / 0.0,
        4002 => 1.0 / 0.0,
        4003 => -1.0 / 0.0,
        4004 => 0.5,
        _ => -0.0,
    }
}

// The coordinates of codes, into the start of a slice, as far as there is room; says how many it wrote.
pub fn put_metres(codes: &[Index], out: &mut [f64]) -> usize
    ensures metres_stored { MetresStored codes.now out.old out.new result }
    ensures lendable { Lendable result out.new }
{
    let n = codes.len().min(out.len());
    for i in 0..n {
        out[i] = metres_of(codes[i]);
    }
    n
}
