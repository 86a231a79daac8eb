// Questions on volumes, read from their lines and put to the library; the answers are printed, and returned is only
// whether they could be.
#![tactic(auto)]

pub mod codes;

ghost use Rattle.std.specs.Prelude.{◌≡◌, ◌+◌, ◌*◌, length};
ghost use Rattle.listing.specs.Listing.{limits};
ghost use Rattle.replay_saying.specs.Room.{spare};

use listing::{Index, Slices, limit};
use replay_reading::text;
use replay_saying::{room, say};
use std::io;
use volume::Measured;

// How many coordinates there is room for: three for each vertex, and a few more.
const COORDINATES: usize = 3 * limit::ELEMENTS + 16;

// The first number that 64 bits do not hold, 2 to the 64th.
const TOO_LARGE: f64 = 18446744073709551616.0;

// The digits of a whole number; a question mark for any number that is not whole, or negative, or too large.
fn digits(rt: &impl Print, x: f64) -> io::Result<()> {
    if x > -1.0 && x < TOO_LARGE {
        let n = std::num::truncating_f64_to_u64(x);
        if std::num::nearest_u64_to_f64(n) == x {
            return rt.print(n);
        }
    }
    rt.write_all(b"?")
}

// Whether a number has a minus sign, which -0.0 has too.
fn is_minus(x: f64) -> bool {
    x < 0.0 || 1.0 / x < 0.0
}

// A whole number with its sign, after a space.
fn signed(rt: &impl Print, x: f64) -> io::Result<()> {
    rt.write_all(b" ")?;
    if is_minus(x) {
        rt.write_all(b"-")?;
        return digits(rt, -x);
    }
    digits(rt, x)
}

// What is answered: the number of a refusal, and six times the volume.
fn measured(rt: &impl Print, m: Measured) -> io::Result<()> {
    say::number(rt, u64::from(m.no))?;
    signed(rt, m.six)
}

// Six times the volume, and what is then in the slices lent.
fn asked(
    rt: &impl Print,
    slices: Slices<'_>,
    first: &[Index],
    coordinates: &[f64],
    table: &mut [Index],
    odd: &mut [u8],
) -> io::Result<()> {
    let six = volume::six_volume(slices, first, coordinates, &mut *table, &mut *odd);
    measured(rt, Measured::from(six))?;
    say::list(rt, table)?;
    say::bytes(rt, odd)
}

// The same with the room that the line asks for, as far as there is so much.
fn with_room(
    rt: &impl Print,
    line: &[u8],
    slices: Slices<'_>,
    first: &[Index],
    coordinates: &[f64],
) -> io::Result<()> {
    room::for_search(text::plain(line, 0), text::plain(line, 1), |table, odd| {
        asked(rt, slices, first, coordinates, table, odd)
    })
}

// An array for the coordinates; the contract gives the length, which lending an array needs.
fn places() -> [f64; COORDINATES]
    ensures { 3 * limits.elements + spare ≡ length result }
{
    [0.0; COORDINATES]
}

// Six times the volume of a cell from a first flag, with the coordinates that the line gives by their codes.
pub fn six_volume(
    rt: &impl Print,
    line: &[u8],
    slices: Slices<'_>,
    first: &[Index],
) -> io::Result<()> {
    let mut codes = room::many();
    let mut coordinates = places();
    let n = text::list(line, 4, &mut codes);
    let m = codes::put_metres(&codes[..n], &mut coordinates);
    with_room(rt, line, slices, first, &coordinates[..m])
}
