// Arrays to read into and to lend, full of the largest number, each a little larger than its limit, and how much of
// them is lent: no memory is asked for. The contract of an array fixes what is returned, and then gives the length,
// which lending it needs; that of an array by name says both in the limits.
ghost use Rattle.std.specs.Prelude.{◌≡◌, ◌≤◌, ◌+◌, ◌-◌, ◌*◌, min, length, take, replicate};
ghost use Rattle.listing.specs.Listing.{width, limits};
ghost use Rattle.replay_saying.specs.Room.{spare};

use listing::{Index, limit};
use std::io;

// How many more numbers an array has than its limit.
const SPARE: usize = 16;

// How long they are: those for counts or a flag, for ends, and for incidences;
const FEW: usize = limit::RANKS + SPARE;

const SOME: usize = 2 * limit::ELEMENTS + SPARE;

const MANY: usize = limit::INCIDENCES + SPARE;

// for flags, and their orientations;
const TABLE: usize = limit::RANKS * (limit::FLAGS + SPARE);

const BYTES: usize = limit::FLAGS + SPARE;

// for a text, and for one to be written: more than that of any closed listing has.
const TEXT: usize = limit::TEXT + SPARE;

pub const WRITTEN: usize = 2 * limit::TEXT;

// Room for numbers: no product or search writes those that it is full of.
#[tactic(auto, using(crate::proofs::Counting::repeated))]
pub fn numbers<const N: usize>() -> [Index; N]
    ensures value { result ≡ replicate N (width - 1) }
    ensures length { N ≡ length result }
{
    [listing::LARGEST; N]
}

// Room for bytes.
#[tactic(auto, using(crate::proofs::Counting::repeated))]
pub fn bytes<const N: usize>() -> [u8; N]
    ensures value { result ≡ replicate N 255 }
    ensures length { N ≡ length result }
{
    [u8::MAX; N]
}

// Room for counts, or for a flag.
pub fn few() -> [Index; FEW]
    ensures value { result ≡ replicate (limits.ranks + spare) (width - 1) }
    ensures length { limits.ranks + spare ≡ length result }
{
    numbers::<FEW>()
}

// Room for ends.
pub fn some() -> [Index; SOME]
    ensures value { result ≡ replicate (2 * limits.elements + spare) (width - 1) }
    ensures length { 2 * limits.elements + spare ≡ length result }
{
    numbers::<SOME>()
}

// Room for incidences.
pub fn many() -> [Index; MANY]
    ensures value { result ≡ replicate (limits.incidences + spare) (width - 1) }
    ensures length { limits.incidences + spare ≡ length result }
{
    numbers::<MANY>()
}

// Room for flags.
pub fn table() -> [Index; TABLE]
    ensures value { result ≡ replicate (limits.ranks * (limits.flags + spare)) (width - 1) }
    ensures length { limits.ranks * (limits.flags + spare) ≡ length result }
{
    numbers::<TABLE>()
}

// Room for orientations.
pub fn orientations() -> [u8; BYTES]
    ensures value { result ≡ replicate (limits.flags + spare) 255 }
    ensures length { limits.flags + spare ≡ length result }
{
    bytes::<BYTES>()
}

// Room for a text.
pub fn text() -> [u8; TEXT]
    ensures value { result ≡ replicate (limits.text + spare) 255 }
    ensures length { limits.text + spare ≡ length result }
{
    bytes::<TEXT>()
}

// Room for a text to be written.
pub fn written() -> [u8; WRITTEN]
    ensures value { result ≡ replicate (2 * limits.text) 255 }
    ensures length { 2 * limits.text ≡ length result }
{
    bytes::<WRITTEN>()
}

// So many items of a slice, or all if it has fewer.
pub fn within<T>(n: u64, room: &[T]) -> usize
    ensures value { result ≡ min n (length room.now) }
    ensures prefix_len { (result ≤ length room.now) × (result ≡ length (take result room.now)) }
{
    room.len().min(n as usize)
}

// Lends three slices of these lengths for a listing, as far as there is so much room. They stay apart while they are
// written: the entries take them so.
pub fn for_listing<F>(counts: u32, ends: u32, inc: u32, lend: F) -> io::Result<()>
where
    F: FnOnce(&mut [Index], &mut [Index], &mut [Index]) -> io::Result<()>,
    requires { F.IsAlwaysCallable lend }
{
    let mut to_counts = few();
    let mut to_ends = some();
    let mut to_inc = many();
    let c = within(u64::from(counts), &to_counts);
    let e = within(u64::from(ends), &to_ends);
    let i = within(u64::from(inc), &to_inc);
    lend(&mut to_counts[..c], &mut to_ends[..e], &mut to_inc[..i])
}

// Lends slices of these lengths for the flags of a search and their orientations, as far as there is so much room.
pub fn for_search<F>(table: u32, orientations: u32, lend: F) -> io::Result<()>
where
    F: FnOnce(&mut [Index], &mut [u8]) -> io::Result<()>,
    requires { F.IsAlwaysCallable lend }
{
    let mut flags = self::table();
    let mut odd = self::orientations();
    let t = within(u64::from(table), &flags);
    let o = within(u64::from(orientations), &odd);
    lend(&mut flags[..t], &mut odd[..o])
}
