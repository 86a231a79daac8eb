// Answers as text. A list of more than 300 numbers is given by its length, its sum and its check number.
ghost use Rattle.std.specs.Prelude.{◌≡◌, ◌*◌, length};
ghost use Rattle.listing.specs.Listing.{limits};
ghost use Rattle.lent_input.specs.Counts.{IsPrefixLen};

use crate::room;
use crate::room::WRITTEN;
use listing::{Answer, Built, Index, Number, Slices, limit};
use std::{fmt, io};

// Lists up to this length are written out.
const LONGEST: usize = 300;

// The check number of a list is made by c := (FACTOR c + x + 1) mod MODULUS, from 0, over its numbers x in order.
const FACTOR: u64 = 257;

const MODULUS: u64 = 4294967291;

// A number after a space.
pub fn number(rt: &impl Print, n: u64) -> io::Result<()> {
    print!(rt; " {n}")
}

// The five numbers of an answer.
pub fn answer(rt: &impl Print, a: Answer) -> io::Result<()> {
    print!(rt; " {} {} {} {} {}", a.no, a.a, a.b, a.c, a.d)
}

// What is answered of a listing that is written: the numbers of the answer, and how long its lists are.
pub fn built(rt: &impl Print, b: Built) -> io::Result<()> {
    answer(rt, b.answer)?;
    print!(rt; " {} {} {}", b.counts, b.ends, b.inc)
}

// The two numbers of a count.
pub fn count(rt: &impl Print, n: Number) -> io::Result<()> {
    print!(rt; " {} {}", n.no, n.value)
}

// A sign.
pub fn sign(rt: &impl Print, x: f64) -> io::Result<()> {
    rt.print(if x == 1.0 { " 1" } else { " -1" })
}

// One number more in a check number.
fn mixed(c: u64, x: Index) -> u64 {
    ((c % MODULUS) * FACTOR + u64::from(x) + 1) % MODULUS
}

// A long list: length, sum and check number.
fn digest(rt: &impl Print, list: &[Index]) -> io::Result<()> {
    let mut sum = 0u64;
    let mut check = 0u64;
    for &x in list {
        sum = sum.wrapping_add(u64::from(x));
        check = mixed(check, x);
    }
    print!(rt; " {{{} {sum} {check}}}", list.len())
}

// The numbers of a list, each after a space.
#[derive(Drop)]
struct Each<'a>(&'a [Index]);

impl fmt::Display for Each<'_> {
    fn fmt<W: fmt::Write>(&self, f: &mut fmt::Formatter<W>) -> fmt::Result {
        for &x in self.0 {
            write!(f, " {x}")?;
        }
        Ok(())
    }
}

// The numbers of a list, one after another.
fn whole(rt: &impl Print, list: &[Index]) -> io::Result<()> {
    match list {
        [first, rest @ ..] => print!(rt; " [{first}{}]", Each(rest)),
        [] => rt.print(" []"),
    }
}

// A list.
pub fn list(rt: &impl Print, list: &[Index]) -> io::Result<()> {
    if LONGEST < list.len() {
        return digest(rt, list);
    }
    whole(rt, list)
}

// All that the three slices of a listing hold.
pub fn lists(rt: &impl Print, slices: Slices<'_>) -> io::Result<()> {
    list(rt, slices.counts)?;
    list(rt, slices.ends)?;
    list(rt, slices.inc)
}

// The bytes of a list as wider numbers, into the start of a slice, as far as there is room; says how many.
fn widen(list: &[u8], out: &mut [Index]) -> usize
    ensures { IsPrefixLen result out.new }
{
    for (place, &b) in out.iter_mut().zip(list) {
        *place = Index::from(b);
    }
    list.len().min(out.len())
}

// Room for the bytes of a list as wider numbers: of a list as long as the longest that is lent.
fn wide_room() -> [Index; WRITTEN]
    ensures { 2 * limits.text ≡ length result }
{
    room::numbers::<WRITTEN>()
}

// A list of bytes, none longer than the longest that is lent.
pub fn bytes(rt: &impl Print, bytes: &[u8]) -> io::Result<()> {
    let mut wide = wide_room();
    let n = widen(bytes, &mut wide);
    list(rt, &wide[..n])
}

// The byte at a place of a list, 0 past its end. (`letter` of `replay_reading` is the same; this crate does not use that one.)
fn byte_at(list: &[u8], i: usize) -> u8 {
    list.get(i).copied().unwrap_or(0)
}

// The numbers of flag i of a table, where each flag has w numbers, one for each rank; none where the table has no such
// flag.
#[tactic(auto, using(crate::proofs::Counting::placed))]
fn row<'a>(table: &'a [Index], i: u16, w: usize) -> &'a [Index] {
    if limit::RANKS < w {
        return &[];
    }
    let from = usize::from(i) * w;
    table.get(from..from + w).unwrap_or(&[])
}

// A flag of a table, its orientation first, where each flag has w numbers.
pub fn flag(rt: &impl Print, table: &[Index], odd: &[u8], i: u16, w: usize) -> io::Result<()> {
    let orientation = byte_at(odd, usize::from(i));
    print!(rt; " [{orientation}{}]", Each(row(table, i, w)))
}

// That the cell is not orientable.
pub fn not_orientable(rt: &impl Print) -> io::Result<()> {
    rt.print(" []")
}
