// Each question read from its line and put to the function that it names. The functions are told apart by letters of
// their names. By whole names, a line that no list has, with a name of its own, would be answered in another way.
// The runtime, the line and the cell go one by one: each function passes on other ones of them.
ghost use Rattle.std.specs.Prelude.{◌<◌};
ghost use Rattle.listing.specs.Listing.{width};

use crate::{bodies, cell, flags};
use listing::{Index, Slices};
use replay_products::pair;
use replay_reading::text;
use replay_saying::room;
use std::io;

// A question on a flag: change, search, events.
fn on_flag(rt: &impl Print, line: &[u8], slices: Slices<'_>, flag: &[Index]) -> io::Result<()> {
    match text::letter(line, 0) {
        b'c' => flags::change(rt, line, slices, flag),
        _ => flags::search(rt, line, slices, flag),
    }
}

// Whether the line asks for a product: its name, or 'tested' or 'written' before it.
fn is_product(line: &[u8]) -> bool {
    match text::letter(line, 0) {
        b'd' | b't' => true,
        b'w' => text::letter(line, 5) == b'e',
        _ => false,
    }
}

// Whether the line asks for a count: rank, vertex_count, facet_count, el_count.
fn is_count(line: &[u8]) -> bool {
    match text::letter(line, 1) {
        b'a' => true,
        b'e' => text::letter(line, 0) == b'v',
        b'l' => text::letter(line, 0) == b'e',
        _ => false,
    }
}

// Whether the line asks about a flag: change, search, events.
fn is_on_flag(line: &[u8]) -> bool {
    match text::letter(line, 4) {
        b'g' | b'c' | b't' => true,
        _ => false,
    }
}

// Whether the line asks for a volume: six_volume.
fn is_volume(line: &[u8]) -> bool {
    text::letter(line, 4) == b'v'
}

// A question on one cell, and perhaps a flag: a count, one on the flag, six_volume, one_body, write_text, or another
// test.
fn on_cell(rt: &impl Print, line: &[u8], slices: Slices<'_>, flag: &[Index]) -> io::Result<()> {
    if is_count(line) {
        return cell::count(rt, line, slices.counts);
    }
    if is_on_flag(line) {
        return on_flag(rt, line, slices, flag);
    }
    if is_volume(line) {
        return replay_volumes::six_volume(rt, line, slices, flag);
    }
    if text::letter(line, 0) == b'o' {
        return bodies::one_body(rt, line, slices);
    }
    if text::letter(line, 0) == b'w' {
        return replay_texts::write_text(rt, line, slices);
    }
    cell::test(rt, line, slices)
}

// Reads the listing whose lists begin with list k of the line, and lends it. Lists that the line lacks are empty.
fn with_listing<F>(line: &[u8], k: usize, lend: F) -> io::Result<()>
where
    F: FnOnce(Slices<'_>) -> io::Result<()>,
    requires k_fits { k < width }
    requires callable { F.IsAlwaysCallable lend }
{
    let mut counts = room::few();
    let mut ends = room::some();
    let mut inc = room::many();
    let c = text::list(line, k, &mut counts);
    let e = text::list(line, k + 1, &mut ends);
    let i = text::list(line, k + 2, &mut inc);
    lend(Slices {
        counts: &counts[..c],
        ends: &ends[..e],
        inc: &inc[..i],
    })
}

// A question on one cell, and perhaps a flag, which is its fourth list.
fn with_flag(rt: &impl Print, line: &[u8], slices: Slices<'_>) -> io::Result<()> {
    let mut flag = room::few();
    let n = text::list(line, 3, &mut flag);
    on_cell(rt, line, slices, &flag[..n])
}

// A question with lists: a cell, and then a flag or the second factor. The list of coordinates, which six_volume has
// besides, is read in replay_volumes.
fn lists(rt: &impl Print, line: &[u8]) -> io::Result<()> {
    with_listing(line, 0, |p| {
        if is_product(line) {
            with_listing(line, 3, |q| pair::product(rt, line, p, q))
        } else {
            with_flag(rt, line, p)
        }
    })
}

// Any question: read_text, check_text, class, sign, next_event, or one with lists. Of these write_text has a letter of
// check_text, and six_volume the third letter of next_event: they are asked for before.
pub fn ask(rt: &impl Print, line: &[u8]) -> io::Result<()> {
    if text::letter(line, 0) == b'w' {
        return lists(rt, line);
    }
    if text::letter(line, 5) == b't' {
        return replay_texts::read_text(rt, line);
    }
    if text::letter(line, 6) == b't' {
        return replay_texts::check_text(rt, line);
    }
    if text::letter(line, 4) == b's' {
        return cell::class(rt, line);
    }
    if is_volume(line) {
        return lists(rt, line);
    }
    match text::letter(line, 2) {
        b'g' => flags::sign(rt, line),
        b'x' => flags::next_event(rt, line),
        _ => lists(rt, line),
    }
}
