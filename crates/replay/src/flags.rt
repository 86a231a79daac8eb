// Questions on flags: changes, searches, and their events; told apart by letters, as in `ask`.
use flag::{Changed, Orientation};
use listing::{Answer, Index, Refusal, Slices};
use replay_reading::text;
use replay_saying::{room, say};
use search::{Found, Searched};
use search_events::Event;
use std::io;

// A change.
pub fn change(rt: &impl Print, line: &[u8], slices: Slices<'_>, flag: &[Index]) -> io::Result<()> {
    let r = text::narrow(text::plain(line, 0));
    let c = Changed::from(flag::change(slices, flag, r));
    say::answer(rt, c.answer)?;
    say::number(rt, u64::from(c.taken))?;
    say::number(rt, u64::from(c.put))?;
    let f = c.flag;
    say::list(rt, &f)
}

// Whether the line asks for the events of a search.
fn is_events(line: &[u8]) -> bool {
    text::letter(line, 0) == b'e'
}

// The room that a line asks for with its number k: a search says how much, for events it is all.
fn room_asked(line: &[u8], k: usize) -> u32 {
    if is_events(line) {
        return u32::MAX;
    }
    text::plain(line, k)
}

// What a search answered.
pub fn searched(rt: &impl Print, s: Searched) -> io::Result<()> {
    say::answer(rt, s.answer)?;
    say::number(rt, u64::from(s.count))?;
    say::number(rt, u64::from(s.place))?;
    say::number(rt, u64::from(s.orientable))
}

// An event of a search whose flags have w numbers each.
fn event(rt: &impl Print, e: Event, table: &[Index], odd: &[u8], w: usize) -> io::Result<()> {
    match e {
        Event::Flag(i) => say::flag(rt, table, odd, i, w),
        Event::NonOrientable => say::not_orientable(rt),
    }
}

// The events of a search, in order.
fn told(rt: &impl Print, found: Found, table: &[Index], odd: &[u8], w: usize) -> io::Result<()> {
    for at in 0..search_events::events_in(found.count, found.place) {
        if let Some(e) = search_events::event_at(at, found.count, found.place) {
            event(rt, e, table, odd, w)?;
        }
    }
    Ok(())
}

// What a search left in the slices lent: its events, none where it is refused; or all that they hold.
fn left(
    rt: &impl Print,
    line: &[u8],
    outcome: Result<Found, Refusal>,
    table: &[Index],
    odd: &[u8],
    w: usize,
) -> io::Result<()> {
    if is_events(line) {
        say::answer(rt, Answer::from(outcome))?;
        return match outcome {
            Ok(found) => told(rt, found, table, odd, w),
            Err(_) => Ok(()),
        };
    }
    searched(rt, Searched::from(outcome))?;
    say::list(rt, table)?;
    say::bytes(rt, odd)
}

// A search, and what it left in the slices lent.
fn search_in(
    rt: &impl Print,
    line: &[u8],
    slices: Slices<'_>,
    first: &[Index],
    table: &mut [Index],
    odd: &mut [u8],
) -> io::Result<()> {
    let mask = text::narrow(text::plain(line, 0));
    let outcome = search::search(slices, first, mask, &mut *table, &mut *odd);
    left(rt, line, outcome, table, odd, slices.counts.len())
}

// A search or its events, with the room that the line asks for, as far as there is so much.
pub fn search(rt: &impl Print, line: &[u8], slices: Slices<'_>, first: &[Index]) -> io::Result<()> {
    room::for_search(room_asked(line, 1), room_asked(line, 2), |table, odd| {
        search_in(rt, line, slices, first, table, odd)
    })
}

// The sign of an orientation's byte.
pub fn sign(rt: &impl Print, line: &[u8]) -> io::Result<()> {
    let byte = text::byte(text::plain(line, 0));
    say::sign(rt, Orientation::from(byte).sign())
}

// The next event for a cursor, a count and a place, and the cursor afterwards.
pub fn next_event(rt: &impl Print, line: &[u8]) -> io::Result<()> {
    let at = text::plain(line, 0);
    let count = text::narrow(text::plain(line, 1));
    let place = text::narrow(text::plain(line, 2));
    let s = search_events::numbers(search_events::event_at(at, count, place));
    say::number(rt, u64::from(s.kind))?;
    say::number(rt, u64::from(s.flag))?;
    say::number(rt, u64::from(search_events::next_at(at, count, place)))
}
