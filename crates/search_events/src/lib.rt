// The events of a finished search, in their order: its flags, and that the cell is not orientable. A cursor is lent and
// goes on from one to the next.
#![tactic(auto)]

ghost use Rattle.std.specs.Prelude.{◌≡◌};
ghost use Rattle.search_events.specs.Events.{marked, event_at, events, next_at, said_of, Stepped};

// An event of a search: a flag by its number, or that the cell is not orientable.
#[derive(Clone, Copy)]
pub enum Event {
    Flag(u16),
    NonOrientable,
}

// An event as two numbers.
#[repr(C)]
#[derive(Clone, Copy)]
pub struct Said {
    pub kind: u16,
    pub flag: u16,
}

// How far the events of a search have been taken: 0 at first.
#[repr(C)]
#[derive(Clone, Copy)]
pub struct Cursor {
    pub at: u32,
}

// Whether NonOrientable is among the events. Here and below a search is two numbers, as `fd_next_event` takes them.
pub fn is_marked(count: u16, place: u16) -> bool
    ensures { result ≡ marked count place }
{
    1 <= place && place <= count
}

// The event at a place of the row; None past the last.
#[tactic(auto, unfolding(crate::specs::Events::event_at))]
pub fn event_at(at: u32, count: u16, place: u16) -> Option<Event>
    ensures { result ≡ event_at at count place }
{
    let told = is_marked(count, place);
    if told && at == u32::from(place) {
        return Some(Event::NonOrientable);
    }
    // Past NonOrientable the flags stand one place further on.
    let flag = if told && u32::from(place) < at {
        at - 1
    } else {
        at
    };
    if flag < u32::from(count) {
        Some(Event::Flag(flag as u16))
    } else {
        None
    }
}

// How many events there are.
#[tactic(auto, unfolding(crate::specs::Events::events))]
pub fn events_in(count: u16, place: u16) -> u32
    ensures { result ≡ events count place }
{
    u32::from(count) + u32::from(is_marked(count, place))
}

// The place after a place: the same past the last event.
#[tactic(auto, unfolding(crate::specs::Events::next_at))]
pub fn next_at(at: u32, count: u16, place: u16) -> u32
    ensures { result ≡ next_at at count place }
{
    if at < events_in(count, place) {
        at + 1
    } else {
        at
    }
}

// The next event; the cursor goes on to the place after it, and stays past the last.
pub fn next_event(c: &mut Cursor, count: u16, place: u16) -> Option<Event>
    ensures { Stepped c.old.at count place c.new.at result }
{
    let at = c.at;
    c.at = next_at(at, count, place);
    event_at(at, count, place)
}

// An event as numbers, for callers that have no enum.
#[tactic(auto, unfolding(crate::specs::Events::said_of))]
pub fn numbers(e: Option<Event>) -> Said
    ensures { result ≡ said_of e }
{
    match e {
        Some(Event::Flag(i)) => Said { kind: 1, flag: i },
        Some(Event::NonOrientable) => Said { kind: 2, flag: 0 },
        None => Said { kind: 0, flag: 0 },
    }
}
