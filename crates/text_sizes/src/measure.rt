// The first reading of a text: all its refusals, how large its listing is, and how many sups each element has. Its
// numbers are noted down.
ghost use Rattle.std.specs.Prelude.{◌≡◌, ℕ, suc, ◌+◌, ◌≤◌, get_or, IfOk, IfErr};
ghost use Rattle.listing.specs.Listing.{limits};
ghost use Rattle.listing.specs.Told.{answer_of, told};
ghost use Rattle.text_theory.specs.Said.{said, text_test};
ghost use Rattle.text_sizes.specs.Measure.{CountsNoted, Arrived, Entered, SizesRead};

use crate::notes::Notes;
use crate::rows;
use listing::{Index, Refusal, limit};
use listing_outputs::outputs::Room;
use text_lines::lines;

// How far the reading has come: the place of the next line; the rank that it belongs to; how many elements the rank
// below has, and all ranks below that one; the incidences; the subs.
#[derive(Clone, Copy)]
pub struct Headway {
    pub at: usize,
    pub rank: usize,
    pub from: usize,
    pub below: usize,
    pub incidences: usize,
    pub subs: usize,
}

// Reads the lines of the n elements of a rank, and notes down how many subs each has, and which.
fn measure_elements(
    text: &[u8],
    notes: &mut Notes,
    s: Headway,
    n: usize,
) -> Result<Headway, Refusal>
    requires { Entered limits text.now s n notes.old.up notes.old.many notes.old.subs }
    ensures stops { IfErr result (λ why. answer_of why ≡ text_test limits text.now) }
    ensures comes { IfOk result (λ h. Arrived limits text.now h notes.new.up notes.new.many notes.new.subs
        × (h.rank ≡ s.rank + 1)) }
    ensures same_counts { notes.new.counts ≡ notes.old.counts }
{
    let first = s.from + s.below;
    let mut at = s.at;
    let mut incidences = s.incidences;
    let mut to = s.subs;
    for i in 0..n {
        let r = rows::tally_subs(
            text,
            at,
            &mut notes.up,
            s.from,
            s.below,
            &mut notes.subs,
            to,
        )?;
        incidences += r.count + r.known;
        if limit::INCIDENCES < incidences {
            return Err(Refusal::OverIncidences);
        }
        notes.many[first + i] = r.count as Index;
        to += r.count;
        at = r.next;
    }
    Ok(Headway {
        at,
        rank: s.rank + 1,
        from: first,
        below: n,
        incidences,
        subs: to,
    })
}

// Reads the lines of a rank: how many elements it has, which is noted down, and what lies under each.
#[tactic(auto, using(crate::proofs::Ranks::ranks))]
fn measure_rank(text: &[u8], notes: &mut Notes, s: Headway) -> Result<Headway, Refusal>
    requires arrived { Arrived limits text.now s notes.old.up notes.old.many notes.old.subs }
    requires rank_bound { (s.rank ≤ (said text.now).top)
        × CountsNoted limits (said text.now) s.rank notes.old.counts }
    ensures stops { IfErr result (λ why. answer_of why ≡ text_test limits text.now) }
    ensures comes { IfOk result (λ h. Arrived limits text.now h notes.new.up notes.new.many notes.new.subs
        × (h.rank ≡ s.rank + 1) × CountsNoted limits (said text.now) h.rank notes.new.counts) }
{
    let c = lines::single_at(text, s.at, b"count=")?;
    if limit::ELEMENTS < s.from + s.below + c.value {
        return Err(Refusal::OverElements);
    }
    notes.counts[s.rank] = c.value as Index;
    let past = Headway { at: c.next, ..s };
    measure_elements(text, notes, past, c.value)
}

// Reads the lines of all ranks up to the top.
#[tactic(auto, using(crate::proofs::Stops::stops_so))]
fn measure_ranks(
    text: &[u8],
    notes: &mut Notes,
    first: Headway,
    top: usize,
) -> Result<Headway, Refusal>
    requires arrived { Arrived limits text.now first notes.old.up notes.old.many notes.old.subs }
    requires counts_noted { CountsNoted limits (said text.now) first.rank notes.old.counts }
    requires top_value { top ≡ (said text.now).top }
    ensures stops { IfErr result (λ why. answer_of why ≡ text_test limits text.now) }
    ensures comes { IfOk result (λ h. Arrived limits text.now h notes.new.up notes.new.many notes.new.subs
        × (h.rank ≡ suc (said text.now).top) × CountsNoted limits (said text.now) h.rank notes.new.counts) }
{
    let mut s = first;
    for _ in s.rank..=top {
        s = measure_rank(text, notes, s)?;
    }
    Ok(s)
}

// Reads a text: what is refused of it, and else how much room its listing needs. How many sups each element has is
// counted in the notes, all 0 before, and the numbers that the text says are noted down.
#[tactic(auto, using(crate::proofs::Whole::whole))]
pub fn measure(text: &[u8], notes: &mut Notes) -> Result<Room, Refusal>
    requires { (k : ℕ) → get_or notes.old.up k 0 ≡ 0 }
    ensures test { told result ≡ text_test limits text.now }
    ensures sizes { IfOk result (SizesRead limits text.now notes.new.up notes.new.counts notes.new.many
        notes.new.subs) }
{
    if limit::TEXT < text.len() {
        return Err(Refusal::LongText);
    }
    let c = lines::single_at(text, 0, b"rank=")?;
    if limit::RANKS <= c.value {
        return Err(Refusal::OverRanks);
    }
    let first = Headway {
        at: c.next,
        rank: 0,
        from: 0,
        below: 0,
        incidences: 0,
        subs: 0,
    };
    let s = measure_ranks(text, notes, first, c.value)?;
    if s.at < text.len() {
        return Err(Refusal::MoreBytes);
    }
    Ok(Room {
        counts: c.value + 1,
        ends: 2 * (s.from + s.below),
        inc: s.incidences,
    })
}
