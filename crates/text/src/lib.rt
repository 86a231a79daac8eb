// Listings as text: what a text says, written into lent slices, and whether that is closed; the text of a closed
// listing.
#![tactic(auto)]

ghost use Rattle.std.specs.Prelude.{◌≡◌, ℕ, length};
ghost use Rattle.listing.specs.Listing.{held, limits, listing};
ghost use Rattle.listing.specs.Layers.{layers};
ghost use Rattle.listing.specs.Told.{told, told_built};
ghost use Rattle.listing_outputs.specs.Output.{Made};
ghost use Rattle.text_theory.specs.Text.{text_of};
ghost use Rattle.text_theory.specs.Said.{listing_in};
ghost use Rattle.text.specs.Texts.{read_test, check_test};
ghost use Rattle.text.specs.WrittenTexts.{length_test, write_test, told_written, TextMade};

use listing::{Answer, Index, Lengths, Refusal, Slices, limit};
use listing_outputs::outputs;
use listing_outputs::outputs::Room;
use text_building::build;
use text_sizes::measure;
use text_sizes::notes::Notes;
use text_writing::{length as lengths, write};

// What is answered of a text that is written, to callers that have no enum: a refusal or 0, and how many bytes.
#[repr(C)]
#[derive(Clone, Copy)]
pub struct Written {
    pub answer: Answer,
    pub length: usize,
}

impl From<Result<usize, Refusal>> for Written {
    fn from(outcome: Result<usize, Refusal>) -> Written
        ensures { result ≡ told_written outcome }
    {
        Written {
            answer: Answer::from(outcome),
            length: outcome.unwrap_or(0),
        }
    }
}

// Reads a listing: all that is refused of the text is known before a number is written. The three lent slices stay
// apart: in a struct each function would have to say that they are still the same slices.
pub fn read_text(
    text: &[u8],
    counts: &mut [Index],
    ends: &mut [Index],
    inc: &mut [Index],
) -> Result<Lengths, Refusal>
    ensures { Made
        (read_test limits text.now (length counts.old) (length ends.old)
        (length inc.old))
        (listing_in text.now) (listing counts.old ends.old inc.old)
        (listing counts.new ends.new inc.new) (told_built result) }
{
    let mut notes = Notes {
        up: [0; limit::ELEMENTS],
        counts: [0; limit::RANKS],
        many: [0; limit::ELEMENTS],
        subs: [0; limit::INCIDENCES],
    };
    let need = measure::measure(text, &mut notes)?;
    let room = Room {
        counts: counts.len(),
        ends: ends.len(),
        inc: inc.len(),
    };
    outputs::check_room(need, room)?;
    build::build(&notes, need.counts, need.ends / 2, counts, ends, inc);
    Ok(outputs::lengths(need))
}

// Whether a text says a closed listing: the refusal of the text, else that of the closed test.
pub fn check_text(text: &[u8]) -> Result<(), Refusal>
    ensures { told result ≡ check_test limits text.now }
{
    let mut counts: [Index; limit::RANKS] = [0; limit::RANKS];
    let mut ends: [Index; limit::ENDS] = [0; limit::ENDS];
    let mut inc: [Index; limit::INCIDENCES] = [0; limit::INCIDENCES];
    let n = read_text(text, &mut counts, &mut ends, &mut inc)?;
    valid::closed(Slices {
        counts: &counts[..usize::from(n.counts)],
        ends: &ends[..usize::from(n.ends)],
        inc: &inc[..usize::from(n.inc)],
    })?;
    Ok(())
}

// Whether a slice with this much room can hold a text of n bytes, and whether that is within the limit.
#[tactic(auto, using(crate::proofs::WrittenTexts::lengths))]
fn check_length(n: usize, room: usize) -> Result<(), Refusal>
    ensures { told result ≡ length_test limits n room }
{
    if room < n {
        return Err(Refusal::BytesShort);
    }
    if limit::TEXT < n {
        return Err(Refusal::LongText);
    }
    Ok(())
}

// Writes the text of a closed listing, and answers how many bytes it has: all that is refused is known before a byte is
// written.
pub fn write_text(slices: Slices<'_>, text: &mut [u8]) -> Result<usize, Refusal>
    ensures { TextMade
        (write_test limits (held slices.entry) (length text.old))
        (text_of (layers (held slices.entry))) text.old text.new (told_written result) }
{
    let cell = valid::closed(slices)?.cell();
    let n = lengths::text_length(cell);
    check_length(n, text.len())?;
    write::put_text(cell, text);
    Ok(n)
}
