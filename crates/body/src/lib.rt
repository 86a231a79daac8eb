// Whether a listing is one body: closed, and all its flags in one piece.
#![tactic(auto)]

mod whole;

ghost use Rattle.std.specs.Prelude.{◌≡◌};
ghost use Rattle.listing.specs.Listing.{held, limits};
ghost use Rattle.search.specs.SearchedBy.{told_searched};
ghost use Rattle.body.specs.Body.{body_by, body_table_after, body_bytes_after};

use body_count::chains;
use listing::{Index, Refusal, Slices};
use search::Found;
use search_index::row;

// The closed test, and then whether a search with every change finds all flags that there are. The search goes out from
// the flag of first sups, and is left in the table and the bytes whatever is answered after the closed test.
#[tactic(auto, using(crate::proofs::Cases::asked))]
pub fn one_body(slices: Slices<'_>, table: &mut [Index], bytes: &mut [u8]) -> Result<Found, Refusal>
    ensures value { told_searched result ≡ body_by limits (held slices.entry) table.old bytes.old }
    ensures table_after { table.new ≡ body_table_after limits (held slices.entry) table.old bytes.old }
    ensures bytes_after { bytes.new ≡ body_bytes_after limits (held slices.entry) table.old bytes.old }
{
    let cell = valid::closed(slices)?;
    let room = row::room_of(table.len(), bytes.len(), slices.counts.len());
    match whole::search_whole(cell, table, bytes, room) {
        Ok(found) => whole::judged(found, chains::flags_in_all(cell), room),
        Err(_) => Err(Refusal::MoreFlags),
    }
}
