// Six times the volume of a cell of rank 4.
#![tactic(auto)]

mod checks;

ghost use Rattle.std.specs.Prelude.{◌≡◌};
ghost use Rattle.listing.specs.Listing.{held, limits};
ghost use Rattle.volume.specs.Volumes.{volume_by, volume_table_after, volume_bytes_after, told_volume};

use listing::{Answer, Index, Refusal, Slices};
use valid::ClosedCell;
use volume_sum::parts;

// An answer as two numbers: the refusal's, 0 for none, and six times the volume, 0.0 on a refusal.
#[repr(C)]
#[derive(Clone, Copy)]
pub struct Measured {
    pub no: u16,
    pub six: f64,
}

// The sum over the even flags that a search with every change finds from the first flag; docs/RULE.md says of which
// cells that is six times the volume. From a flag one change away it is negated. What the search leaves in the table
// and the orientations stays there, whatever is answered after it.
pub fn six_volume(
    slices: Slices<'_>,
    first: &[Index],
    coordinates: &[f64],
    table: &mut [Index],
    orientations: &mut [u8],
) -> Result<f64, Refusal>
    ensures value { told_volume result ≡ volume_by limits (held slices.entry) first.now coordinates.now
        table.old orientations.old }
    ensures table_after { table.new ≡ volume_table_after limits (held slices.entry) first.now
        table.old orientations.old }
    ensures orientations_after { orientations.new ≡ volume_bytes_after limits (held slices.entry) first.now
        table.old orientations.old }
{
    let mask = checks::every_change(slices.counts.len());
    let found = search::search(slices, first, mask, table, orientations)?;
    checks::check_cell(slices.counts, coordinates, found)?;
    let cell = ClosedCell { slices };
    Ok(parts::six_of(cell, coordinates, &*table, &*orientations, found.count))
}

// A volume or its refusal, for callers that have no enum.
impl From<Result<f64, Refusal>> for Measured {
    #[tactic(auto, using(crate::proofs::Tested::crossing))]
    fn from(outcome: Result<f64, Refusal>) -> Measured
        ensures { result ≡ told_volume outcome }
    {
        match outcome {
            Ok(six) => Measured { no: 0, six },
            Err(why) => Measured {
                no: Answer::from(why).no,
                six: 0.0,
            },
        }
    }
}
