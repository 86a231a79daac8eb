// Flags: chains of elements from the lowest rank to the highest. Here are the change of a flag and its orientation.
#![tactic(auto)]

pub mod crossing;
pub mod made;
pub mod parity;

ghost use Rattle.std.specs.Prelude.{◌≡◌, IfOk};
ghost use Rattle.listing.specs.Listing.{held, limits};
ghost use Rattle.listing.specs.Told.{told};
ghost use Rattle.flag.specs.Changed.{change_test, changed_of, told_changed};
ghost use Rattle.flag.specs.Orientations.{byte_of, of_byte, flip_of, sign_of};

use crate::made::Change;
use flag_change::chain;
use listing::{Answer, Index, Refusal, Slices, limit};
use valid::ClosedCell;

// What a change answers: a refusal or 0; and the numbers of the change, all 0 on a refusal.
#[repr(C)]
#[derive(Clone, Copy)]
pub struct Changed {
    pub answer: Answer,
    pub flag: [Index; limit::RANKS],
    pub taken: Index,
    pub put: Index,
}

// The refusals of a change: those of the closed test, 20, 21.
#[tactic(auto, using(crate::proofs::ChangeAnswers::ranks), unfolding(crate::specs::Changed::change_test))]
fn check_change<'a>(slices: Slices<'a>, flag: &[Index], r: u16) -> Result<ClosedCell<'a>, Refusal>
    ensures value { told result ≡ change_test limits (held slices.entry) flag.now r }
    ensures same { IfOk result (λ cell. cell.slices ≡ slices.entry) }
{
    let cell = chain::check_flag(slices, flag)?;
    let rank = slices.counts.len() - 1;
    if r == 0 || rank <= usize::from(r) {
        return Err(Refusal::OutsideRanks);
    }
    Ok(cell)
}

// The change of a flag at rank r: of the two elements between those at the ranks r - 1 and r + 1, the other one is put
// in. The new flag has room for the most ranks, 0 above the top.
#[tactic(auto, using(crate::proofs::ChangeAnswers::answers))]
pub fn change(slices: Slices<'_>, flag: &[Index], r: u16) -> Result<Change, Refusal>
    ensures { told_changed result ≡ changed_of limits (held slices.entry) flag.now r }
{
    let cell = check_change(slices, flag, r)?;
    Ok(made::changed_at(cell, flag, usize::from(r)))
}

// The parity of a flag, which each change flips.
#[derive(Clone, Copy)]
pub enum Orientation {
    Even,
    Odd,
}

impl Orientation {
    // The other parity.
    #[tactic(auto, unfolding(crate::specs::Orientations::flip_of))]
    pub fn flip(self) -> Orientation
        ensures { result ≡ flip_of self }
    {
        match self {
            Orientation::Even => Orientation::Odd,
            Orientation::Odd => Orientation::Even,
        }
    }

    // The sign that goes with it.
    pub fn sign(self) -> f64
        ensures { result ≡ sign_of self }
    {
        match self {
            Orientation::Even => 1.0,
            Orientation::Odd => -1.0,
        }
    }
}

// The byte of a parity, as a search stores it.
impl From<Orientation> for u8 {
    #[tactic(auto, unfolding(crate::specs::Orientations::byte_of))]
    fn from(parity: Orientation) -> u8
        ensures { result ≡ byte_of parity }
    {
        match parity {
            Orientation::Even => 0,
            Orientation::Odd => 1,
        }
    }
}

// The parity that a byte stands for: 0 even, any other odd.
impl From<u8> for Orientation {
    #[tactic(auto, unfolding(crate::specs::Orientations::of_byte))]
    fn from(byte: u8) -> Orientation
        ensures { result ≡ of_byte byte }
    {
        if byte == 0 {
            return Orientation::Even;
        }
        Orientation::Odd
    }
}
