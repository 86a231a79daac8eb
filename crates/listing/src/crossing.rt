// What crosses to callers that have no enum: refusals as numbers, each with the fields that it carries.
ghost use Rattle.std.specs.Prelude.{◌≡◌};
ghost use Rattle.listing.specs.Answers.{plain, fine};
ghost use Rattle.listing.specs.Told.{side_no, other_side, bare_no, not_back_no, missing_no, of_element, answer_of, told, told_number, told_built};

use crate::{Answer, Built, Element, Index, Lengths, Number, Refusal, Side, numbers};

impl Side {
    // Subs for sups, and sups for subs.
    pub fn other(self) -> Side
        ensures { result ≡ other_side self }
    {
        match self {
            Side::Subs => Side::Sups,
            Side::Sups => Side::Subs,
        }
    }
}

// A side as a number: 0 subs, 1 sups.
impl From<Side> for Index {
    fn from(side: Side) -> Index
        ensures { result ≡ side_no side }
    {
        match side {
            Side::Subs => 0,
            Side::Sups => 1,
        }
    }
}

// The number of an element that lists nothing where it must.
fn bare(side: Side) -> u16
    ensures { result ≡ bare_no side }
{
    match side {
        Side::Subs => numbers::NO_SUBS,
        Side::Sups => numbers::NO_SUPS,
    }
}

// The number of an entry that does not lead back.
fn not_back(side: Side) -> u16
    ensures { result ≡ not_back_no side }
{
    match side {
        Side::Subs => numbers::SUB_NOT_BACK,
        Side::Sups => numbers::SUP_NOT_BACK,
    }
}

// The number of an entry that does not exist.
fn missing(side: Side) -> u16
    ensures { result ≡ missing_no side }
{
    match side {
        Side::Subs => numbers::SUB_MISSING,
        Side::Sups => numbers::SUP_MISSING,
    }
}

impl Answer {
    // The answer of no refusal.
    pub fn fine() -> Answer
        ensures { result ≡ fine }
    {
        Answer::plain(0)
    }

    // An answer that carries nothing.
    pub fn plain(no: u16) -> Answer
        ensures { result ≡ plain no }
    {
        Answer {
            no,
            a: 0,
            b: 0,
            c: 0,
            d: 0,
        }
    }

    // An answer that names an element, and two numbers more.
    fn of_element(no: u16, x: Element, c: Index, d: Index) -> Answer
        ensures { result ≡ of_element no x c d }
    {
        Answer {
            no,
            a: x.rank,
            b: x.index,
            c,
            d,
        }
    }
}

impl From<Refusal> for Answer {
    fn from(why: Refusal) -> Answer
        ensures { result ≡ answer_of why }
    {
        match why {
            Refusal::NoRanks => Answer::plain(numbers::NO_RANKS),
            Refusal::OverRanks => Answer::plain(numbers::OVER_RANKS),
            Refusal::OverElements => Answer::plain(numbers::OVER_ELEMENTS),
            Refusal::WrongEnds => Answer::plain(numbers::WRONG_ENDS),
            Refusal::OverIncidences => Answer::plain(numbers::OVER_INCIDENCES),
            Refusal::FallingEnds => Answer::plain(numbers::FALLING_ENDS),
            Refusal::NotBounded { smallest, largest } => Answer {
                no: numbers::NOT_BOUNDED,
                a: smallest,
                b: largest,
                c: 0,
                d: 0,
            },
            Refusal::Bare { of, side } => Answer::of_element(bare(side), of, 0, 0),
            Refusal::NotBack { of, side, entry } => {
                Answer::of_element(not_back(side), of, entry, 0)
            }
            Refusal::Missing { of, side, entry } => {
                Answer::of_element(missing(side), of, entry, 0)
            }
            Refusal::ThirdBetween { low, high } => {
                Answer::of_element(numbers::THIRD_BETWEEN, low, high.rank, high.index)
            }
            Refusal::LoneBetween { low, high } => {
                Answer::of_element(numbers::LONE_BETWEEN, low, high.rank, high.index)
            }
            Refusal::NotAscending { of, side } => {
                Answer::of_element(numbers::NOT_ASCENDING, of, Index::from(side), 0)
            }
            Refusal::NotAFlag => Answer::plain(numbers::NOT_A_FLAG),
            Refusal::OutsideRanks => Answer::plain(numbers::OUTSIDE_RANKS),
            Refusal::MoreFlags => Answer::plain(numbers::MORE_FLAGS),
            Refusal::SeveralParts => Answer::plain(numbers::SEVERAL_PARTS),
            Refusal::LeftInvalid => Answer::plain(numbers::LEFT_INVALID),
            Refusal::RightInvalid => Answer::plain(numbers::RIGHT_INVALID),
            Refusal::CombOfPoint => Answer::plain(numbers::COMB_OF_POINT),
            Refusal::ProductRanks => Answer::plain(numbers::PRODUCT_RANKS),
            Refusal::ProductElements => Answer::plain(numbers::PRODUCT_ELEMENTS),
            Refusal::ProductIncidences => Answer::plain(numbers::PRODUCT_INCIDENCES),
            Refusal::OutputShort => Answer::plain(numbers::OUTPUT_SHORT),
            Refusal::WrongKey => Answer::plain(numbers::WRONG_KEY),
            Refusal::BadLine => Answer::plain(numbers::BAD_LINE),
            Refusal::LongText => Answer::plain(numbers::LONG_TEXT),
            Refusal::MoreBytes => Answer::plain(numbers::MORE_BYTES),
            Refusal::BytesShort => Answer::plain(numbers::BYTES_SHORT),
            Refusal::NotRankFour => Answer::plain(numbers::NOT_RANK_FOUR),
            Refusal::NotOrientable => Answer::plain(numbers::NOT_ORIENTABLE),
            Refusal::WrongCoordinates => Answer::plain(numbers::WRONG_COORDINATES),
            Refusal::NotInMetres => Answer::plain(numbers::NOT_IN_METRES),
        }
    }
}

impl<T: Copy> From<Result<T, Refusal>> for Answer {
    fn from(outcome: Result<T, Refusal>) -> Answer
        ensures { result ≡ told outcome }
    {
        match outcome {
            Ok(_) => Answer::fine(),
            Err(why) => Answer::from(why),
        }
    }
}

impl From<Result<usize, Refusal>> for Number {
    fn from(outcome: Result<usize, Refusal>) -> Number
        ensures { result ≡ told_number outcome }
    {
        match outcome {
            Ok(value) => Number { no: 0, value },
            Err(why) => Number {
                no: Answer::from(why).no,
                value: 0,
            },
        }
    }
}

impl From<Result<Lengths, Refusal>> for Built {
    fn from(outcome: Result<Lengths, Refusal>) -> Built
        ensures { result ≡ told_built outcome }
    {
        match outcome {
            Ok(n) => Built {
                answer: Answer::fine(),
                counts: n.counts,
                ends: n.ends,
                inc: n.inc,
            },
            Err(why) => Built {
                answer: Answer::from(why),
                counts: 0,
                ends: 0,
                inc: 0,
            },
        }
    }
}
