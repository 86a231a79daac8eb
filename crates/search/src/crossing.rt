// What a search answers to callers that have no enum.
ghost use Rattle.std.specs.Prelude.{◌≡◌};
ghost use Rattle.search.specs.SearchedBy.{told_searched};

use crate::Searched;
use listing::{Answer, Refusal};
use search_store::Found;

impl From<Result<Found, Refusal>> for Searched {
    fn from(outcome: Result<Found, Refusal>) -> Searched
        ensures { result ≡ told_searched outcome }
    {
        match outcome {
            Ok(found) => Searched {
                answer: Answer::fine(),
                count: found.count,
                place: found.place,
                orientable: u8::from(found.place == 0),
            },
            Err(why) => Searched {
                answer: Answer::from(why),
                count: 0,
                place: 0,
                orientable: 0,
            },
        }
    }
}
