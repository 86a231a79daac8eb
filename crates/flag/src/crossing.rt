// What a change answers to callers that have no enum.
ghost use Rattle.std.specs.Prelude.{◌≡◌};
ghost use Rattle.flag.specs.Changed.{told_changed};

use crate::Changed;
use crate::made::Change;
use listing::{Answer, Refusal, limit};

impl From<Result<Change, Refusal>> for Changed {
    fn from(outcome: Result<Change, Refusal>) -> Changed
        ensures { result ≡ told_changed outcome }
    {
        match outcome {
            Ok(made) => {
                let flag = made.flag;
                Changed {
                    answer: Answer::fine(),
                    flag,
                    taken: made.taken,
                    put: made.put,
                }
            }
            Err(why) => Changed {
                answer: Answer::from(why),
                flag: [0; limit::RANKS],
                taken: 0,
                put: 0,
            },
        }
    }
}
