// What a call of Judge or Close gives back.
ghost use Rattle.std.specs.Prelude.{◌≡◌};
ghost use Rattle.judge.specs.Tally.{turn_of};

use crate::tally::Tally;
use ranges::steps::Step;
use script::records::Refusal;
use tallies::calls::Answer;

// What a call answered, and the next tally.
#[derive(Clone, Copy)]
pub struct Turn {
    pub tally: Tally,
    pub answer: Result<Answer, Refusal>,
}

pub(crate) fn turn_of(s: Step) -> Turn
    ensures { result ≡ turn_of s }
{
    Turn {
        tally: Tally {
            next: s.next,
            counts: s.counts,
        },
        answer: s.answer,
    }
}
