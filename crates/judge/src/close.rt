// Close: what the tally says of the whole script.
ghost use Rattle.std.specs.Prelude.{◌≡◌};
ghost use Rattle.tallies.specs.Answers.{close_answer};

use crate::calls::Turn;
use crate::tally::Tally;
use closes::close_answer;
use script::records::Script;

impl Tally {
    // Gives the same tally back.
    pub fn close(mut self, script: Script) -> Turn
        ensures { result ≡ record { tally = self; answer = close_answer self.next self.counts script.counts.entries } }
    {
        Turn {
            tally: self,
            answer: close_answer(self.next, self.counts, script.counts.entries),
        }
    }
}
