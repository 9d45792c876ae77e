// What Close answers of a tally's next number and counts.
#![tactic(auto)]

ghost use Rattle.std.specs.Prelude.{◌≡◌};
ghost use Rattle.tallies.specs.Answers.{close_answer};

use script::records::Refusal;
use script::refusals::Reason;
use tallies::calls::Answer;
use tallies::tally::Counts;

// No sum is made: the count of entries may be forged.
#[tactic(auto, using(tallies::proofs::CloseLaws::close_laws))]
pub fn close_answer(next: usize, counts: Counts, entries: usize) -> Result<Answer, Refusal>
    ensures { result ≡ close_answer next counts entries }
{
    if counts.over_limit() {
        return Err(Refusal::from(Reason::CountTooHigh));
    }
    if next == 0 || next - 1 != entries {
        return Err(Refusal::from(Reason::NotAllJudged));
    }
    Ok(Answer::Closed(counts.outcome()))
}
