// An answer as one number.
ghost use Rattle.std.specs.Prelude.{◌≡◌};
ghost use Rattle.calls.specs.CallRows.{outcome_code, answer_code};

use script::records::Refusal;
use tallies::calls::Answer;
use tallies::tally::Outcome;

// No `From`: both types are of other crates, and the numbers are those of a host's rows alone (the C interface).
#[tactic(auto, unfolding(crate::specs::CallRows::outcome_code))]
fn outcome_code(o: Outcome) -> u64
    ensures { result ≡ outcome_code o }
{
    match o {
        Outcome::Passed => 101,
        Outcome::Failed => 102,
        Outcome::Undecided => 103,
        Outcome::NothingChecked => 104,
    }
}

// No `From`, as for `outcome_code`.
#[tactic(auto, unfolding(crate::specs::CallRows::answer_code))]
pub fn answer_code(a: Result<Answer, Refusal>) -> u64
    ensures { result ≡ answer_code a }
{
    match a {
        Err(r) => r.reason.number(),
        Ok(Answer::Judged) => 0,
        Ok(Answer::Closed(o)) => outcome_code(o),
    }
}
