// What a run of a script answers, and what a host is given of it.
#![tactic(auto)]

ghost use Rattle.std.specs.Prelude.{◌≡◌};
ghost use Rattle.ran.specs.declared.RunError.TheVariants.{Refused};
ghost use Rattle.ran.specs.Told.{status_of, ran_line, ran_tally};

use judge::tally::Tally;
use script::records::Refusal;

// Why a run is not done: nothing is written then.
#[derive(Clone, Copy, PartialEq, Eq)]
pub enum RunError {
    FewAnswers,
    MuchScratch,
    Refused(Refusal),
}

impl From<Refusal> for RunError {
    ghost from_gives = { λ refusal e. e ≡ Refused refusal };

    fn from(refusal: Refusal) -> RunError {
        RunError::Refused(refusal)
    }
}

#[tactic(auto, unfolding(crate::specs::Told::status_of))]
pub fn status_of(r: Result<Tally, RunError>) -> u64
    ensures { result ≡ status_of r }
{
    match r {
        Err(RunError::FewAnswers) => 201,
        Err(RunError::MuchScratch) => 202,
        Err(RunError::Refused(q)) => q.reason.number(),
        Ok(_) => 0,
    }
}

#[tactic(auto, unfolding(crate::specs::Told::ran_line))]
pub fn ran_line(r: Result<Tally, RunError>) -> usize
    ensures { result ≡ ran_line r }
{
    match r {
        Err(RunError::Refused(q)) => q.line,
        _ => 0,
    }
}

#[tactic(auto, unfolding(crate::specs::Told::ran_tally))]
pub fn ran_tally(r: Result<Tally, RunError>) -> Tally
    ensures { result ≡ ran_tally r }
{
    r.unwrap_or(Tally::new())
}
