// The counts of a tally, and what closing says of them.
ghost use Rattle.std.specs.Prelude.{◌≡◌, ◌<◌};
ghost use Rattle.tallies.specs.Tally.{added, outcome_of, over_limit};

use verdicts::Verdict;

// How many verdicts of each kind there are.
#[derive(Clone, Copy)]
pub struct Counts {
    pub passed: usize,
    pub failed: usize,
    pub undecided: usize,
}

// What closing says.
#[derive(Clone, Copy, PartialEq, Eq)]
pub enum Outcome {
    Failed,
    Undecided,
    NothingChecked,
    Passed,
}

impl Counts {
    // One verdict more. A judging begins with counts of at most 32,768 and has at most as many verdicts.
    #[tactic(auto, unfolding(crate::specs::Tally::added))]
    pub fn add(mut self, v: Verdict) -> Self
        requires { (self.passed < 0x1_0000) × (self.failed < 0x1_0000) × (self.undecided < 0x1_0000) }
        ensures { result ≡ added v self }
    {
        match v {
            Verdict::Passed => self.passed += 1,
            Verdict::Failed => self.failed += 1,
            Verdict::Undecided => self.undecided += 1,
        }
        self
    }

    #[tactic(auto, unfolding(crate::specs::Tally::outcome_of))]
    pub fn outcome(self) -> Outcome
        ensures { result ≡ outcome_of self }
    {
        if 0 < self.failed {
            return Outcome::Failed;
        }
        if 0 < self.undecided {
            return Outcome::Undecided;
        }
        if self.passed == 0 {
            return Outcome::NothingChecked;
        }
        Outcome::Passed
    }

    // Whether a count is above 32,768.
    #[tactic(auto, unfolding(crate::specs::Tally::over_limit))]
    pub fn over_limit(self) -> bool
        ensures { result ≡ over_limit self }
    {
        0x8000 < self.passed || 0x8000 < self.failed || 0x8000 < self.undecided
    }
}
