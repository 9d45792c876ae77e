// Whether Measure answered what is stored, and how cases are counted.
#![tactic(auto)]

ghost use Rattle.std.specs.Prelude.{◌≡◌, ◌≤◌};
ghost use Rattle.cases.specs.Answers.{answer_of, matched};
ghost use Rattle.cases.specs.Cases.{counted, total};

use script::records::{Counts, Refusal};

// An answer of Measure, in the numbers of a line of stored answers: 0 or the refusal's number first, and no `Result`, since a line may have any numbers.
#[derive(Clone, Copy, PartialEq, Eq)]
pub struct Answer {
    pub number: u64,
    pub line: usize,
    pub entries: usize,
    pub items: usize,
    pub expectations: usize,
    pub store: usize,
}

// What a line of the input came to: a text that Measure reads, one that it refuses, one whose dump by Read is right; an
// expectation whose verdict and message are right. A line that cannot be read is Wrong.
#[derive(Clone, Copy)]
pub enum Case {
    Read,
    Refused,
    Dumped,
    Judged,
    Wrong,
}

#[derive(Clone, Copy)]
pub struct Tally {
    pub read: usize,
    pub refused: usize,
    pub dumped: usize,
    pub judged: usize,
    pub wrong: usize,
}

#[tactic(auto, unfolding(crate::specs::Answers::answer_of))]
fn answer_of(m: Result<Counts, Refusal>) -> Answer
    ensures { result ≡ answer_of m }
{
    match m {
        Err(r) => Answer {
            number: r.reason.number(),
            line: r.line,
            entries: 0,
            items: 0,
            expectations: 0,
            store: 0,
        },
        Ok(c) => Answer {
            number: 0,
            line: 0,
            entries: c.entries,
            items: c.items,
            expectations: c.expectations,
            store: c.store,
        },
    }
}

// Whether Measure answered what is stored.
#[tactic(auto, unfolding(crate::specs::Answers::same_answer))]
pub fn agrees(m: Result<Counts, Refusal>, stored: Answer) -> bool
    ensures { result ≡ matched m stored }
{
    answer_of(m) == stored
}

impl Tally {
    // With one case more. The counts are small: a case takes a line of the input.
    #[tactic(auto, unfolding(crate::specs::Cases::counted))]
    pub fn with(mut self, c: Case) -> Tally
        requires { total self ≤ 0x100000 }
        ensures { result ≡ counted self c }
    {
        match c {
            Case::Read => self.read += 1,
            Case::Refused => self.refused += 1,
            Case::Dumped => self.dumped += 1,
            Case::Judged => self.judged += 1,
            Case::Wrong => self.wrong += 1,
        }
        self
    }
}
