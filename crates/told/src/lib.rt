// What Message answers: as a definition of what is judged, and in code the answer and its refusals.
#![tactic(auto)]

ghost use Rattle.std.specs.Prelude.{◌≡◌};
ghost use Rattle.told.specs.Told.{counted};

use verdicts::Verdict;

// What Message answers unless it refuses: the verdict, and how many bytes the message has.
#[derive(Clone, Copy)]
pub struct Told {
    pub verdict: Verdict,
    pub len: usize,
}

// The first 32,768 records of a table of places.
#[tactic(auto, using(crate::proofs::ToldLaws::all_counted, crate::proofs::ToldLaws::counted_few))]
pub fn counted_of(lists: &[[usize; 2]]) -> &[[usize; 2]]
    ensures { result.now ≡ counted lists.now }
{
    if lists.len() <= 0x8000 {
        return lists;
    }
    &lists[..0x8000]
}
