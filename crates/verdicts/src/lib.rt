// The verdicts of document 01, "Verdicts", and the numbers that stand for them in a slot.
#![tactic(auto)]

ghost use Rattle.std.specs.Prelude.{◌≡◌};
ghost use Rattle.verdicts.specs.Verdicts.{code, decode};

pub mod handed;

// What judging one expectation gives, and the number of each verdict in its slot.
#[derive(Clone, Copy, PartialEq, Eq)]
pub enum Verdict {
    Passed = 1,
    Failed = 2,
    Undecided = 3,
}

impl From<Verdict> for u8 {
    ghost from_gives = { λ v n. n ≡ code v };

    #[tactic(auto, unfolding(crate::specs::Verdicts::code))]
    fn from(v: Verdict) -> u8 {
        v as u8
    }
}

// The verdict that a slot holds.
impl From<u8> for Verdict {
    ghost from_gives = { λ b v. v ≡ decode b };

    #[tactic(auto, unfolding(crate::specs::Verdicts::decode))]
    fn from(b: u8) -> Verdict {
        if b == 1 {
            return Verdict::Passed;
        }
        if b == 3 {
            return Verdict::Undecided;
        }
        Verdict::Failed
    }
}
