// What each line of a text was found to be, kept by the line's number, so that a second walk over the lines need not find it out again.
#![tactic(auto)]

ghost use Rattle.std.specs.Prelude.{◌≡◌, true, List, ℕ, set, Some};
ghost use Rattle.kept.specs.Kept.{kept_of, Memo};

use script::roles::{Step, Where};

// A line: where it begins, where it stands, where the next line begins, what it is.
#[derive(Clone, Copy)]
pub struct Kept {
    pub at: usize,
    pub stands: Where,
    pub next: usize,
    pub step: Step,
}

// Room for no line: they are numbered from 1.
pub fn no_room() -> [Option<Kept>; 1]
    ensures { (text : List ℕ) → Memo text result }
{
    [None; 1]
}

// Keeps a line under its number, if there is room.
pub fn keep(
    kept: &mut [Option<Kept>],
    number: usize,
    at: usize,
    stands: Where,
    next: usize,
    step: Step,
)
    ensures { kept.new ≡ set kept.old number (Some (kept_of at stands next step)) }
{
    if number < kept.len() {
        kept[number] = Some(Kept {
            at,
            stands,
            next,
            step,
        });
    }
}

// Whether what is kept is of a line that begins there and stands there.
pub fn is_of(e: Kept, at: usize, w: Where) -> bool
    ensures { result ≡ true → (e.at ≡ at) × (e.stands ≡ w) }
{
    e.at == at && e.stands == w
}
