// The tests that come before anything is touched, each named by the refusal that it is for.
ghost use Rattle.std.specs.Prelude.{◌≡◌, not, ◌≤◌, min, ltb, eqb};
ghost use Rattle.text.specs.Base.{◌&◌};
ghost use Rattle.script.specs.Reading.{room};
ghost use Rattle.verdicts.specs.Held as Held;
ghost use Rattle.judging.specs.Calls.{wrong_number};

use places::inside;
use script::records::Items;
use verdicts::handed::Handed;

// How many of n records count, and of `count` that a script says there are.
#[tactic(auto, unfolding(script::specs::Reading::room))]
pub fn counting(count: usize, n: usize) -> usize
    ensures value { result ≡ min count (room n) }
    ensures upper_bound { result ≤ 0x8000 }
{
    count.min(n.min(0x8000))
}

// `WrongNumber`: an entry's number is at least 1, the handshake's is 0.
#[tactic(auto, unfolding(judging::specs::Calls::wrong_number))]
pub(crate) fn wrong_number(next: usize, number: usize, entries: usize, h: &Handed) -> bool
    ensures { result ≡ wrong_number next number (ltb entries number) h.now }
{
    match h {
        Handed::Info(_) => number != next || number != 0,
        Handed::Response(_) => number != next || number == 0 || entries < number,
    }
}

// `ExpectationOutside`: where the range is empty there is nothing to be judged.
pub(crate) fn range_outside(count: usize, n: usize, r: Items) -> bool
    ensures { result ≡ not (eqb r.count 0) & not (Held.inside (min count (room n)) r.first r.count) }
{
    r.count != 0 && !inside(counting(count, n), r.first, r.count)
}

// `FewSlots`: a slot for each expectation that the script says there are.
#[tactic(auto, unfolding(script::specs::Reading::room))]
pub(crate) fn few_slots(count: usize, places: usize) -> bool
    ensures { result ≡ ltb (room places) count }
{
    places.min(0x8000) < count
}
