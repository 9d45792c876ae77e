// Expectations, one after another.
ghost use Rattle.std.specs.Prelude.{◌≡◌, false, not, map, ◌≤◌, length};
ghost use Rattle.text.specs.Base.{overlaid};
ghost use Rattle.verdicts.specs.Lookup.{looked};
ghost use Rattle.verdicts.specs.Verdicts.{verdict, code};
ghost use Rattle.tallies.specs.Tally.{added_all};
ghost use Rattle.judging.specs.Calls.{said, too_long};
ghost use Rattle.judging.specs.Judge.{all_in};
ghost use Rattle.judging.specs.Scratch.{overwritten};
ghost use Rattle.subjects.specs.Against.{against};

use script::records::Expectation;
use subjects::handed::Subject;
use subjects::one::{judge_one, reaches, value_fits};
use tallies::tally::Counts;

// Every part of them lies inside the text.
pub fn all_in(text: &[u8], expectations: &[Expectation]) -> bool
    ensures { result ≡ all_in text.now expectations.now }
{
    let n = text.len();
    expectations.iter().all(|x| reaches(*x, n))
}

// Each value that they look up, unless it is missing, has a place in so much room.
pub fn all_fit(text: &[u8], expectations: &[Expectation], s: Subject<'_>, room: usize) -> bool
    ensures { result ≡ not (too_long room (map (looked (against s.entry)) (said text.now expectations.now))) }
{
    expectations.iter().all(|x| value_fits(*x, text, s, room))
}

// Judges them: each verdict goes into its own slot and is counted, each present value is written over the last.
pub fn judge_range(
    text: &[u8],
    expectations: &[Expectation],
    s: Subject<'_>,
    slots: &mut [u8],
    scratch: &mut [u8],
    counts: Counts,
) -> Counts
    requires slots_bound { length expectations.now ≤ length slots.old }
    requires count_bound { length expectations.now ≤ 0x8000 }
    requires passed_bound { (counts.passed ≤ 0x8000) × (counts.failed ≤ 0x8000) × (counts.undecided ≤ 0x8000) }
    requires fit { too_long (length scratch.old) (map (looked (against s)) (said text.now expectations.now)) ≡ false }
    ensures value { result ≡ added_all (map (verdict (against s.entry)) (said text.now expectations.now)) counts }
    ensures slots_after { slots.new ≡ overlaid (map code (map (verdict (against s.entry)) (said text.now expectations.now))) slots.old }
    ensures scratch_after { scratch.new ≡ overwritten (map (looked (against s.entry)) (said text.now expectations.now)) scratch.old }
{
    let mut c = counts;
    // By place: nothing is known of the slots after a `zip` with `iter_mut`.
    for (i, x) in expectations.iter().enumerate() {
        let v = judge_one(*x, text, s, scratch);
        slots[i] = u8::from(v);
        c = c.add(v);
    }
    c
}
