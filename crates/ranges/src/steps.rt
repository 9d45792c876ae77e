// Judge: refusals first, then a range. Functions here hold a slice of records.
ghost use Rattle.std.specs.Prelude.{◌≡◌, [], ◌-◌, ◌≤◌, length, get_or, ltb};
ghost use Rattle.slots.specs.Blank.{blank_entry};
ghost use Rattle.script.specs.Refusals.{ok_unless};
ghost use Rattle.judging.specs.Judge.{refusal_on, judged_on};
ghost use Rattle.judging.specs.Scratch.{scratch_on};
ghost use Rattle.ranges.specs.Judging.{stepped, lent_of, asked_of};

use crate::checks::{few_slots, range_outside, wrong_number};
use crate::each::{all_fit, all_in, judge_range};
use script::records::{Entry, Expectation, Items, Refusal, Script};
use script::refusals::Reason;
use subjects::handed::Subject;
use tallies::calls::Answer;
use tallies::tally::Counts;
use texts::part_of;

// What a judging answered, and the next number and the counts that it left.
#[derive(Clone, Copy)]
pub struct Step {
    pub next: usize,
    pub counts: Counts,
    pub answer: Result<Answer, Refusal>,
}

// The first refusal that applies, if one does; `entries`: so many can be judged.
#[tactic(auto, unfolding(judging::specs::Judge::refusal_on, judging::specs::Judge::range_refusals, judging::specs::Judge::out_of_reach, judging::specs::Judge::range_outside, judging::specs::Judge::few_slots, judging::specs::Judge::records_in, judging::specs::Judge::said_by, judging::specs::Calls::part_outside, tallies::specs::Answers::first_refusal, tallies::specs::Answers::refused_if, script::specs::Refusals::ok_unless))]
pub fn refusal_of(
    next: usize,
    counts: Counts,
    text: &[u8],
    script: Script,
    expectations: &[Expectation],
    entries: usize,
    r: Items,
    number: usize,
    s: Subject<'_>,
    places: usize,
    room: usize,
) -> Result<(), Refusal>
    ensures { result ≡ ok_unless (refusal_on (lent_of text.now script [] expectations.now) (ltb entries number) r next counts places (asked_of number s.entry.handed.now s.entry.held.bytes.now s.entry.held.lists.now room)) }
{
    if counts.over_limit() {
        return Err(Refusal::from(Reason::CountTooHigh));
    }
    if wrong_number(next, number, entries, s.handed) {
        return Err(Refusal::from(Reason::WrongNumber));
    }
    // What there is of the range, which may be forged: no sum of its numbers is made.
    let judged = part_of(expectations, r.first, r.count);
    if range_outside(script.counts.expectations, expectations.len(), r) || !all_in(text, judged) {
        return Err(Refusal::from(Reason::ExpectationOutside));
    }
    if !s.parts_in() {
        return Err(Refusal::from(Reason::PartOutside));
    }
    if few_slots(script.counts.expectations, places) {
        return Err(Refusal::from(Reason::FewSlots));
    }
    if !all_fit(text, judged, s, room) {
        return Err(Refusal::from(Reason::ValueTooLong));
    }
    Ok(())
}

// The judging of a range. Verdicts and scratch are two slices and no struct: of the first only the range's slots are handed on, of the second all.
#[tactic(auto, unfolding(judging::specs::Judge::judged_on, judging::specs::Judge::judged_by, judging::specs::Judge::said_by, judging::specs::Judge::records_in, judging::specs::Calls::judged_or, judging::specs::Scratch::scratch_on, judging::specs::Scratch::overwritten_or, script::specs::Refusals::ok_unless))]
pub fn judge_on(
    next: usize,
    counts: Counts,
    text: &[u8],
    script: Script,
    expectations: &[Expectation],
    entries: usize,
    r: Items,
    number: usize,
    s: Subject<'_>,
    verdicts: &mut [u8],
    scratch: &mut [u8],
) -> Step
    requires { entries ≤ 0x8000 }
    ensures verdicts_after { stepped result verdicts.new ≡ judged_on (lent_of text.now script [] expectations.now) (ltb entries number) r (record { next = next; counts = counts; verdicts = verdicts.old }) (asked_of number s.entry.handed.now s.entry.held.bytes.now s.entry.held.lists.now (length scratch.old)) }
    ensures scratch_after { scratch.new ≡ scratch_on (lent_of text.now script [] expectations.now) (ltb entries number) r (record { next = next; counts = counts; verdicts = verdicts.old }) (asked_of number s.entry.handed.now s.entry.held.bytes.now s.entry.held.lists.now (length scratch.old)) scratch.old }
{
    let tried = refusal_of(
        next,
        counts,
        text,
        script,
        expectations,
        entries,
        r,
        number,
        s,
        verdicts.len(),
        scratch.len(),
    );
    if let Err(refusal) = tried {
        return Step {
            next,
            counts,
            answer: Err(refusal),
        };
    }
    let judged = part_of(expectations, r.first, r.count);
    // An empty range may begin anywhere, also past the slots.
    let first = r.first.min(verdicts.len());
    let after = judge_range(text, judged, s, &mut verdicts[first..], scratch, counts);
    Step {
        next: next + 1,
        counts: after,
        answer: Ok(Answer::Judged),
    }
}

// The range of the entry of that number; entries are numbered from 1.
pub fn entry_range(entries: &[Entry], number: usize) -> Items
    ensures { result ≡ (get_or entries.now (number - 1) blank_entry).expects }
{
    let i = number.saturating_sub(1);
    if i < entries.len() {
        return entries[i].expects;
    }
    Items { first: 0, count: 0 }
}
