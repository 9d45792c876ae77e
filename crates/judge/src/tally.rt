// The tally of a script's verdicts, and Judge.
ghost use Rattle.std.specs.Prelude.{◌≡◌, [], length};
ghost use Rattle.told.specs.Told.{counted};
ghost use Rattle.verdicts.specs.declared.handed.Handed.TheVariants.{Info, Response};
ghost use Rattle.judging.specs.Calls.{judge};
ghost use Rattle.judging.specs.Judge.{judge_step};
ghost use Rattle.judging.specs.Scratch.{scratch_after};
ghost use Rattle.ranges.specs.Judging.{lent_of, asked_of};
ghost use Rattle.judge.specs.Tally.{fresh_tally, state_of, turned};

use crate::calls::{Turn, turn_of};
use ranges::checks::counting;
use ranges::steps::{entry_range, judge_on};
use script::records::{Entry, Expectation, Script};
use script::response::{DaemonResponse, HandshakeInfo};
use subjects::handed::Subject;
use tallies::tally::Counts;
use texts::Held;
use told::counted_of;
use verdicts::handed::Handed;

// The number that is judged next (0 is the handshake, entries are from 1 on), and the verdicts so far.
#[derive(Clone, Copy)]
pub struct Tally {
    pub next: usize,
    pub counts: Counts,
}

impl Tally {
    // The fresh tally.
    pub fn new() -> Self
        ensures { result ≡ fresh_tally }
    {
        Self {
            next: 0,
            counts: Counts {
                passed: 0,
                failed: 0,
                undecided: 0,
            },
        }
    }

    // Judges the expectations of the preamble against what the handshake told. No entry is looked at.
    // What is lent comes apart: the theorem `Claims.demand_one` is about this signature.
    #[tactic(auto, unfolding(judging::specs::Judge::judge_step, judging::specs::Judge::judged, judging::specs::Judge::judged_on, judging::specs::Judge::refusal_on, judging::specs::Judge::range_for, judging::specs::Calls::wrong_number, judging::specs::Scratch::scratch_after, judging::specs::Scratch::scratch_on))]
    pub fn handshake(
        mut self,
        text: &[u8],
        script: Script,
        expectations: &[Expectation],
        number: usize,
        i: HandshakeInfo,
        bytes: &[u8],
        lists: &[[usize; 2]],
        verdicts: &mut [u8],
        scratch: &mut [u8],
    ) -> Turn
        ensures verdicts_after { turned result verdicts.new ≡ judge_step (lent_of text.now script [] expectations.now) (state_of self verdicts.old) (judge (asked_of number (Info i) bytes.now (counted lists.now) (length scratch.old))) }
        ensures scratch_after { scratch.new ≡ scratch_after (lent_of text.now script [] expectations.now) (state_of self verdicts.old) (asked_of number (Info i) bytes.now (counted lists.now) (length scratch.old)) scratch.old }
    {
        let lists = counted_of(lists);
        let h = Handed::Info(i);
        let subject = Subject {
            handed: &h,
            held: Held { bytes, lists },
        };
        let step = judge_on(
            self.next,
            self.counts,
            text,
            script,
            expectations,
            0,
            script.preamble.expects,
            number,
            subject,
            verdicts,
            scratch,
        );
        turn_of(step)
    }

    // Judges the expectations of an entry against a response. What is lent comes apart: the theorem `Claims.demand_one` is about this signature.
    #[tactic(auto, using(crate::proofs::TallyLaws::past_min), unfolding(judging::specs::Judge::judge_step, judging::specs::Judge::judged, judging::specs::Judge::judged_on, judging::specs::Judge::refusal_on, judging::specs::Judge::range_for, judging::specs::Scratch::scratch_after, judging::specs::Scratch::scratch_on, judging::specs::Judge::past_entries, judging::specs::Judge::range_refusals, judging::specs::Judge::out_of_reach, judging::specs::Judge::range_outside, judging::specs::Judge::few_slots, judging::specs::Judge::records_in, judging::specs::Judge::said_by, judging::specs::Judge::judged_by))]
    pub fn entry(
        mut self,
        text: &[u8],
        script: Script,
        entries: &[Entry],
        expectations: &[Expectation],
        number: usize,
        response: DaemonResponse,
        bytes: &[u8],
        lists: &[[usize; 2]],
        verdicts: &mut [u8],
        scratch: &mut [u8],
    ) -> Turn
        ensures verdicts_after { turned result verdicts.new ≡ judge_step (lent_of text.now script entries.now expectations.now) (state_of self verdicts.old) (judge (asked_of number (Response response) bytes.now (counted lists.now) (length scratch.old))) }
        ensures scratch_after { scratch.new ≡ scratch_after (lent_of text.now script entries.now expectations.now) (state_of self verdicts.old) (asked_of number (Response response) bytes.now (counted lists.now) (length scratch.old)) scratch.old }
    {
        let n = counting(script.counts.entries, entries.len());
        let lists = counted_of(lists);
        let h = Handed::Response(response);
        let subject = Subject {
            handed: &h,
            held: Held { bytes, lists },
        };
        let step = judge_on(
            self.next,
            self.counts,
            text,
            script,
            expectations,
            n,
            entry_range(entries, number),
            number,
            subject,
            verdicts,
            scratch,
        );
        turn_of(step)
    }
}
