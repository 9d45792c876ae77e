// One call, and a list of calls. Functions here hold slices of records. Verdicts and scratch are two slices and no struct: each call is lent a front of
// the scratch and all of the verdicts, so that a struct of both would be made anew for it.
ghost use Rattle.std.specs.Prelude.{false, map, ◌≡◌, ◌≤◌, length};
ghost use Rattle.written.specs.Written.{written_at};
ghost use Rattle.rows.specs.Rows.{at};
ghost use Rattle.judging.specs.Calls.{run};
ghost use Rattle.judging.specs.Judge.{judge_start, judge_step};
ghost use Rattle.judge.specs.Tally.{state_of, turned};
ghost use Rattle.calls.specs.CallRows.{call_of, calls_of, answer_code};
ghost use Rattle.judging.specs.Runs.{scratch_call, scratch_run};
ghost use Rattle.asking.specs.Asking.{asks_more};

use calls::answers::answer_code;
use calls::handed::{info_in, response_in};
use judge::calls::Turn;
use judge::tally::Tally;
use script::records::{Entry, Expectation, Script};
use texts::Held;

// One call of a row: it is lent the front part of the scratch that it asks for. Its kind is a number, since a host hands rows of numbers (the C interface).
pub fn one_call(
    t: Tally,
    text: &[u8],
    script: Script,
    entries: &[Entry],
    expectations: &[Expectation],
    row: [u64; 22],
    held: Held<'_>,
    verdicts: &mut [u8],
    scratch: &mut [u8],
) -> Turn
    requires { at row 2 ≤ length scratch.old }
    ensures verdicts_after { turned result verdicts.new ≡ judge_step (record { text = text.entry.now; script = script; entries = entries.now; expectations = expectations.now }) (state_of t verdicts.old) (call_of held.entry.bytes.now held.entry.lists.now row) }
    ensures scratch_after { scratch.new ≡ scratch_call (record { text = text.entry.now; script = script; entries = entries.now; expectations = expectations.now }) (state_of t verdicts.old) (call_of held.entry.bytes.now held.entry.lists.now row) scratch.old }
{
    let kind = row[0];
    if kind == 0 {
        return t.close(script);
    }
    let number = row[1] as usize;
    let n = row[2] as usize;
    if kind == 1 {
        let i = info_in(row);
        return t.handshake(
            text,
            script,
            expectations,
            number,
            i,
            held.bytes,
            held.lists,
            verdicts,
            &mut scratch[..n],
        );
    }
    let r = response_in(row);
    t.entry(
        text,
        script,
        entries,
        expectations,
        number,
        r,
        held.bytes,
        held.lists,
        verdicts,
        &mut scratch[..n],
    )
}

// Every call in turn, from a fresh tally: each answer at its call's place.
pub fn run_calls(
    text: &[u8],
    script: Script,
    entries: &[Entry],
    expectations: &[Expectation],
    calls: &[[u64; 22]],
    held: Held<'_>,
    verdicts: &mut [u8],
    scratch: &mut [u8],
    answers: &mut [u64],
) -> Tally
    requires calls_in_bounds { length calls.now ≤ length answers.old }
    requires calls_value { asks_more (length scratch.old) calls.now ≡ false }
    ensures verdicts_after { state_of result verdicts.new ≡ (run (judge_step (record { text = text.entry.now; script = script; entries = entries.now; expectations = expectations.now })) (judge_start verdicts.old) (calls_of held.entry.bytes.now held.entry.lists.now calls.now)).1 }
    ensures answers_after { answers.new ≡ written_at 0 (map answer_code (run (judge_step (record { text = text.entry.now; script = script; entries = entries.now; expectations = expectations.now })) (judge_start verdicts.old) (calls_of held.entry.bytes.now held.entry.lists.now calls.now)).0) answers.old }
    ensures scratch_after { scratch.new ≡ scratch_run (judge_step (record { text = text.entry.now; script = script; entries = entries.now; expectations = expectations.now })) (scratch_call (record { text = text.entry.now; script = script; entries = entries.now; expectations = expectations.now })) (judge_start verdicts.old) (calls_of held.entry.bytes.now held.entry.lists.now calls.now) scratch.old }
{
    let mut t = Tally::new();
    for (i, row) in calls.iter().enumerate() {
        let turn = one_call(
            t,
            text,
            script,
            entries,
            expectations,
            *row,
            held,
            verdicts,
            scratch,
        );
        t = turn.tally;
        answers[i] = answer_code(turn.answer);
    }
    t
}
