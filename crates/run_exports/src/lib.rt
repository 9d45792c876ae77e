// A list of calls on a script, as a host makes them. What is lent comes apart: no struct of slices goes through C.
#![tactic(auto)]

ghost use Rattle.std.specs.Prelude.{map, ◌≡◌, length};
ghost use Rattle.written.specs.Written.{written_at};
ghost use Rattle.judging.specs.PlainJudge.{plain_run};
ghost use Rattle.calls.specs.CallRows.{calls_of, answer_code};
ghost use Rattle.judging.specs.Runs.{plain_scratch};
ghost use Rattle.ran.specs.Ran.{plain_left, if_done};
ghost use Rattle.ran.specs.Told.{status_of, ran_line, ran_tally};
ghost use Rattle.run_alone.specs.Alone.{ran_alone};

use ran::{ran_line, ran_tally, status_of};
use texts::Held;

// Reads a script and makes every call in turn: 0, or why it is not done and on which line; the tally. Where it is not done the tally's numbers are 0 and
// the slices are as they were.
#[unsafe(no_mangle)]
pub extern "C" fn nwscript_run(
    text: &[u8],
    calls: &[[u64; 22]],
    bytes: &[u8],
    lists: &[[usize; 2]],
    verdicts: &mut [u8],
    scratch: &mut [u8],
    answers: &mut [u64],
    line: &mut usize,
    next: &mut usize,
    passed: &mut usize,
    failed: &mut usize,
    undecided: &mut usize,
) -> u64
    ensures value { result ≡ status_of (ran_alone text.now calls.now bytes.now lists.now verdicts.old (length scratch.old) (length answers.old)) }
    ensures line_after { line.new ≡ ran_line (ran_alone text.now calls.now bytes.now lists.now verdicts.old (length scratch.old) (length answers.old)) }
    ensures undecided_after { record { next = next.exit.now; counts = record { passed = passed.exit.now; failed = failed.new; undecided = undecided.new } } ≡ ran_tally (ran_alone text.now calls.now bytes.now lists.now verdicts.old (length scratch.old) (length answers.old)) }
    ensures verdicts_after { verdicts.new ≡ if_done (ran_alone text.now calls.now bytes.now lists.now verdicts.old (length scratch.old) (length answers.old)) (plain_left text.now verdicts.old (calls_of bytes.now lists.now calls.now)).verdicts verdicts.old }
    ensures scratch_after { scratch.new ≡ if_done (ran_alone text.now calls.now bytes.now lists.now verdicts.old (length scratch.old) (length answers.old)) (plain_scratch text.now (length verdicts.old) (calls_of bytes.now lists.now calls.now) scratch.old) scratch.old }
    ensures answers_after { answers.new ≡ if_done (ran_alone text.now calls.now bytes.now lists.now verdicts.old (length scratch.old) (length answers.old)) (written_at 0 (map answer_code (plain_run text.now (length verdicts.old) (calls_of bytes.now lists.now calls.now)).0) answers.old) answers.old }
{
    let held = Held { bytes, lists };
    let r = run_alone::run_alone(text, calls, held, verdicts, scratch, answers);
    let t = ran_tally(r);
    *line = ran_line(r);
    *next = t.next;
    *passed = t.counts.passed;
    *failed = t.counts.failed;
    *undecided = t.counts.undecided;
    status_of(r)
}
