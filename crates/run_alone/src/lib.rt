// A script read into tables of its own and judged by a list of calls, for a host that has no records. The function here holds slices of records.
#![tactic(auto)]

ghost use Rattle.std.specs.Prelude.{map, ◌≡◌, length};
ghost use Rattle.written.specs.Written.{written_at};
ghost use Rattle.judging.specs.PlainJudge.{plain_run};
ghost use Rattle.calls.specs.CallRows.{calls_of, answer_code};
ghost use Rattle.judging.specs.Runs.{plain_scratch};
ghost use Rattle.ran.specs.Ran.{plain_left, if_done};
ghost use Rattle.run_alone.specs.Alone.{ran_alone};

use judge::tally::Tally;
use ran::RunError;
use script_run::running::run_script;
use texts::Held;

// What is written comes apart, as `run_script` takes it.
pub fn run_alone(
    text: &[u8],
    calls: &[[u64; 22]],
    held: Held<'_>,
    verdicts: &mut [u8],
    scratch: &mut [u8],
    answers: &mut [u64],
) -> Result<Tally, RunError>
    ensures value { result ≡ ran_alone text.now calls.now held.entry.bytes.now held.entry.lists.now verdicts.old (length scratch.old) (length answers.old) }
    ensures verdicts_after { verdicts.new ≡ if_done result (plain_left text.now verdicts.old (calls_of held.entry.bytes.now held.entry.lists.now calls.now)).verdicts verdicts.old }
    ensures scratch_after { scratch.new ≡ if_done result (plain_scratch text.now (length verdicts.old) (calls_of held.entry.bytes.now held.entry.lists.now calls.now) scratch.old) scratch.old }
    ensures answers_after { answers.new ≡ if_done result (written_at 0 (map answer_code (plain_run text.now (length verdicts.old) (calls_of held.entry.bytes.now held.entry.lists.now calls.now)).0) answers.old) answers.old }
{
    let mut es = blanks::blank_entries();
    let mut is = blanks::blank_items();
    let mut xs = blanks::blank_expectations();
    let mut bs = blanks::blank_store();
    run_script(
        text, &mut es, &mut is, &mut xs, &mut bs, calls, held.bytes, held.lists, verdicts, scratch,
        answers,
    )
}
