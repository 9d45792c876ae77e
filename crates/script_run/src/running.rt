// Read, and then every call. The function here holds slices of records.
ghost use Rattle.std.specs.Prelude.{map, ◌≡◌, length};
ghost use Rattle.script.specs.Reading.{read_into};
ghost use Rattle.written.specs.Written.{written_at};
ghost use Rattle.tables.specs.Items.{item_of};
ghost use Rattle.read.specs.Read.{script_or, tables_or, lent_of};
ghost use Rattle.judging.specs.PlainJudge.{plain_run};
ghost use Rattle.calls.specs.CallRows.{calls_of, answer_code};
ghost use Rattle.judging.specs.Runs.{plain_scratch};
ghost use Rattle.ran.specs.Ran.{plain_left, ran_of, if_done};

use asking::asks_more;
use judge::tally::Tally;
use ran::RunError;
use runs::calling::run_calls;
use script::records::{Entry, Expectation};
use texts::Held;

// Reads a script into the lent tables and makes every call in turn, from a fresh tally. The answers and what is left are those of the plain judge, which
// sees the text alone. Tried first: that there is a place for each answer, then that no call asks for more of the scratch than is lent.
// What is lent comes apart: the theorem `Claims.demand_one` is about this signature.
pub fn run_script(
    text: &[u8],
    entries: &mut [Entry],
    items: &mut [[usize; 2]],
    expectations: &mut [Expectation],
    store: &mut [u8],
    calls: &[[u64; 22]],
    bytes: &[u8],
    lists: &[[usize; 2]],
    verdicts: &mut [u8],
    scratch: &mut [u8],
    answers: &mut [u64],
) -> Result<Tally, RunError>
    ensures value { result ≡ ran_of (length answers.old) (length scratch.old) calls.now (script_or (read_into (lent_of entries.old items.old expectations.old store.old) text.now)) (plain_left text.now verdicts.old (calls_of bytes.now lists.now calls.now)) }
    ensures entries_after { entries.new ≡ if_done result (written_at 0 (tables_or (read_into (lent_of entries.old items.old expectations.old store.old) text.now)).entries entries.old) entries.old }
    ensures after { items.new ≡ if_done result (written_at 0 (map item_of (tables_or (read_into (lent_of entries.old items.old expectations.old store.old) text.now)).items) items.old) items.old }
    ensures expectations_after { expectations.new ≡ if_done result (written_at 0 (tables_or (read_into (lent_of entries.old items.old expectations.old store.old) text.now)).expectations expectations.old) expectations.old }
    ensures store_after { store.new ≡ if_done result (written_at 0 (tables_or (read_into (lent_of entries.old items.old expectations.old store.old) text.now)).store store.old) store.old }
    ensures verdicts_after { verdicts.new ≡ if_done result (plain_left text.now verdicts.old (calls_of bytes.now lists.now calls.now)).verdicts verdicts.old }
    ensures scratch_after { scratch.new ≡ if_done result (plain_scratch text.now (length verdicts.old) (calls_of bytes.now lists.now calls.now) scratch.old) scratch.old }
    ensures answers_after { answers.new ≡ if_done result (written_at 0 (map answer_code (plain_run text.now (length verdicts.old) (calls_of bytes.now lists.now calls.now)).0) answers.old) answers.old }
{
    if answers.len() < calls.len() {
        return Err(RunError::FewAnswers);
    }
    if asks_more(calls, scratch.len()) {
        return Err(RunError::MuchScratch);
    }
    let script = read::reading::read(text, entries, items, expectations, store)?;
    Ok(run_calls(
        text,
        script,
        entries,
        expectations,
        calls,
        Held { bytes, lists },
        verdicts,
        scratch,
        answers,
    ))
}
