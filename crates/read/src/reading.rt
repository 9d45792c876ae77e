// Read: it refuses before anything is written.
ghost use Rattle.std.specs.Prelude.{◌≡◌, map};
ghost use Rattle.script.specs.Reading.{read_into};
ghost use Rattle.written.specs.Written.{written_at};
ghost use Rattle.tables.specs.Items.{item_of};
ghost use Rattle.read.specs.Read.{script_or, tables_or, lent_of};

use entries::scripts::read_script;
use script::records::{Entry, Expectation, Refusal, Script};
use turns::Measured;

// Reads a script into the lent tables: the used front of each holds the script's records, the rest is as it was. Where Measure refuses, or a table is too
// short, all is as it was.
pub fn read(
    text: &[u8],
    entries: &mut [Entry],
    items: &mut [[usize; 2]],
    expectations: &mut [Expectation],
    store: &mut [u8],
) -> Result<Script, Refusal>
    ensures result_value { result ≡ script_or (read_into (lent_of entries.old items.old expectations.old store.old) text.now) }
    ensures entries_after { entries.new ≡ written_at 0 (tables_or (read_into (lent_of entries.old items.old expectations.old store.old) text.now)).entries entries.old }
    ensures after { items.new ≡ written_at 0 (map item_of (tables_or (read_into (lent_of entries.old items.old expectations.old store.old) text.now)).items) items.old }
    ensures expectations_after { expectations.new ≡ written_at 0 (tables_or (read_into (lent_of entries.old items.old expectations.old store.old) text.now)).expectations expectations.old }
    ensures store_after { store.new ≡ written_at 0 (tables_or (read_into (lent_of entries.old items.old expectations.old store.old) text.now)).store store.old }
{
    let mut kept = [None; 1024];
    let needed = parse::measure::measure_keeping(text, &mut kept)?;
    let lent = fits::lent_of(entries.len(), items.len(), expectations.len(), store.len());
    fits::room_for(needed, lent)?;
    let m = Measured { text, kept: &kept };
    Ok(read_script(m, needed, entries, items, expectations, store))
}
