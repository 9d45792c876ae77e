// A whole script: the preamble, then the entries.
ghost use Rattle.std.specs.Prelude.{◌≡◌, map, ◌≤◌, length};
ghost use Rattle.written.specs.Written.{written_at};
ghost use Rattle.tables.specs.Items.{item_of};
ghost use Rattle.entries.specs.Whole.{reading_of};

use crate::entries::read_entries;
use below::lines_below::read_lines;
use closing::front::put_front;
use preamble_records::preamble_of;
use said::said::{Heard, Said};
use script::records::{Counts, Entry, Expectation, Script};
use script::roles::Where;
use turns::Measured;
use written::Writer;

// Reads a text that is not refused into tables that are long enough.
pub fn read_script(
    m: Measured<'_>,
    counts: Counts,
    entries: &mut [Entry],
    items: &mut [[usize; 2]],
    expectations: &mut [Expectation],
    store: &mut [u8],
) -> Script
    requires counts_value { counts ≡ (reading_of m.text.now).script.counts }
    requires entries_room { length (reading_of m.text.now).tables.entries ≤ length entries.old }
    requires items_room { length (reading_of m.text.now).tables.items ≤ length items.old }
    requires expectations_room { length (reading_of m.text.now).tables.expectations ≤ length expectations.old }
    requires store_room { length (reading_of m.text.now).tables.store ≤ length store.old }
    ensures value { result ≡ (reading_of m.entry.text.now).script }
    ensures entries_after { entries.new ≡ written_at 0 (reading_of m.entry.text.now).tables.entries entries.old }
    ensures after { items.new ≡ written_at 0 (map item_of (reading_of m.entry.text.now).tables.items) items.old }
    ensures expectations_after { expectations.new ≡ written_at 0 (reading_of m.entry.text.now).tables.expectations expectations.old }
    ensures store_after { store.new ≡ written_at 0 (reading_of m.entry.text.now).tables.store store.old }
{
    let mut entries = Writer::new(entries);
    let mut items = Writer::new(items);
    let mut expectations = Writer::new(expectations);
    let mut store = Writer::new(store);
    let mut heard = Heard::new();
    let next = read_lines(
        m,
        0,
        1,
        Where::InPreamble,
        &mut heard,
        false,
        &mut items,
        &mut expectations,
    );
    let said = Said {
        text: m.text,
        heard: &heard,
    };
    let f = put_front(said, &mut items);
    let expects = expectations.position();
    let preamble = preamble_of(said, f.features, f.server, expects);
    read_entries(
        m,
        next,
        &mut entries,
        &mut items,
        &mut expectations,
        &mut store,
    );
    Script { preamble, counts }
}
