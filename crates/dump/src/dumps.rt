// The dump of a reading into lent tables, and into tables of its own.
ghost use Rattle.std.specs.Prelude.{◌≡◌, ◌+◌, ◌*◌, ◌≤◌, min, length};
ghost use Rattle.text.specs.Base.{overlaid};
ghost use Rattle.written.specs.Writing.{Room, wrote};
ghost use Rattle.dump.specs.Dump.{dump_of, dump_into, read_dump};

use crate::answers::head_numbers;
use crate::lists::{put_entries, put_expectations, put_items};
use numbers::bytes::put_numbers;
use script::records::{Counts, Entry, Expectation, Refusal, Script};
use written::Writer;

// The tables of a script and its store, once it is read into them.
#[derive(Clone, Copy)]
struct Filled<'a> {
    entries: &'a [Entry],
    items: &'a [[usize; 2]],
    expectations: &'a [Expectation],
    store: &'a [u8],
    ghost few: { (length entries.now ≤ 0x8000) × (length items.now ≤ 0x8000) × (length expectations.now ≤ 0x8000) × (length store.now ≤ 0x8000) },
}

impl Filled<'_> {
    // How many bytes a dump of them has.
    fn size(self) -> usize
        ensures { result ≡ 160 + 184 * length self.entry.entries.now + 16 * length self.entry.items.now + 56 * length self.entry.expectations.now + length self.entry.store.now }
    {
        160 + 184 * self.entries.len()
            + 16 * self.items.len()
            + 56 * self.expectations.len()
            + self.store.len()
    }

    // Writes the answer and the tables.
    fn put(self, a: Result<Script, Refusal>, w: &mut Writer<u8>)
        requires { Room (length (dump_of a self.entries.now self.items.now self.expectations.now self.store.now)) w.old }
        ensures { w.new ≡ wrote (dump_of a self.entry.entries.now self.entry.items.now self.entry.expectations.now self.entry.store.now) w.old }
    {
        put_numbers(&head_numbers(a), w);
        put_entries(self.entries, w);
        put_items(self.items, w);
        put_expectations(self.expectations, w);
        w.put(self.store);
    }
}

// Reads a text into the lent tables, and writes the dump at the front of out, if there is room; how many bytes it has. The tables stand
// side by side, as Read takes them.
pub fn dump_into(
    text: &[u8],
    entries: &mut [Entry],
    items: &mut [[usize; 2]],
    expectations: &mut [Expectation],
    store: &mut [u8],
    out: &mut [u8],
) -> usize
    requires entries_len_bound { length entries.old ≤ 0x8000 }
    requires len_bound { length items.old ≤ 0x8000 }
    requires expectations_len_bound { length expectations.old ≤ 0x8000 }
    requires store_len_bound { length store.old ≤ 0x8000 }
    ensures value { result ≡ length (dump_into text.now entries.old items.old expectations.old store.old) }
    ensures out_after { out.new ≡ overlaid (dump_into text.now entries.old items.old expectations.old store.old) out.old }
{
    let a = read::reading::read(text, entries, items, expectations, store);
    let filled = Filled {
        entries,
        items,
        expectations,
        store,
    };
    let size = filled.size();
    if out.len() < size {
        return size;
    }
    let mut w = Writer::new(out);
    filled.put(a, &mut w);
    w.position()
}

// At most so many.
fn at_most(most: usize, n: usize) -> usize
    ensures { result ≡ min most n }
{
    if n < most {
        return n;
    }
    most
}

// Reads a text into blank tables, of which so many records and bytes are lent, and writes the dump at the front of out, if there is room; how many bytes it has.
pub fn dump_read(text: &[u8], lent: Counts, out: &mut [u8]) -> usize
    ensures value { result ≡ length (read_dump text.now lent.entries lent.items lent.expectations lent.store) }
    ensures out_after { out.new ≡ overlaid (read_dump text.now lent.entries lent.items lent.expectations lent.store) out.old }
{
    let mut es = blanks::blank_entries();
    let mut is = blanks::blank_items();
    let mut xs = blanks::blank_expectations();
    let mut bs = blanks::blank_store();
    let e = at_most(256, lent.entries);
    let i = at_most(1024, lent.items);
    let x = at_most(1024, lent.expectations);
    let b = at_most(32768, lent.store);
    dump_into(
        text,
        &mut es[..e],
        &mut is[..i],
        &mut xs[..x],
        &mut bs[..b],
        out,
    )
}
