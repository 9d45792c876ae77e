// Entries, one after another: the lines below an opening line, then what is written and stored when the last of them has been read.
ghost use Rattle.std.specs.Prelude.{◌≡◌, ◌+◌, ◌≤◌, length};
ghost use Rattle.script.specs.Operations.{form_of};
ghost use Rattle.script.specs.Inside.{In};
ghost use Rattle.below.specs.Below.{ahead, ahead_of, NextIn, roles_at};
ghost use Rattle.entries.specs.Entries.{takes_pairs, entry_at};
ghost use Rattle.entries.specs.Laid.{lent, laid_one, laid_ahead, RoomFor, wrote_all};

use below::lines_below::{Ahead, read_lines};
use closing::entry::entry_of;
use records::calls::Share;
use said::said::{Heard, Operation, Said};
use script::records::{Entry, Expectation};
use stored::stored_values::put_values;
use turns::Measured;
use wire::ops::Op;
use written::Writer;

// Whether the operation takes an override list.
#[tactic(auto, unfolding(script::specs::Operations::form_of, crate::specs::Entries::takes_pairs))]
fn takes_pairs(op: Op) -> bool
    ensures { result ≡ takes_pairs (form_of op).shape }
{
    match op {
        Op::SetOptions => true,
        _ => false,
    }
}

// Reads one entry, whose opening line is ahead, and says what comes next. The four tables are four parameters, here and in the callers: in a struct of
// writers they got no proof, since nothing is known of what a field's field was lent once the struct ends.
pub fn read_entry(
    m: Measured<'_>,
    a: Ahead,
    entries: &mut Writer<Entry>,
    items: &mut Writer<[usize; 2]>,
    expectations: &mut Writer<Expectation>,
    store: &mut Writer<u8>,
) -> Option<Ahead>
    requires at_in_bounds { a.at ≤ length m.text.now }
    requires line_le_at { a.line ≤ a.at }
    requires fact { In m.text.now a.opening.args }
    requires room { RoomFor (laid_one (lent entries.old items.old expectations.old store.old) (entry_at m.text.now a)) (lent entries.old items.old expectations.old store.old) }
    ensures next_value { ahead_of m.entry.text.now result ≡ ahead (roles_at m.entry.text.now a.stands a.at (a.line + 1)) }
    ensures next_in { NextIn m.entry.text.now a.at result }
    ensures after { lent entries.new items.new expectations.new store.new ≡ wrote_all (laid_one (lent entries.old items.old expectations.old store.old) (entry_at m.entry.text.now a)) (lent entries.old items.old expectations.old store.old) }
{
    let i = items.position();
    let x = expectations.position();
    let b = store.position();
    let mut heard = Heard::new();
    let next = read_lines(
        m,
        a.at,
        a.line + 1,
        a.stands,
        &mut heard,
        takes_pairs(a.opening.op),
        items,
        expectations,
    );
    let said = Said {
        text: m.text,
        heard: &heard,
    };
    let operation = Operation {
        opening: a.opening,
        said,
    };
    let pairs = items.position() - i;
    let sizes = put_values(operation, pairs, items, store);
    let share = Share {
        items_before: i,
        bytes_before: b,
        sizes,
    };
    let n = expectations.position() - x;
    entries.put_one(entry_of(a.line, operation, share, x, n));
    next
}

// Reads the entries from the one that comes next on.
pub fn read_entries(
    m: Measured<'_>,
    first: Option<Ahead>,
    entries: &mut Writer<Entry>,
    items: &mut Writer<[usize; 2]>,
    expectations: &mut Writer<Expectation>,
    store: &mut Writer<u8>,
)
    requires next_in { NextIn m.text.now 0 first }
    requires room { RoomFor (laid_ahead m.text.now first (lent entries.old items.old expectations.old store.old)) (lent entries.old items.old expectations.old store.old) }
    ensures { lent entries.new items.new expectations.new store.new ≡ wrote_all (laid_ahead m.entry.text.now first (lent entries.old items.old expectations.old store.old)) (lent entries.old items.old expectations.old store.old) }
{
    let mut next = first;
    // No iterator gives the entries: only when one has been read is it known where the next one stands.
    while let Some(a) = next {
        next = read_entry(m, a, entries, items, expectations, store);
    }
}
