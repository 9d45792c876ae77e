// The records of the tables, in bytes, one after another.
ghost use Rattle.std.specs.Prelude.{◌≡◌, length};
ghost use mathlib.Core.List.{flat_map};
ghost use Rattle.written.specs.Writing.{Room, wrote};
ghost use Rattle.numbers.specs.Numbers.{item_numbers};
ghost use Rattle.dump.specs.Dump.{entry_bytes, item_bytes, expectation_bytes};

use numbers::bytes::put_numbers;
use script::records::{Entry, Expectation};
use written::Writer;

fn put_entry(e: Entry, w: &mut Writer<u8>)
    requires { Room (length (entry_bytes e)) w.old }
    ensures { w.new ≡ wrote (entry_bytes e) w.old }
{
    put_numbers(&numbers::entries::entry_head(e), w);
    put_numbers(&numbers::entries::call_numbers(e.op_call), w);
}

pub fn put_entries(entries: &[Entry], w: &mut Writer<u8>)
    requires { Room (length (flat_map entry_bytes entries.now)) w.old }
    ensures { w.new ≡ wrote (flat_map entry_bytes entries.now) w.old }
{
    for e in entries {
        put_entry(*e, w);
    }
}

fn item_numbers(item: [usize; 2]) -> [u64; 2]
    ensures { result ≡ item_numbers item }
{
    [item[0] as u64, item[1] as u64]
}

pub fn put_items(items: &[[usize; 2]], w: &mut Writer<u8>)
    requires { Room (length (flat_map item_bytes items.now)) w.old }
    ensures { w.new ≡ wrote (flat_map item_bytes items.now) w.old }
{
    for item in items {
        put_numbers(&item_numbers(*item), w);
    }
}

pub fn put_expectations(expectations: &[Expectation], w: &mut Writer<u8>)
    requires { Room (length (flat_map expectation_bytes expectations.now)) w.old }
    ensures { w.new ≡ wrote (flat_map expectation_bytes expectations.now) w.old }
{
    for x in expectations {
        put_numbers(&numbers::expectations::expectation_numbers(*x), w);
    }
}
