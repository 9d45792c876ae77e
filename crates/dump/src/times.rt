// Reading again and again, for a host that measures how long it takes.
ghost use Rattle.std.specs.Prelude.{◌≡◌};
ghost use Rattle.dump.specs.Times.{refusal_number, last_number};

use script::records::{Refusal, Script};

// The number of the refusal, or 0.
#[tactic(auto, unfolding(crate::specs::Times::refusal_number))]
fn number_of(a: Result<Script, Refusal>) -> u64
    ensures { result ≡ refusal_number a }
{
    match a {
        Err(r) => r.reason.number(),
        Ok(_) => 0,
    }
}

// Reads a text so many times into the same tables: the number of the last refusal, or 0.
pub fn read_times(text: &[u8], times: u64) -> u64
    ensures { result ≡ last_number text.now times }
{
    let mut es = blanks::many_entries();
    let mut is = blanks::many_items();
    let mut xs = blanks::many_expectations();
    let mut bs = blanks::blank_store();
    let mut last: u64 = 0;
    for _n in 0..times {
        let a = read::reading::read(text, &mut es, &mut is, &mut xs, &mut bs);
        last = number_of(a);
    }
    last
}
