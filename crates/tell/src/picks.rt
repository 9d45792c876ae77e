// One expectation of the lent table. `pick` holds a slice of records.
ghost use Rattle.std.specs.Prelude.{◌≡◌};
ghost use Rattle.tell.specs.Pick.{picked_at};

use script::records::{Expect, Expectation};

// What is expected at a place of the table, if an expectation that counts stands there: one of the first 32,768, and below the count.
#[tactic(auto, unfolding(crate::specs::Pick::picked_at, crate::specs::Tell::placed, crate::specs::Tell::expect_at, script::specs::Reading::room))]
pub fn pick(expectations: &[Expectation], count: usize, at: usize) -> Option<Expect>
    ensures { result ≡ picked_at expectations.now count at }
{
    if at < expectations.len() && at < 0x8000 && at < count {
        return Some(expectations[at].expect);
    }
    None
}
