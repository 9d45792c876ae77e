// One expectation of a table.
ghost use Rattle.std.specs.Prelude.{◌≡◌, ◌≤◌, length};
ghost use Rattle.text.specs.Base.{overlaid};
ghost use Rattle.verdicts.specs.Held.{expected_of, expect_in};
ghost use Rattle.verdicts.specs.Lookup.{looked, present_bytes};
ghost use Rattle.verdicts.specs.Verdicts.{verdict};
ghost use Rattle.subjects.specs.Fits.{fits};
ghost use Rattle.subjects.specs.Against.{against};

use crate::handed::{Subject, looked_value};
use scratch::put::write_value;
use scratch::rooms::value_room;
use script::records::Expectation;
use verdicts::Verdict;

// Every part of it lies inside a text of n bytes.
pub fn reaches(x: Expectation, n: usize) -> bool
    ensures { result ≡ expect_in n x.expect }
{
    places::expect_in(n, x.expect)
}

// A present value has a place in so much room.
pub fn value_fits(x: Expectation, text: &[u8], s: Subject<'_>, room: usize) -> bool
    ensures { result ≡ fits room (looked (against s.entry) (expected_of text.now x.expect)) }
{
    let value = looked_value(x.expect, text, s.handed);
    value_room(value, s.held, room).is_some()
}

// Its verdict; a present value is left in the scratch.
pub fn judge_one(x: Expectation, text: &[u8], s: Subject<'_>, scratch: &mut [u8]) -> Verdict
    requires { length (present_bytes (looked (against s) (expected_of text.now x.expect))) ≤ length scratch.old }
    ensures value { result ≡ verdict (against s.entry) (expected_of text.now x.expect) }
    ensures scratch_after { scratch.new ≡ overlaid (present_bytes (looked (against s.entry) (expected_of text.now x.expect))) scratch.old }
{
    let value = looked_value(x.expect, text, s.handed);
    let v = s.verdict(x.expect, value, text);
    write_value(value, s.held, scratch);
    v
}
