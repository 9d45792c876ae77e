// The handshake's information, or a response.
ghost use Rattle.std.specs.Prelude.{◌≡◌};
ghost use Rattle.verdicts.specs.Subjects.{held_by, parts_in};
ghost use Rattle.verdicts.specs.Held.{expected_of};
ghost use Rattle.verdicts.specs.Lookup.{looked};
ghost use Rattle.verdicts.specs.Verdicts.{verdict};
ghost use Rattle.sought.specs.Values.{Means, value_bytes};
ghost use Rattle.subjects.specs.Against.{against};

use lookups::looked::{looked_entry, looked_handshake};
use response_places::{info_in, response_in};
use script::records::Expect;
use sought::value::Value;
use texts::Held;
use verdict_of::{entry_verdict, handshake_verdict};
use verdicts::Verdict;
use verdicts::handed::Handed;

// What expectations are judged against, with the bytes and the table that hold its texts and its lists.
#[derive(Clone, Copy)]
pub struct Subject<'a> {
    pub handed: &'a Handed,
    pub held: Held<'a>,
}

// The value that an expectation looks up in it, whatever holds its texts and lists.
#[tactic(auto, unfolding(verdicts::specs::Subjects::held_by, verdicts::specs::Lookup::looked))]
pub fn looked_value(e: Expect, text: &[u8], h: &Handed) -> Value
    ensures { Means result (λ bytes lists. looked (held_by bytes lists h.now) (expected_of text.now e)) }
{
    match h {
        Handed::Info(i) => looked_handshake(e, i),
        Handed::Response(r) => looked_entry(e, text, r),
    }
}

impl<'a> Subject<'a> {
    // Every part of it lies inside its bytes.
    #[tactic(auto, unfolding(verdicts::specs::Subjects::parts_in))]
    pub fn parts_in(self) -> bool
        ensures { result ≡ parts_in self.entry.held.bytes.now self.entry.held.lists.now self.entry.handed.now }
    {
        let n = self.held.bytes.len();
        match self.handed {
            Handed::Info(i) => info_in(n, self.held.lists, i),
            Handed::Response(r) => response_in(n, self.held.lists, r),
        }
    }

    // The verdict; the value is the one looked up.
    #[tactic(auto, unfolding(verdicts::specs::Subjects::held_by, verdicts::specs::Lookup::looked))]
    pub fn verdict(self, e: Expect, value: Value, text: &[u8]) -> Verdict
        requires { value_bytes self.held.bytes.now self.held.lists.now value ≡ looked (against self) (expected_of text.now e) }
        ensures { result ≡ verdict (against self.entry) (expected_of text.now e) }
    {
        match self.handed {
            Handed::Info(i) => handshake_verdict(e, value, text, i, self.held),
            Handed::Response(r) => entry_verdict(e, value, text, r, self.held),
        }
    }
}
