// The verdict of an expectation, with nothing written: a list is looked at piece by piece.
#![tactic(auto)]

ghost use Rattle.std.specs.Prelude.{◌≡◌};
ghost use Rattle.values.specs.Decimal.{decimal};
ghost use Rattle.text.specs.Parts.{same_bytes};
ghost use Rattle.verdicts.specs.Decisions.{passed_if, decides};
ghost use Rattle.verdicts.specs.Lookup.{looked_in, told_in};
ghost use Rattle.verdicts.specs.Verdicts.{valued, verdict};
ghost use Rattle.verdicts.specs.Told.{greeting, reply};
ghost use Rattle.verdicts.specs.Held.{text_at, matching_of, expected_of, response_of, info_of};
ghost use Rattle.sought.specs.Values.{value_bytes};

use decimals::decimal::put_decimal;
use decisions::decide::decide;
use joined::decide::decide_list;
use list_pieces::pieces::Style;
use script::records::{Expect, Matcher, Place};
use script::response::{DaemonResponse, HandshakeInfo};
use sought::value::Value;
use text::parts::same;
use texts::{Held, text_at};
use verdicts::Verdict;
use written::Writer;

fn number_verdict(m: Matcher, text: &[u8], n: u64) -> Verdict
    ensures { result ≡ decides (matching_of text.now m) (decimal n) }
{
    let mut digits = [0u8; 20];
    let mut w = Writer::new(&mut digits);
    put_decimal(n, &mut w);
    let len = w.position();
    decide(m, text, &digits[..len])
}

// What a matcher decides of a value that may be missing.
#[tactic(auto, unfolding(verdicts::specs::Verdicts::valued, sought::specs::Values::value_bytes, list_pieces::specs::Lists::list_text, text::specs::Literal::utf8, text::specs::Unicode::encoded))]
pub fn value_verdict(m: Matcher, value: Value, text: &[u8], held: Held<'_>) -> Verdict
    ensures { result ≡ valued (matching_of text.now m) (value_bytes held.entry.bytes.now held.entry.lists.now value) }
{
    match value {
        Value::Missing => Verdict::Failed,
        Value::Number(n) => number_verdict(m, text, n),
        Value::Text(p) => decide(m, text, held.text_at(p)),
        Value::Unknown => decide(m, text, b"unknown"),
        Value::Trusted => decide(m, text, b"trusted"),
        Value::NotTrusted => decide(m, text, b"not-trusted"),
        Value::List(r) => decide_list(m, text, Style::Brackets, r, held),
        Value::Features(r) => decide_list(m, text, Style::Braces, r, held),
    }
}

// The name of the last message, compared where it is.
fn terminal_verdict(text: &[u8], name: Place, held: Held<'_>, terminal: Place) -> Verdict
    ensures { result ≡ passed_if (same_bytes (text_at held.entry.bytes.now terminal) (text_at text.now name)) }
{
    orders::passed_if(same(held.text_at(terminal), text_at(text, name)))
}

// Judged against a response; the value is the one looked up in it.
#[tactic(auto, unfolding(verdicts::specs::Held::expected_of, verdicts::specs::Held::response_of, verdicts::specs::Held::terminal_bytes, verdicts::specs::Lookup::looked, verdicts::specs::Lookup::looked_in, verdicts::specs::Verdicts::valued, verdicts::specs::Verdicts::named_by, verdicts::specs::Verdicts::verdict))]
pub fn entry_verdict(
    e: Expect,
    value: Value,
    text: &[u8],
    r: &DaemonResponse,
    held: Held<'_>,
) -> Verdict
    requires { value_bytes held.bytes.now held.lists.now value ≡ looked_in (response_of held.bytes.now held.lists.now r.now) (expected_of text.now e) }
    ensures { result ≡ verdict (reply (response_of held.entry.bytes.now held.entry.lists.now r.now)) (expected_of text.now e) }
{
    match e {
        Expect::Terminal(name) => terminal_verdict(text, name, held, r.terminal),
        Expect::Result(m) | Expect::ResultField(_, m) | Expect::Error(m) | Expect::StderrCount(m) =>
            value_verdict(m, value, text, held),
        Expect::Daemon(_) | Expect::Trust(_) | Expect::ServerFeatures(_) => Verdict::Failed,
    }
}

// Judged against what the handshake told.
#[tactic(auto, unfolding(verdicts::specs::Held::expected_of, verdicts::specs::Lookup::looked, verdicts::specs::Lookup::told_in, verdicts::specs::Verdicts::valued, verdicts::specs::Verdicts::named_by, verdicts::specs::Verdicts::verdict))]
pub fn handshake_verdict(
    e: Expect,
    value: Value,
    text: &[u8],
    i: &HandshakeInfo,
    held: Held<'_>,
) -> Verdict
    requires { value_bytes held.bytes.now held.lists.now value ≡ told_in (info_of held.bytes.now held.lists.now i.now) (expected_of text.now e) }
    ensures { result ≡ verdict (greeting (info_of held.entry.bytes.now held.entry.lists.now i.now)) (expected_of text.now e) }
{
    match e {
        Expect::Daemon(m) | Expect::Trust(m) | Expect::ServerFeatures(m) => {
            value_verdict(m, value, text, held)
        }
        Expect::Terminal(_)
        | Expect::Result(_)
        | Expect::ResultField(_, _)
        | Expect::Error(_)
        | Expect::StderrCount(_) => Verdict::Failed,
    }
}
