// Which value an expectation looks up.
ghost use Rattle.sought.specs.Values.{Means};
ghost use Rattle.text.specs.Literal.{utf8};
ghost use Rattle.verdicts.specs.Held.{expected_of, response_of, info_of, text_given};
ghost use Rattle.verdicts.specs.Lookup.{looked_in, told_in, trust_of};
ghost use Rattle.std.specs.Prelude.{ℕ, List, option_map, unwrap_or};

use script::records::{Expect, Place};
use script::response::{DaemonResponse, HandshakeInfo};
use sought::fields::field_value;
use sought::value::{Value, text_value, whole_value};
use texts::text_at;

// In a response; the field's name is a part of the text.
#[tactic(auto, unfolding(sought::specs::Values::value_bytes, verdicts::specs::Held::expected_of, verdicts::specs::Held::response_of, verdicts::specs::Lookup::looked_in))]
pub fn looked_entry(e: Expect, text: &[u8], r: &DaemonResponse) -> Value
    ensures { Means result (λ bytes lists. looked_in (response_of bytes lists r.now) (expected_of text.now e)) }
{
    match e {
        Expect::Result(_) => whole_value(&r.result),
        Expect::ResultField(p, _) => field_value(&r.result, text_at(text, p)),
        Expect::Error(_) => text_value(r.error),
        Expect::StderrCount(_) => Value::Number(r.stderr_count),
        Expect::Terminal(_) => Value::Missing,
        Expect::Daemon(_) => Value::Missing,
        Expect::Trust(_) => Value::Missing,
        Expect::ServerFeatures(_) => Value::Missing,
    }
}

#[tactic(auto, unfolding(sought::specs::Values::value_bytes, verdicts::specs::Held::text_given))]
fn daemon_value(m: Option<Place>) -> Value
    ensures { Means result (λ bytes lists. Some (unwrap_or (text_given bytes m) (utf8 "unknown"))) }
{
    m.map_or(Value::Unknown, Value::Text)
}

#[tactic(auto, unfolding(sought::specs::Values::value_bytes, verdicts::specs::Lookup::trust_of))]
fn trust_value(m: Option<u64>) -> Value
    ensures { Means result (λ bytes lists. Some (unwrap_or (option_map trust_of m) (utf8 "unknown"))) }
{
    match m {
        Some(1) => Value::Trusted,
        Some(2) => Value::NotTrusted,
        _ => Value::Unknown,
    }
}

// In what the handshake told; no part of the text is looked at.
#[tactic(auto, unfolding(sought::specs::Values::value_bytes, verdicts::specs::Held::expected_of, verdicts::specs::Held::info_of, verdicts::specs::Lookup::told_in, verdicts::specs::Lookup::daemon_text, verdicts::specs::Lookup::trust_text, verdicts::specs::Lookup::features_text))]
pub fn looked_handshake(e: Expect, i: &HandshakeInfo) -> Value
    ensures { (text : List ℕ) → Means result (λ bytes lists. told_in (info_of bytes lists i.now) (expected_of text e)) }
{
    match e {
        Expect::Daemon(_) => daemon_value(i.daemon_nix_version),
        Expect::Trust(_) => trust_value(i.trust_status),
        Expect::ServerFeatures(_) => Value::Features(i.server_features),
        Expect::Terminal(_)
        | Expect::Result(_)
        | Expect::ResultField(_, _)
        | Expect::Error(_)
        | Expect::StderrCount(_) => Value::Missing,
    }
}
