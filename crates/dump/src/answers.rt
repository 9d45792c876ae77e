// The numbers of what Read answers.
ghost use Rattle.std.specs.Prelude.{◌≡◌};
ghost use Rattle.numbers.specs.Numbers.{maybe_numbers, maybe_items_numbers, script_numbers, head_numbers};

use script::records::{Items, Place, Refusal, Script};

#[tactic(auto, unfolding(numbers::specs::Numbers::maybe_numbers, call_fields::specs::CallFields::place_numbers))]
fn maybe_numbers(m: Option<Place>) -> [u64; 3]
    ensures { result ≡ maybe_numbers m }
{
    match m {
        None => [0, 0, 0],
        Some(p) => [1, p.start as u64, p.len as u64],
    }
}

// Beside `maybe_numbers`: one function for both would take places and ranges apart at each call.
#[tactic(auto, unfolding(numbers::specs::Numbers::maybe_items_numbers, call_fields::specs::CallFields::items_numbers))]
fn maybe_items_numbers(m: Option<Items>) -> [u64; 3]
    ensures { result ≡ maybe_items_numbers m }
{
    match m {
        None => [0, 0, 0],
        Some(i) => [1, i.first as u64, i.count as u64],
    }
}

fn script_numbers(s: Script) -> [u64; 20]
    ensures { result ≡ script_numbers s }
{
    let p = s.preamble;
    let version = p.protocol_version;
    let features = p.client_features;
    let expects = p.expects;
    let daemon = p.daemon_version;
    let trust = p.trust;
    let server = p.server_features;
    let d = maybe_numbers(daemon);
    let t = maybe_numbers(trust);
    let f = maybe_items_numbers(server);
    let c = s.counts;
    [
        0,
        version.major as u64,
        version.minor as u64,
        features.first as u64,
        features.count as u64,
        expects.first as u64,
        expects.count as u64,
        d[0],
        d[1],
        d[2],
        t[0],
        t[1],
        t[2],
        f[0],
        f[1],
        f[2],
        c.entries as u64,
        c.items as u64,
        c.expectations as u64,
        c.store as u64,
    ]
}

#[tactic(auto, unfolding(numbers::specs::Numbers::head_numbers, call_fields::specs::CallFields::padded))]
pub fn head_numbers(a: Result<Script, Refusal>) -> [u64; 20]
    ensures { result ≡ head_numbers a }
{
    match a {
        Err(r) => [
            1,
            r.reason.number(),
            r.line as u64,
            0,
            0,
            0,
            0,
            0,
            0,
            0,
            0,
            0,
            0,
            0,
            0,
            0,
            0,
            0,
            0,
            0,
        ],
        Ok(s) => script_numbers(s),
    }
}
