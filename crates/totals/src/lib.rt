// The numbers that Measure carries from line to line: the totals so far, and what is open. `Small` stands at each function that makes a sum, and is no
// ghost field of `Open`: each pair adds two, so that it holds of what the next line leaves by the number of lines alone, which `Open` does not know.
#![tactic(auto)]

ghost use Rattle.std.specs.Prelude.{◌≡◌};
ghost use Rattle.script.specs.Inside.{In, SayingIn};
ghost use Rattle.script.specs.Operations.{form_of};
ghost use Rattle.script.specs.declared.roles.Saying.TheVariants as Said;
ghost use Rattle.measuring.specs.Measure.{begun, entry_items, entry_store, closed_items, closed_store, close_on, entered, opened, say_on};
ghost use Rattle.totals.specs.Bounds.{Small, Few};

use counts::counts::{data_count, feature_count, inline_items, quoted_count, raw_count, set_count};
use measuring::{Open, What};
use pieces::pieces::Piece;
use script::records::Counts;
use script::roles::{Key, Opening, Saying};
use wire::ops::Op;

// So many items on the opening line, and nothing said below it.
#[tactic(auto, unfolding(measuring::specs::Measure::begun))]
pub fn begin(what: What, inline: usize) -> Open
    ensures { result ≡ begun what inline }
{
    Open {
        what,
        inline,
        pairs: 0,
        paths: 0,
        refs: 0,
        suffix: 0,
        text: 0,
        name: 0,
        cam_str: 0,
        data: 0,
        raw: 0,
        features: 0,
        server_features: 0,
    }
}

// The last line with a key decides.
#[tactic(auto, unfolding(measuring::specs::Measure::say_on, measuring::specs::Measure::told, measuring::specs::Measure::pairs_on, script::specs::Operations::same_key, script::specs::Operations::key_row))]
fn known_on(o: Open, k: Key, v: Piece<'_>) -> Open
    ensures { result ≡ say_on v.entry.text.now o (Said.Known k v.entry.at) }
{
    match k {
        Key::Paths => Open {
            paths: set_count(v),
            ..o
        },
        Key::Refs => Open {
            refs: set_count(v),
            ..o
        },
        Key::Suffix => Open {
            suffix: quoted_count(v),
            ..o
        },
        Key::Text => Open {
            text: quoted_count(v),
            ..o
        },
        Key::Name => Open {
            name: quoted_count(v),
            ..o
        },
        Key::CamStr => Open {
            cam_str: quoted_count(v),
            ..o
        },
        Key::Data => Open {
            data: data_count(v),
            ..o
        },
        Key::Raw => Open {
            raw: raw_count(v),
            ..o
        },
        Key::Features => Open {
            features: feature_count(v),
            ..o
        },
        Key::ServerFeatures => Open {
            server_features: feature_count(v),
            ..o
        },
        _ => o,
    }
}

// After a line that says something.
#[tactic(auto, using(crate::proofs::OpenLaws::known_in, crate::proofs::OpenLaws::said_laws), unfolding(measuring::specs::Measure::told, measuring::specs::Measure::say_on, measuring::specs::Measure::pairs_on))]
pub fn say_on(text: &[u8], o: Open, s: Saying) -> Open
    requires saying_in { SayingIn text.now s }
    requires small { Small 0x20000 o }
    ensures { result ≡ say_on text.now o s }
{
    match s {
        Saying::Known(k, v) => known_on(o, k, Piece { text, at: v }),
        Saying::Pair(_, _) => Open {
            pairs: o.pairs + 2,
            ..o
        },
        _ => o,
    }
}

// The items that an entry takes.
#[tactic(auto, unfolding(script::specs::Operations::form_of, measuring::specs::Measure::entry_items))]
fn entry_items(op: Op, o: Open) -> usize
    ensures { result ≡ entry_items (form_of op).shape o }
{
    match op {
        Op::BuildPaths
        | Op::QuerySubstitutablePathInfos
        | Op::QueryValidPaths
        | Op::QuerySubstitutablePaths
        | Op::AddSignatures
        | Op::QueryMissing
        | Op::BuildPathsWithResults => o.inline,
        Op::SetOptions => o.pairs,
        Op::CollectGarbage => o.paths,
        Op::AddTextToStore | Op::AddToStore => o.refs,
        _ => 0,
    }
}

// The bytes of the store that an entry takes.
#[tactic(auto, unfolding(script::specs::Operations::form_of, measuring::specs::Measure::entry_store))]
fn entry_store(op: Op, o: Open) -> usize
    requires { Small 0x20000 o }
    ensures { result ≡ entry_store (form_of op).shape o }
{
    match op {
        Op::AddTextToStore => o.suffix + o.text,
        Op::AddToStore => o.name + o.cam_str + o.data,
        Op::AddMultipleToStore | Op::AddBuildLog => o.data,
        Op::BuildDerivation | Op::AddToStoreNar => o.raw,
        _ => 0,
    }
}

#[tactic(auto, using(crate::proofs::OpenLaws::items_entry), unfolding(measuring::specs::Measure::closed_items, measuring::specs::Measure::items_of))]
fn closed_items(o: Open) -> usize
    requires { Small 0x20000 o }
    ensures { result ≡ closed_items o }
{
    match o.what {
        What::ThePreamble => o.features + o.server_features,
        What::AnEntry(op) => entry_items(op, o),
    }
}

#[tactic(auto, using(crate::proofs::OpenLaws::store_entry), unfolding(measuring::specs::Measure::closed_store, measuring::specs::Measure::store_of))]
fn closed_store(o: Open) -> usize
    requires { Small 0x20000 o }
    ensures { result ≡ closed_store o }
{
    match o.what {
        What::ThePreamble => 0,
        What::AnEntry(op) => entry_store(op, o),
    }
}

// The totals with what is open closed.
#[tactic(auto, using(crate::proofs::OpenLaws::closed))]
pub fn close_on(t: Counts, o: Open) -> Counts
    requires few { Few 0x100_0000_0000 t }
    requires small { Small 0x20000 o }
    ensures { result ≡ close_on t o }
{
    Counts {
        items: t.items + closed_items(o),
        store: t.store + closed_store(o),
        ..t
    }
}

// The totals after an opening line: what was open is closed, and there is one entry more.
#[tactic(auto, using(crate::proofs::OpenLaws::entered_is))]
pub fn enter(t: Counts, o: Open) -> Counts
    requires few { Few 0x100_0000_0000 t }
    requires small { Small 0x20000 o }
    ensures { result ≡ entered t o }
{
    let closed = close_on(t, o);
    Counts {
        entries: closed.entries + 1,
        ..closed
    }
}

// An entry at its opening line.
#[tactic(auto, using(crate::proofs::OpenLaws::opened_is))]
pub fn open_entry(text: &[u8], p: Opening) -> Open
    requires { In text.now p.args }
    ensures { result ≡ opened text.now p.op p.args }
{
    let inline = inline_items(p.op, Piece { text, at: p.args });
    begin(What::AnEntry(p.op), inline)
}
