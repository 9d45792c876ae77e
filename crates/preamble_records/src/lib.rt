// The record of the preamble, from what its lines say and from how many features and expectations it has.
#![tactic(auto)]

ghost use Rattle.std.specs.Prelude.{◌≡◌};
ghost use Rattle.script.specs.Contents.{version_in};
ghost use Rattle.script.specs.Layout.{maybe};
ghost use Rattle.script.specs.declared.roles.Key.TheVariants as Key;
ghost use Rattle.said.specs.Said.{said_of};
ghost use Rattle.records.specs.Records.{maybe_sized, preamble_record};

use said::said::Said;
use script::records::{Items, Place, Preamble};
use script::roles::Key;
use version::ProtocolVersion;

// The version of the protocol: the default where it was not said, or cannot be read.
#[tactic(auto, unfolding(script::specs::Contents::version_in))]
fn version_of(said: Said<'_>) -> ProtocolVersion
    ensures { result ≡ version_in said.entry.text.now (said_of said.entry.heard.now Key.Protocol) }
{
    said.value(Key::Protocol)
        .and_then(|v| version::parse_version(v.bytes()))
        .unwrap_or(ProtocolVersion::default())
}

// The place of the key's value, where it was said.
#[tactic(auto, unfolding(script::specs::Layout::maybe))]
fn maybe_of(said: Said<'_>, k: Key) -> Option<Place>
    ensures { result ≡ maybe (said_of said.entry.heard.now k) }
{
    said.value(k).map(|v| matchers::matchers::place_of(v.at))
}

// The range of n server features, where such a line was said, behind those that are there.
#[tactic(auto, unfolding(records::specs::Records::maybe_sized))]
fn server_of(said: Said<'_>, before: usize, n: usize) -> Option<Items>
    ensures { result ≡ maybe_sized (said_of said.entry.heard.now Key.ServerFeatures) before n }
{
    said.value(Key::ServerFeatures)
        .map(|_| records::calls::range_of(before, n))
}

// The record of the preamble, which has so many client features, server features and expectations.
#[tactic(auto, unfolding(records::specs::Records::preamble_record))]
pub fn preamble_of(said: Said<'_>, features: usize, server: usize, expects: usize) -> Preamble
    ensures { result ≡ preamble_record said.entry.text.now (said_of said.entry.heard.now) features server expects }
{
    Preamble {
        protocol_version: version_of(said),
        client_features: records::calls::range_of(0, features),
        expects: records::calls::range_of(0, expects),
        daemon_version: maybe_of(said, Key::DaemonVersion),
        trust: maybe_of(said, Key::TrustStatus),
        server_features: server_of(said, features, server),
    }
}
