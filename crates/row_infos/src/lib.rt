// What the handshake told, of a row.
#![tactic(auto)]

ghost use Rattle.std.specs.Prelude.{◌≡◌};
ghost use Rattle.rows.specs.Rows.{version_of, info_row};

use rows::parts::{at, items, maybe, maybe_number};
use script::response::HandshakeInfo;
use version::ProtocolVersion;

#[tactic(auto, unfolding(rows::specs::Rows::version_of))]
fn version(major: u64, minor: u64) -> ProtocolVersion
    ensures { result ≡ version_of major minor }
{
    ProtocolVersion {
        major: (major % 65536) as u16,
        minor: (minor % 256) as u8,
    }
}

#[tactic(auto, unfolding(rows::specs::Rows::info_row))]
pub fn info_of(row: &[u64]) -> HandshakeInfo
    ensures { result ≡ info_row row.now }
{
    let client_version = version(at(row, 0), at(row, 1));
    let server_version = version(at(row, 2), at(row, 3));
    let negotiated_version = version(at(row, 4), at(row, 5));
    let client_features = items(at(row, 6), at(row, 7));
    let server_features = items(at(row, 8), at(row, 9));
    let daemon_nix_version = maybe(at(row, 10), at(row, 11), at(row, 12));
    let trust_status = maybe_number(at(row, 13), at(row, 14));
    HandshakeInfo {
        client_version,
        server_version,
        negotiated_version,
        client_features,
        server_features,
        daemon_nix_version,
        trust_status,
    }
}
