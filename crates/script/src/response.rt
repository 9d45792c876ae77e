// What judging is handed: a response of the daemon, and what the handshake told. Texts are places in bytes that are lent beside them, lists are
// ranges of a table of such places.
use crate::records::{Items, Place};
use version::ProtocolVersion;

// `valid`, here and below, is the Rust's field of that name: what stands beside it is looked up whatever it says.
#[derive(Clone, Copy)]
pub struct PathInfoResult {
    // A field of the Rust's, beside which each of the others may stand or not.
    pub valid: bool,
    pub deriver: Option<Place>,
    pub nar_hash: Option<Place>,
    pub references: Option<Items>,
    pub nar_size: Option<u64>,
}

// What an operation gave back. StringMap, None, Framed and Raw keep nothing, since no answer depends on what they hold.
#[derive(Clone, Copy)]
pub enum ResultData {
    Absent,
    U64(u64),
    Str(Place),
    PathInfo(PathInfoResult),
    StringSet(Items),
    StringMap,
    None,
    CollectGarbage {
        bytes_freed: u64,
    },
    SubstitutablePathInfo {
        valid: bool,
        download_size: Option<u64>,
        nar_size: Option<u64>,
    },
    Missing {
        download_size: u64,
        nar_size: u64,
    },
    Framed,
    Raw,
}

// A response: the name of its last message, how many messages came before, the result, and the error's message if there was one.
#[derive(Clone, Copy)]
pub struct DaemonResponse {
    pub terminal: Place,
    pub stderr_count: u64,
    pub result: ResultData,
    pub error: Option<Place>,
}

// What the handshake told.
#[derive(Clone, Copy)]
pub struct HandshakeInfo {
    pub client_version: ProtocolVersion,
    pub server_version: ProtocolVersion,
    pub negotiated_version: ProtocolVersion,
    pub client_features: Items,
    pub server_features: Items,
    pub daemon_nix_version: Option<Place>,
    pub trust_status: Option<u64>,
}
