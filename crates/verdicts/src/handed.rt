// What expectations are judged against.
use script::response::{DaemonResponse, HandshakeInfo};

// The handshake is judged against its information, an entry against a response.
#[derive(Clone, Copy)]
pub enum Handed {
    Info(HandshakeInfo),
    Response(DaemonResponse),
}
