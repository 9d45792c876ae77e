// handshake.rs of the Rust: the version of the protocol.
#![tactic(auto)]

ghost use Rattle.std.specs.Prelude.{◌≡◌};
ghost use Rattle.version.specs.Version.{versioned, default_version, version};

#[derive(Clone, Copy)]
pub struct ProtocolVersion {
    pub major: u16,
    pub minor: u8,
}

impl ProtocolVersion {
    pub const DEFAULT: ProtocolVersion = ProtocolVersion {
        major: 1,
        minor: 38,
    };

    pub fn new(major: u16, minor: u8) -> Self
        ensures { result ≡ versioned major minor }
    {
        Self { major, minor }
    }

    pub fn default() -> Self
        ensures { result ≡ default_version }
    {
        Self::DEFAULT
    }
}

#[tactic(auto, using(crate::proofs::VersionLaws::parse_version_laws))]
pub fn parse_version(s: &[u8]) -> Option<ProtocolVersion>
    ensures { result ≡ version s.now }
{
    let first = text::parts::part_at(s, b'.', 0);
    if !first.more {
        return None;
    }
    let dot = first.end;
    let start = dot + 1;
    let second = text::parts::part_at(s, b'.', start);
    if second.more {
        return None;
    }
    let end = second.end;
    let major = values::number::parse_up_to(&s[0..dot], u16::MAX as u64)?;
    let minor = values::number::parse_up_to(&s[start..end], u8::MAX as u64)?;
    Some(ProtocolVersion::new(major as u16, minor as u8))
}
