// The fixed words of messages (script/expect.rs), their letters and how long each is.
ghost use Rattle.std.specs.Prelude.{◌≡◌, length};
ghost use Rattle.frames.specs.Words.{head_bytes, middle_bytes};

// What a message begins with.
#[derive(Clone, Copy)]
pub enum Head {
    Nothing,
    TerminalIs, // terminal =
    ExpectedTerminal, // expected terminal
    ResultWord, // result
    ResultDot, // result.
    NoResult, // result field result not found
    NoField, // result field result.
    ErrorMatched, // error matched:
    ErrorWord, // error
    NoError, // expected error but none received
    CountWord, // stderr.count
    DaemonWord, // daemon
    TrustWord, // trust
    FeaturesWord, // server_features
    InEntry, // handshake expect used in op context
    InPreamble, // non-handshake expect in preamble:
    UndecidedWord, // undecided: /
}

// What stands in its middle.
#[derive(Clone, Copy)]
pub enum Middle {
    Nothing,
    Got, // , got
    Is, //  =
    ExpectedWord, // : expected
    ExpectedPattern, // : expected /
    ExpectedAbove, // : expected >
    ExpectedBelow, // : expected <
    ExpectedAtLeast, // : expected >=
    ExpectedAtMost, // : expected <=
    NotFound, //  not found
    Slash, // /
}

// Each arm has its letters, so that no table of them is laid out anew for each message.
#[tactic(auto, unfolding(crate::specs::Words::head_bytes, text::specs::Literal::utf8, text::specs::Unicode::encoded))]
pub fn head_word(w: Head) -> &'static [u8]
    ensures { result.now ≡ head_bytes w }
{
    match w {
        Head::Nothing => b"",
        Head::TerminalIs => b"terminal = ",
        Head::ExpectedTerminal => b"expected terminal ",
        Head::ResultWord => b"result",
        Head::ResultDot => b"result.",
        Head::NoResult => b"result field result not found",
        Head::NoField => b"result field result.",
        Head::ErrorMatched => b"error matched: ",
        Head::ErrorWord => b"error",
        Head::NoError => b"expected error but none received",
        Head::CountWord => b"stderr.count",
        Head::DaemonWord => b"daemon",
        Head::TrustWord => b"trust",
        Head::FeaturesWord => b"server_features",
        Head::InEntry => b"handshake expect used in op context",
        Head::InPreamble => b"non-handshake expect in preamble: ",
        Head::UndecidedWord => b"undecided: /",
    }
}

pub fn head_len(w: Head) -> usize
    ensures { result ≡ length (head_bytes w) }
{
    head_word(w).len()
}

// As for `head_word`.
#[tactic(auto, unfolding(crate::specs::Words::middle_bytes, text::specs::Literal::utf8, text::specs::Unicode::encoded))]
pub fn middle_word(w: Middle) -> &'static [u8]
    ensures { result.now ≡ middle_bytes w }
{
    match w {
        Middle::Nothing => b"",
        Middle::Got => b", got ",
        Middle::Is => b" = ",
        Middle::ExpectedWord => b": expected ",
        Middle::ExpectedPattern => b": expected /",
        Middle::ExpectedAbove => b": expected > ",
        Middle::ExpectedBelow => b": expected < ",
        Middle::ExpectedAtLeast => b": expected >= ",
        Middle::ExpectedAtMost => b": expected <= ",
        Middle::NotFound => b" not found",
        Middle::Slash => b"/",
    }
}

pub fn middle_len(w: Middle) -> usize
    ensures { result ≡ length (middle_bytes w) }
{
    middle_word(w).len()
}
