// Which words and pieces a message is made of.
#![tactic(auto)]

ghost use Rattle.std.specs.Prelude.{◌≡◌};
ghost use Rattle.frames.specs.Frames.{entry_frame, handshake_frame};
ghost use Rattle.message_frames.specs.MessageFrames.{message_frame};

use frame_parts::{
    alone, error_headed, headed, missing_or, terminal_frame, valued_frame, word_frame,
};
use frames::frames::{Frame, NOWHERE, Piece};
use frames::words::{Head, Middle};
use script::records::{Expect, Place};
use verdicts::Verdict;
use verdicts::handed::Handed;

// The message of an expectation that is judged against a response.
#[tactic(auto, unfolding(frames::specs::Frames::entry_frame))]
fn entry_frame(e: Expect, missing: bool, v: Verdict, terminal: Place) -> Frame
    ensures { result ≡ entry_frame e missing v terminal }
{
    match e {
        Expect::Terminal(p) => terminal_frame(p, terminal, v),
        Expect::Result(m) => missing_or(
            missing,
            alone(Head::NoResult),
            headed(Head::ResultWord, NOWHERE),
            m,
            v,
        ),
        Expect::ResultField(p, m) => missing_or(
            missing,
            word_frame(Head::NoField, p, Middle::NotFound, Piece::Nothing),
            headed(Head::ResultDot, p),
            m,
            v,
        ),
        Expect::Error(m) => missing_or(missing, alone(Head::NoError), error_headed(), m, v),
        Expect::StderrCount(m) => valued_frame(headed(Head::CountWord, NOWHERE), m, v),
        Expect::Daemon(_) => alone(Head::InEntry),
        Expect::Trust(_) => alone(Head::InEntry),
        Expect::ServerFeatures(_) => alone(Head::InEntry),
    }
}

// The message of an expectation that is judged against the handshake's information.
#[tactic(auto, unfolding(frames::specs::Frames::handshake_frame))]
fn handshake_frame(e: Expect, v: Verdict) -> Frame
    ensures { result ≡ handshake_frame e v }
{
    match e {
        Expect::Terminal(_) => alone(Head::InPreamble),
        Expect::Result(_) => alone(Head::InPreamble),
        Expect::ResultField(_, _) => alone(Head::InPreamble),
        Expect::Error(_) => alone(Head::InPreamble),
        Expect::StderrCount(_) => alone(Head::InPreamble),
        Expect::Daemon(m) => valued_frame(headed(Head::DaemonWord, NOWHERE), m, v),
        Expect::Trust(m) => valued_frame(headed(Head::TrustWord, NOWHERE), m, v),
        Expect::ServerFeatures(m) => valued_frame(headed(Head::FeaturesWord, NOWHERE), m, v),
    }
}

// The message of an expectation, by what it is judged against.
#[tactic(auto, unfolding(crate::specs::MessageFrames::message_frame))]
pub fn message_frame(e: Expect, missing: bool, v: Verdict, h: &Handed) -> Frame
    ensures { result ≡ message_frame e missing v h.now }
{
    match h {
        Handed::Info(_) => handshake_frame(e, v),
        Handed::Response(r) => {
            let terminal = r.terminal;
            entry_frame(e, missing, v, terminal)
        }
    }
}
