// The comments of the preamble (`parse_preamble` of the Rust): what one says, and which say nothing.
#![tactic(auto)]

ghost use Rattle.std.specs.Prelude.{◌≡◌, true};
ghost use Rattle.text.specs.Parts.{span};
ghost use Rattle.script.specs.Pieces.{bytes};
ghost use Rattle.script.specs.Roles.{step, behind_signs, comment_role, preamble_step};
ghost use Rattle.script.specs.declared.roles.Role.TheVariants.{Nothing};
ghost use Rattle.script.specs.declared.roles.Where.TheVariants.{InPreamble};
ghost use Rattle.remarks.specs.PreambleSaid.{said};

use pieces::pieces::Piece;
use script::roles::{Key, Role, Saying};
use text::parts::Span;

// The comment behind the signs `#` at its front.
#[tactic(auto, using(crate::proofs::PreambleLaws::sign_steps))]
fn behind_signs(t: Piece<'_>) -> Piece<'_>
    ensures text { result.text ≡ t.entry.text }
    ensures at { result.at ≡ span (behind_signs t.entry.at.start (bytes t.entry.text.now t.entry.at)) t.entry.at.end }
{
    for i in t.at.start..t.at.end {
        if t.text[i] != b'#' {
            return Piece {
                text: t.text,
                at: Span {
                    start: i,
                    end: t.at.end,
                },
            };
        }
    }
    t.behind(t.at.end - t.at.start)
}

// What a comment says that begins with the key's word, or nothing.
#[tactic(auto, using(crate::proofs::PreambleLaws::said_none, crate::proofs::PreambleLaws::said_some))]
fn said(c: Piece<'_>, word: &[u8], key: Key) -> Role
    ensures { result ≡ said c.entry.text.now c.entry.at word.now key }
{
    if !c.starts_with(word) {
        return Role::Nothing;
    }
    Role::Says(Saying::Known(key, c.behind(word.len()).trimmed().at))
}

// A comment says something where it begins with one of three words.
#[tactic(auto, using(crate::proofs::PreambleLaws::comment_words))]
pub fn comment_role(t: Piece<'_>) -> Role
    ensures { result ≡ comment_role t.entry.text.now t.entry.at }
{
    let c = behind_signs(t).trimmed();
    match c.first_byte() {
        b'd' => said(c, b"daemon:", Key::DaemonVersion),
        b't' => said(c, b"trust:", Key::TrustStatus),
        b's' => said(c, b"server_features:", Key::ServerFeatures),
        _ => Role::Nothing,
    }
}

// Whether the line is a comment of the preamble that begins with none of the letters of those words, and so says nothing. Nearly all are, and a text may
// have very many: this is told before a step is made.
#[tactic(auto, using(crate::proofs::PreambleLaws::remark))]
pub fn is_remark(t: Piece<'_>) -> bool
    ensures { result ≡ true → step Nothing InPreamble ≡ preamble_step t.entry.text.now t.entry.at }
{
    if t.first_byte() != b'#' {
        return false;
    }
    match behind_signs(t).trimmed().first_byte() {
        b'd' => false,
        b't' => false,
        b's' => false,
        _ => true,
    }
}
