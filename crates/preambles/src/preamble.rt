// The lines of the preamble (`parse_preamble` of the Rust): the first byte tells which words may stand there.
ghost use Rattle.std.specs.Prelude.{◌≡◌, get_or};
ghost use Rattle.version.specs.Version.{version};
ghost use Rattle.script.specs.Pieces.{bytes};
ghost use Rattle.script.specs.Roles.{version_role, word_role, preamble_expect, preamble_role, preamble_step};

use pieces::pieces::Piece;
use remarks::comment_role;
use script::refusals::Reason;
use script::roles::{Key, Role, Saying, Step, Where};

// A version that cannot be read leaves the version so far.
#[tactic(auto, using(remarks::proofs::PreambleLaws::version_read, remarks::proofs::PreambleLaws::version_bad))]
fn version_role(v: Piece<'_>) -> Role
    ensures { result ≡ version_role (version (bytes v.entry.text.now v.entry.at)) v.entry.at }
{
    match version::parse_version(v.bytes()) {
        Some(_) => Role::Says(Saying::Known(Key::Protocol, v.at)),
        None => Role::Nothing,
    }
}

// `protocol: version`
#[tactic(auto, using(remarks::proofs::PreambleLaws::protocol_words))]
fn on_protocol(t: Piece<'_>) -> Role
    requires { get_or (bytes t.text.now t.at) 0 0 ≡ 112 }
    ensures { result ≡ word_role t.entry.text.now t.entry.at }
{
    if !t.starts_with(b"protocol:") {
        return Role::refused(Reason::UnexpectedPreambleLine);
    }
    version_role(t.behind(9).trimmed())
}

// `protocol: version`, or `features: names`
#[tactic(auto, using(remarks::proofs::PreambleLaws::preamble_words))]
fn word_role(t: Piece<'_>) -> Role
    ensures { result ≡ word_role t.entry.text.now t.entry.at }
{
    let x = t.first_byte();
    if x == b'p' {
        return on_protocol(t);
    }
    if x != b'f' {
        return Role::refused(Reason::UnexpectedPreambleLine);
    }
    if !t.starts_with(b"features:") {
        return Role::refused(Reason::UnexpectedPreambleLine);
    }
    Role::Says(Saying::Known(Key::Features, t.behind(9).trimmed().at))
}

// In the preamble a blank or a colon follows `expect`: one test of the word, and the byte behind it.
#[tactic(auto, using(remarks::proofs::PreambleLaws::word_absent, remarks::proofs::PreambleLaws::sign_blank, remarks::proofs::PreambleLaws::sign_colon, remarks::proofs::PreambleLaws::sign_other))]
fn preamble_expect(t: Piece<'_>) -> Role
    ensures { result ≡ preamble_expect t.entry.text.now t.entry.at }
{
    if !t.starts_with(b"expect") {
        return Role::refused(Reason::UnexpectedPreambleLine);
    }
    let sign = text::byte::byte_at(t.bytes(), 6);
    if sign == b' ' {
        return expectations::expect_role(t);
    }
    if sign == b':' {
        return expectations::expect_role(t);
    }
    Role::refused(Reason::UnexpectedPreambleLine)
}

// What a line of the preamble is. One that begins with `e` is an expectation or of no known form.
#[tactic(auto, using(remarks::proofs::PreambleLaws::preamble_lines))]
fn preamble_role(t: Piece<'_>) -> Role
    ensures { result ≡ preamble_role t.entry.text.now t.entry.at }
{
    if t.is_empty() {
        return Role::Nothing;
    }
    match t.first_byte() {
        b'#' => comment_role(t),
        b'e' => preamble_expect(t),
        _ => word_role(t),
    }
}

// What a line is that stands in the preamble, and where the next one stands; `t` is the line, trimmed.
#[tactic(auto, using(remarks::proofs::PreambleLaws::step_over, remarks::proofs::PreambleLaws::step_inside))]
pub fn preamble_step(t: Piece<'_>) -> Step
    ensures { result ≡ preamble_step t.entry.text.now t.entry.at }
{
    if t.is_word(b"---") {
        return Step {
            role: Role::Nothing,
            next: Where::Outside,
        };
    }
    Step {
        role: preamble_role(t),
        next: Where::InPreamble,
    }
}
