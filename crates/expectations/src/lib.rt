// What a line expects (`parse_expect` of script/parse.rs of the Rust): the first byte tells which words may stand there.
#![tactic(auto)]

ghost use Rattle.std.specs.Prelude.{◌≡◌, [], ◌∷◌, get_or, Err};
ghost use Rattle.script.specs.Answers.{first_of};
ghost use Rattle.script.specs.Pieces.{bytes, behind};
ghost use Rattle.script.specs.Expectations.{field, expectation};
ghost use Rattle.script.specs.Roles.{expecting, expect_role};
ghost use Rattle.expectations.specs.ExpectAnswers.{expect_about, about_in, about_word, by_sign};
ghost use Rattle.script.specs.declared.refusals.Reason.TheVariants.{UnknownExpectation};

use pieces::pieces::Piece;
use script::records::{Expect, Matcher, Place};
use script::refusals::Reason;
use script::roles::Role;

// What a matcher is held against.
#[derive(Clone, Copy)]
pub enum Subject {
    Result,
    Field(Place),
    Error,
    StderrCount,
    Daemon,
    Trust,
    ServerFeatures,
}

#[tactic(auto, unfolding(crate::specs::ExpectAnswers::expect_about))]
fn expect_about(s: Subject, m: Matcher) -> Expect
    ensures { result ≡ expect_about s m }
{
    match s {
        Subject::Result => Expect::Result(m),
        Subject::Field(name) => Expect::ResultField(name, m),
        Subject::Error => Expect::Error(m),
        Subject::StderrCount => Expect::StderrCount(m),
        Subject::Daemon => Expect::Daemon(m),
        Subject::Trust => Expect::Trust(m),
        Subject::ServerFeatures => Expect::ServerFeatures(m),
    }
}

// The matcher that stands there, without the White_Space around it.
#[tactic(auto, unfolding(script::specs::Expectations::about, crate::specs::ExpectAnswers::about_in))]
fn about(p: Piece<'_>, s: Subject) -> Result<Expect, Reason>
    ensures { result ≡ about_in p.entry.text.now p.entry.at s }
{
    let m = matchers::matchers::matcher(p.trimmed())?;
    Ok(expect_about(s, m))
}

// The same behind a word.
#[tactic(auto, using(crate::proofs::ExpectationLaws::word_none, crate::proofs::ExpectationLaws::word_some))]
fn about_word(r: Piece<'_>, word: &[u8], s: Subject) -> Result<Expect, Reason>
    ensures { result ≡ about_word r.entry.text.now r.entry.at word.now s }
{
    if r.starts_with(word) {
        return about(r.behind(word.len()), s);
    }
    Err(Reason::UnknownExpectation)
}

// `: Last`
fn terminal(r: Piece<'_>) -> Result<Expect, Reason>
    requires { get_or (bytes r.text.now r.at) 0 0 ≡ 58 }
    ensures { result ≡ expectation r.entry.text.now r.entry.at }
{
    let t = r.behind(1).trimmed();
    Ok(Expect::Terminal(matchers::matchers::place_of(t.at)))
}

// `daemon: matcher`
#[tactic(auto, using(crate::proofs::ExpectationLaws::a_daemon))]
fn on_daemon(r: Piece<'_>) -> Result<Expect, Reason>
    requires { get_or (bytes r.text.now r.at) 0 0 ≡ 100 }
    ensures { result ≡ expectation r.entry.text.now r.entry.at }
{
    about_word(r, b"daemon:", Subject::Daemon)
}

// `error: matcher`
#[tactic(auto, using(crate::proofs::ExpectationLaws::an_error))]
fn on_error(r: Piece<'_>) -> Result<Expect, Reason>
    requires { get_or (bytes r.text.now r.at) 0 0 ≡ 101 }
    ensures { result ≡ expectation r.entry.text.now r.entry.at }
{
    about_word(r, b"error:", Subject::Error)
}

// `trust: matcher`
#[tactic(auto, using(crate::proofs::ExpectationLaws::a_trust))]
fn on_trust(r: Piece<'_>) -> Result<Expect, Reason>
    requires { get_or (bytes r.text.now r.at) 0 0 ≡ 116 }
    ensures { result ≡ expectation r.entry.text.now r.entry.at }
{
    about_word(r, b"trust:", Subject::Trust)
}

// `stderr.count: matcher`, or `server_features: matcher`
fn on_count_or_features(r: Piece<'_>) -> Result<Expect, Reason>
    requires { get_or (bytes r.text.now r.at) 0 0 ≡ 115 }
    ensures { result ≡ expectation r.entry.text.now r.entry.at }
{
    if r.starts_with(b"stderr.count:") {
        return about(r.behind(13), Subject::StderrCount);
    }
    about_word(r, b"server_features:", Subject::ServerFeatures)
}

// `.field: matcher`
#[tactic(auto, using(pieces::proofs::BehindLaws::front_bounds, crate::proofs::ExpectationLaws::field_words))]
fn field(q: Piece<'_>) -> Result<Expect, Reason>
    requires { get_or (bytes q.text.now q.at) 0 0 ≡ 46 }
    ensures { result ≡ first_of (field q.entry.text.now (behind q.entry.text.now "." q.entry.at) ∷ []) (Err UnknownExpectation) }
{
    let Some((name, rest)) = q.behind(1).split_once(b':') else {
        return Err(Reason::UnknownExpectation);
    };
    about(
        rest,
        Subject::Field(matchers::matchers::place_of(name.trimmed().at)),
    )
}

// By the sign behind the word `result`.
#[tactic(auto, using(pieces::proofs::BehindLaws::front_bounds, crate::proofs::ExpectationLaws::result_signs))]
fn by_sign(q: Piece<'_>) -> Result<Expect, Reason>
    ensures { result ≡ by_sign q.entry.text.now q.entry.at }
{
    match q.first_byte() {
        b':' => about(q.behind(1), Subject::Result),
        b'.' => field(q),
        _ => Err(Reason::UnknownExpectation),
    }
}

// `result: matcher`, or `result.field: matcher`
#[tactic(auto, using(pieces::proofs::BehindLaws::front_bounds, crate::proofs::ExpectationLaws::result_words))]
fn on_result(r: Piece<'_>) -> Result<Expect, Reason>
    requires { get_or (bytes r.text.now r.at) 0 0 ≡ 114 }
    ensures { result ≡ expectation r.entry.text.now r.entry.at }
{
    if r.starts_with(b"result") {
        return by_sign(r.behind(6).trimmed());
    }
    Err(Reason::UnknownExpectation)
}

// What is expected; `r` is what follows `expect`, trimmed.
#[tactic(auto, using(crate::proofs::ExpectationLaws::no_form))]
pub fn expectation(r: Piece<'_>) -> Result<Expect, Reason>
    ensures { result ≡ expectation r.entry.text.now r.entry.at }
{
    match r.first_byte() {
        b':' => terminal(r),
        b'r' => on_result(r),
        b'e' => on_error(r),
        b's' => on_count_or_features(r),
        b'd' => on_daemon(r),
        b't' => on_trust(r),
        _ => Err(Reason::UnknownExpectation),
    }
}

fn role_of(a: Result<Expect, Reason>) -> Role
    ensures { result ≡ expecting a }
{
    match a {
        Ok(e) => Role::Expects(e),
        Err(reason) => Role::refused(reason),
    }
}

// What a line is that begins with `expect`.
#[tactic(auto, using(crate::proofs::ExpectationLaws::no_expect, crate::proofs::ExpectationLaws::expects))]
pub fn expect_role(t: Piece<'_>) -> Role
    ensures { result ≡ expect_role t.entry.text.now t.entry.at }
{
    if t.starts_with(b"expect") {
        return role_of(expectation(t.behind(6).trimmed()));
    }
    Role::refused(Reason::UnknownExpectation)
}
