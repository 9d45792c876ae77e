// Matchers (`parse_matcher` of the Rust): the first byte tells which form one has.
ghost use Rattle.std.specs.Prelude.{◌≡◌, ◌+◌, ◌≤◌, get_or, ok_or};
ghost use Rattle.script.specs.declared.refusals.Reason.TheVariants.{MatcherNumberUnreadable};
ghost use Rattle.values.specs.Numbers.{signed};
ghost use Rattle.text.specs.Parts.{span};
ghost use Rattle.script.specs.Pieces.{bytes, trim, place};
ghost use Rattle.script.specs.Expectations.{matcher};

use pieces::pieces::Piece;
use script::records::{Matcher, Place};
use script::refusals::Reason;
use text::parts::Span;

// The place of a piece: 0 and 0 where it is empty.
#[tactic(auto, unfolding(script::specs::Pieces::place, script::specs::Pieces::place_of))]
pub fn place_of(p: Span) -> Place
    requires { p.start ≤ p.end }
    ensures { result ≡ place p }
{
    let start = p.start;
    let len = p.end - start;
    if len == 0 {
        return Place { start: 0, len: 0 };
    }
    Place { start, len }
}

// The number behind a sign of n bytes.
fn number_behind(s: Piece<'_>, n: usize) -> Result<i64, Reason>
    requires { s.at.start + n ≤ s.at.end }
    ensures { result ≡ ok_or (signed (bytes s.entry.text.now (trim s.entry.text.now (span (s.entry.at.start + n) s.entry.at.end)))) MatcherNumberUnreadable }
{
    values::number::parse_i64(s.behind(n).trimmed().bytes()).ok_or(Reason::MatcherNumberUnreadable)
}

// A matcher that begins with `/`: a pattern where it ends so too and is more than that one sign.
#[tactic(auto, using(crate::proofs::MatcherLaws::not_closed, crate::proofs::MatcherLaws::one_slash, crate::proofs::MatcherLaws::closed))]
fn slashed(s: Piece<'_>) -> Result<Matcher, Reason>
    requires { get_or (bytes s.text.now s.at) 0 0 ≡ 47 }
    ensures { result ≡ matcher s.entry.text.now s.entry.at }
{
    if !s.ends_with(b'/') {
        return Ok(Matcher::Exact(place_of(s.at)));
    }
    if s.at.end - s.at.start <= 1 {
        return Ok(Matcher::Exact(place_of(s.at)));
    }
    let inner = Span {
        start: s.at.start + 1,
        end: s.at.end - 1,
    };
    Ok(Matcher::Regex(place_of(inner)))
}

#[tactic(auto, using(crate::proofs::MatcherLaws::matcher_laws))]
pub fn matcher(s: Piece<'_>) -> Result<Matcher, Reason>
    ensures { result ≡ matcher s.entry.text.now s.entry.at }
{
    match s.first_byte() {
        b'/' => slashed(s),
        b'>' if s.starts_with(b">=") => Ok(Matcher::GreaterOrEqual(number_behind(s, 2)?)),
        b'>' => Ok(Matcher::GreaterThan(number_behind(s, 1)?)),
        b'<' if s.starts_with(b"<=") => Ok(Matcher::LessOrEqual(number_behind(s, 2)?)),
        b'<' => Ok(Matcher::LessThan(number_behind(s, 1)?)),
        _ => Ok(Matcher::Exact(place_of(s.at))),
    }
}
