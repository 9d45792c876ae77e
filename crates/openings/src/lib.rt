// Opening lines: a timestamp, an operation's name, and what stands behind it.
#![tactic(auto)]

ghost use Rattle.std.specs.Prelude.{◌≡◌, ◌+◌, ◌≤◌, IfSome, Ok, Some, option_map};
ghost use Rattle.script.specs.Operations.{form_of};
ghost use Rattle.script.specs.Roles.{set_on, open_on, not_closed, with_stamp, opening_role, below, skipped, after_opening};
ghost use Rattle.script.specs.Timestamps.{stamped_as, stamped_at};
ghost use Rattle.script.specs.Timestamps as definition;
ghost use Rattle.openings.specs.OpeningRead.{RestIn, opening_step};

use pieces::pieces::Piece;
use script::records::Time;
use script::refusals::Reason;
use script::roles::{Opening, Role, Stamped, Step, Takes, Where};
use wire::ops::Op;

// The timestamp that stands in the piece before its n-th byte, where `ms` stands; what follows is trimmed.
#[tactic(auto, unfolding(script::specs::Timestamps::with_time, script::specs::Timestamps::stamped_at))]
fn stamp_before(p: Piece<'_>, n: usize) -> Result<Stamped, Reason>
    requires { p.at.start + n + 2 ≤ p.at.end }
    ensures result_value { result ≡ stamped_at p.entry.text.now p.entry.at (Some n) }
    ensures rest_in { RestIn p.entry.text.now result }
{
    let time = stamps::timestamps::time(p.front(n).bytes())?;
    Ok(Stamped {
        stamp: Some(time),
        rest: p.behind(n + 2).trimmed().at,
    })
}

// A timestamp stands between `@` and the first `ms`.
#[tactic(auto, using(crate::proofs::StampedLaws::walk))]
pub fn stamped(p: Piece<'_>) -> Result<Stamped, Reason>
    ensures result_value { result ≡ definition.stamped p.entry.text.now p.entry.at }
    ensures rest_in { RestIn p.entry.text.now result }
{
    if !p.starts_with(b"@") {
        return Ok(Stamped {
            stamp: None,
            rest: p.at,
        });
    }
    let rest = p.behind(1);
    let n = text::parts::find_pair(rest.bytes(), b'm', b's').ok_or(Reason::TimestampWithoutMs)?;
    stamp_before(rest, n)
}

// Whether the piece is a path set whose brace is not closed.
pub fn not_closed(p: Piece<'_>) -> bool
    ensures { result ≡ not_closed p.entry.text.now p.entry.at }
{
    let q = p.trimmed();
    if !q.starts_with(b"{") {
        return false;
    }
    q.behind(1).find(b'}').is_none()
}

// The path set on the line of an operation that has one there: all that stands behind its name, or behind the first blank of that.
#[tactic(auto, unfolding(script::specs::Operations::form_of, script::specs::Roles::set_on))]
pub fn set_on<'a>(op: Op, args: Piece<'a>) -> Option<Piece<'a>>
    ensures value { option_map (λ p. p.at) result ≡ set_on args.entry.text.now (form_of op).syntax args.entry.at }
    ensures text { IfSome result (λ p. p.text ≡ args.entry.text) }
{
    match op {
        Op::BuildPaths => Some(args),
        Op::QuerySubstitutablePathInfos => Some(args),
        Op::QueryValidPaths => Some(args),
        Op::QuerySubstitutablePaths => Some(args),
        Op::AddSignatures => Some(args.cut_or(b' ').1),
        Op::QueryMissing => Some(args),
        Op::BuildPathsWithResults => Some(args),
        _ => None,
    }
}

// Whether the operation has a path set behind its name whose brace is not closed.
#[tactic(auto, unfolding(script::specs::Roles::open_on))]
fn set_open(op: Op, args: Piece<'_>) -> bool
    ensures { result ≡ open_on args.entry.text.now (set_on args.entry.text.now (form_of op).syntax args.entry.at) }
{
    match set_on(op, args) {
        None => false,
        Some(p) => not_closed(p),
    }
}

// The operation's name ends at the first blank; what follows is trimmed.
#[tactic(auto, unfolding(script::specs::Roles::with_name, script::specs::Roles::with_stamp))]
fn named_role(stamp: Option<Time>, rest: Piece<'_>) -> Role
    ensures { result ≡ with_stamp rest.entry.text.now (Ok (stamped_as stamp rest.entry.at)) }
{
    let (name, after) = rest.cut_or(b' ');
    let Some(op) = Op::from_name(name.bytes()) else {
        return Role::refused(Reason::UnknownOperation);
    };
    let args = after.trimmed();
    if set_open(op, args) {
        return Role::refused(Reason::BraceNotClosed);
    }
    Role::Opens(Opening {
        stamp,
        op,
        args: args.at,
    })
}

// What a line is that opens an entry.
#[tactic(auto, unfolding(script::specs::Roles::with_stamp, script::specs::Roles::opening_role))]
pub fn opening_role(t: Piece<'_>) -> Role
    ensures { result ≡ opening_role t.entry.text.now t.entry.at }
{
    match stamped(t) {
        Ok(s) => named_role(
            s.stamp,
            Piece {
                text: t.text,
                at: s.rest,
            },
        ),
        Err(reason) => Role::refused(reason),
    }
}

// Which lines below an operation are its arguments.
#[tactic(auto, unfolding(script::specs::Operations::form_of))]
pub fn takes_of(op: Op) -> Takes
    ensures { result ≡ (form_of op).takes }
{
    match op {
        Op::AddToStore => Takes::Store,
        Op::AddTextToStore => Takes::Texts,
        Op::SetOptions => Takes::Options,
        Op::CollectGarbage => Takes::Garbage,
        Op::VerifyStore => Takes::Verify,
        Op::BuildDerivation => Takes::FirstRaw,
        Op::AddToStoreNar => Takes::FirstRaw,
        Op::AddMultipleToStore => Takes::Multiple,
        Op::AddBuildLog => Takes::FirstData,
        _ => Takes::NoLines,
    }
}

// Where the line below an opening line stands.
pub fn stands_below(takes: Takes) -> Where
    ensures { result ≡ below takes }
{
    match takes {
        Takes::NoLines => Where::InEntry,
        _ => Where::InBlock(takes, false),
    }
}

// Whether the line does not open an entry: it is blank, or begins with `#` but not `# nwscript`.
#[tactic(auto, using(crate::proofs::IsSkippedLaws::walk))]
pub fn is_skipped(t: Piece<'_>) -> bool
    ensures { result ≡ skipped t.entry.text.now t.entry.at }
{
    if t.is_empty() {
        return true;
    }
    if !t.starts_with(b"#") {
        return false;
    }
    !t.starts_with(b"# nwscript")
}

// Where the line below stands, by what an opening line is.
fn after_opening(role: Role) -> Where
    ensures { result ≡ after_opening role }
{
    match role {
        Role::Opens(o) => {
            let op = o.op;
            stands_below(takes_of(op))
        }
        _ => Where::Outside,
    }
}

// A line that opens an entry, and where the next one stands.
#[tactic(auto, unfolding(crate::specs::OpeningRead::opening_step))]
pub fn opening_step(t: Piece<'_>) -> Step
    ensures { result ≡ opening_step t.entry.text.now t.entry.at }
{
    let role = opening_role(t);
    let next = after_opening(role);
    Step { role, next }
}
