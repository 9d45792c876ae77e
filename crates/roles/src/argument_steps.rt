// What an argument line is: what it says or its refusal, and where the next line stands.
ghost use Rattle.std.specs.Prelude.{◌≡◌};
ghost use Rattle.script.specs.Operations.{key_row};
ghost use Rattle.script.specs.Values.{plain_rules, framed};
ghost use Rattle.script.specs.Roles.{opens_list, after_key, after_saying, refusal_in, refusal_of_kind, refusal_of, argument_step};
ghost use Rattle.arguments.specs.ArgumentRead.{SayingIn};
ghost use Rattle.roles.specs.BlockRead.{kind_of};

use pieces::pieces::Piece;
use script::refusals::Reason;
use script::roles::{Key, Role, Saying, Step, Takes, Where};

// What matters of a key's value for its line: a path set may be refused, and so may data; an override list opens; any other is fine.
#[derive(Clone, Copy)]
pub enum ValueKind {
    Set,
    Data,
    Overrides,
    Other,
}

#[tactic(auto, unfolding(script::specs::Operations::key_row, crate::specs::BlockRead::kind_of))]
fn value_kind(k: Key) -> ValueKind
    ensures { result ≡ kind_of (key_row k).kind }
{
    match k {
        Key::Overrides => ValueKind::Overrides,
        Key::Paths => ValueKind::Set,
        Key::Refs => ValueKind::Set,
        Key::Data => ValueKind::Data,
        _ => ValueKind::Other,
    }
}

// The refusal of data that is neither hex nor a file's name.
#[tactic(auto, using(crate::proofs::BlockLaws::data_words))]
fn refused_data(v: Piece<'_>) -> Option<Reason>
    ensures { result ≡ refusal_in (framed plain_rules v.entry.text.now v.entry.at) }
{
    if v.starts_with(b"x\"") {
        return None;
    }
    if v.starts_with(b"@file:") {
        return None;
    }
    Some(Reason::DataUnknown)
}

// The refusal of a key's value.
#[tactic(auto, using(crate::proofs::BlockLaws::value_words))]
fn refused_value(k: Key, v: Piece<'_>) -> Option<Reason>
    ensures { result ≡ refusal_of_kind plain_rules v.entry.text.now (key_row k).kind v.entry.at }
{
    match value_kind(k) {
        ValueKind::Set => {
            if openings::not_closed(v) {
                return Some(Reason::BraceNotClosed);
            }
            None
        }
        ValueKind::Data => refused_data(v),
        ValueKind::Overrides => None,
        ValueKind::Other => None,
    }
}

#[tactic(auto, using(crate::proofs::BlockLaws::known_refused), unfolding(script::specs::Roles::refusal_of))]
fn refusal_of(text: &[u8], s: Saying) -> Option<Reason>
    requires { SayingIn text.now s }
    ensures { result ≡ refusal_of plain_rules text.now s }
{
    match s {
        Saying::Known(k, v) => refused_value(k, Piece { text, at: v }),
        Saying::Pair(_, _) => None,
        Saying::NoColon => None,
        Saying::Unknown(_, _) => None,
        Saying::NoPair => None,
        Saying::NoRaw => None,
    }
}

#[tactic(auto, using(crate::proofs::BlockLaws::list_words))]
fn opens_list(k: Key) -> bool
    ensures { result ≡ opens_list (key_row k).kind }
{
    match value_kind(k) {
        ValueKind::Overrides => true,
        ValueKind::Set => false,
        ValueKind::Data => false,
        ValueKind::Other => false,
    }
}

// Where the line below a line with the key stands.
fn after_key(takes: Takes, k: Key) -> Where
    ensures { result ≡ after_key takes (key_row k).kind }
{
    match takes {
        Takes::NoLines => Where::InEntry,
        Takes::FirstData => Where::InEntry,
        Takes::FirstRaw => Where::InEntry,
        Takes::Options => Where::InBlock(takes, opens_list(k)),
        _ => Where::InBlock(takes, false),
    }
}

fn after_saying(takes: Takes, s: Saying) -> Where
    ensures { result ≡ after_saying takes s }
{
    match s {
        Saying::Known(k, _) => after_key(takes, k),
        Saying::Pair(_, _) => Where::InBlock(takes, true),
        Saying::NoColon => Where::InBlock(takes, false),
        Saying::Unknown(_, _) => Where::InBlock(takes, false),
        Saying::NoPair => Where::InBlock(takes, true),
        Saying::NoRaw => Where::InBlock(takes, false),
    }
}

// What an argument line is. `t` is the line, trimmed.
pub fn argument_step(takes: Takes, list_open: bool, t: Piece<'_>) -> Step
    ensures { result ≡ argument_step plain_rules t.entry.text.now takes list_open t.entry.at }
{
    let s = arguments::arguments::saying_in(takes, list_open, t);
    let next = after_saying(takes, s);
    match refusal_of(t.text, s) {
        None => Step {
            role: Role::Says(s),
            next,
        },
        Some(reason) => Step {
            role: Role::refused(reason),
            next,
        },
    }
}
