// Argument lines: key, colon, value; the pairs of an override list; what follows `raw x"`.
ghost use Rattle.std.specs.Prelude.{◌≡◌, IfSome, option_map};
ghost use Rattle.script.specs.Operations.{keys_of};
ghost use Rattle.script.specs.Pieces.{cut_into};
ghost use Rattle.script.specs.Roles.{pair_in, keyed, key_saying, raw_saying, saying_in};
ghost use Rattle.arguments.specs.ArgumentRead.{SayingIn, pair_saying, quoted, listed};

use pieces::pieces::Piece;
use script::roles::{Key, Saying, Takes};

// What stands in quotes at the front of the piece, and what follows the second quote.
#[tactic(auto, using(crate::proofs::ArgumentLaws::quote_words))]
fn quoted<'a>(t: Piece<'a>) -> Option<(Piece<'a>, Piece<'a>)>
    ensures value { option_map (λ c. cut_into c.0.at c.1.at) result ≡ quoted t.entry.text.now t.entry.at }
    ensures text { IfSome result (λ c. (c.0.text ≡ t.entry.text) × (c.1.text ≡ t.entry.text)) }
{
    if !t.starts_with(b"\"") {
        return None;
    }
    t.behind(1).split_once(b'"')
}

// "name" = "value", or no pair.
#[tactic(auto, using(crate::proofs::ArgumentLaws::pair_words))]
fn pair_in(t: Piece<'_>) -> Saying
    ensures value { result ≡ pair_saying (pair_in t.entry.text.now t.entry.at) }
    ensures saying_in { SayingIn t.entry.text.now result }
{
    let Some((name, after)) = quoted(t) else {
        return Saying::NoPair;
    };
    let b = after.trimmed();
    if !b.starts_with(b"=") {
        return Saying::NoPair;
    }
    match quoted(b.behind(1).trimmed()) {
        None => Saying::NoPair,
        Some((value, _)) => Saying::Pair(name.at, value.at),
    }
}

// What a line of the keys of an operation says that is cut at its colon.
#[tactic(auto, using(crate::proofs::ArgumentLaws::keyed_words))]
fn keyed<'a>(takes: Takes, key: Piece<'a>, value: Piece<'a>) -> Saying
    requires { key.text ≡ value.text }
    ensures value { result ≡ keyed key.entry.text.now (keys_of takes) (cut_into key.entry.at value.entry.at) }
    ensures saying_in { SayingIn key.entry.text.now result }
{
    let key = key.trimmed();
    let value = value.trimmed();
    match crate::keys::key_in(takes, key) {
        Some(k) => Saying::Known(k, value.at),
        None => Saying::Unknown(key.at, value.at),
    }
}

// What a line of the keys of an operation says.
#[tactic(auto, using(crate::proofs::ArgumentLaws::colon_words))]
fn key_saying(takes: Takes, t: Piece<'_>) -> Saying
    ensures value { result ≡ key_saying t.entry.text.now (keys_of takes) t.entry.at }
    ensures saying_in { SayingIn t.entry.text.now result }
{
    match t.split_once(b':') {
        None => Saying::NoColon,
        Some((key, value)) => keyed(takes, key, value),
    }
}

#[tactic(auto, using(crate::proofs::ArgumentLaws::raw_words))]
fn raw_saying(t: Piece<'_>) -> Saying
    ensures value { result ≡ raw_saying t.entry.text.now t.entry.at }
    ensures saying_in { SayingIn t.entry.text.now result }
{
    if !t.starts_with(b"raw x\"") {
        return Saying::NoRaw;
    }
    Saying::Known(Key::Raw, t.behind(6).at)
}

// Whether the line stands in an open override list as a pair, or where a pair is due: it begins with `"`.
#[tactic(auto, using(crate::proofs::ArgumentLaws::list_words))]
fn is_listed(takes: Takes, list_open: bool, t: Piece<'_>) -> bool
    ensures { result ≡ listed t.entry.text.now takes list_open t.entry.at }
{
    if !list_open {
        return false;
    }
    match takes {
        Takes::Options => t.starts_with(b"\""),
        _ => false,
    }
}

// What an argument line says. The keys of all operations are asked for in one place, so that the code for them stands in its caller.
#[tactic(auto, using(crate::proofs::ArgumentLaws::in_list, crate::proofs::ArgumentLaws::beside_list, crate::proofs::ArgumentLaws::takes_told), unfolding(script::specs::Roles::saying_in))]
pub fn saying_in(takes: Takes, list_open: bool, t: Piece<'_>) -> Saying
    ensures value { result ≡ saying_in t.entry.text.now takes list_open t.entry.at }
    ensures saying_in { SayingIn t.entry.text.now result }
{
    if is_listed(takes, list_open, t) {
        return pair_in(t);
    }
    match takes {
        Takes::NoLines => Saying::NoColon,
        Takes::FirstRaw => raw_saying(t),
        _ => key_saying(takes, t),
    }
}
