// The values that were said, by key: those of the lines so far, and the same with the text in which they lie.
ghost use Rattle.std.specs.Prelude.{◌≡◌, ◌<◌, IfSome, None, option_map};
ghost use Rattle.script.specs.Operations.{key_row};
ghost use Rattle.script.specs.Contents.{number_of, flag_of, value_or};
ghost use Rattle.script.specs.Inside.{In};
ghost use Rattle.script.specs.declared.roles.Saying.TheVariants as Saying;
ghost use Rattle.said.specs.Said.{said_of, SaidIn};

use pieces::pieces::Piece;
use script::roles::{Key, Opening};
use text::parts::Span;

// The place of a key among 33: the keys are numbered from 1.
#[tactic(auto, unfolding(script::specs::Operations::key_row))]
pub fn key_number(k: Key) -> usize
    ensures value { result ≡ (key_row k).number }
    ensures upper_bound { result < 33 }
{
    k as usize
}

// The last value of each key in the lines so far, by the key's number.
#[derive(Drop)]
pub struct Heard {
    pub values: [Option<Span>; 33],
}

impl Heard {
    // Nothing is said yet.
    pub fn new() -> Heard
        ensures { (k : _) → said_of result k ≡ None }
    {
        Heard { values: [None; 33] }
    }

    // The value of a key, which overwrites the one that it had.
    #[tactic(auto, using(crate::proofs::SaidLaws::value_said))]
    pub fn keep(&mut self, k: Key, v: Span)
        ensures { (j : _) → said_of self.new j ≡ value_or j (Saying.Known k v) (said_of self.old j) }
    {
        self.values[key_number(k)] = Some(v);
    }

    // The last value of the key.
    #[tactic(auto, unfolding(crate::specs::Said::said_of))]
    pub fn value(&self, k: Key) -> Option<Span>
        ensures { result ≡ said_of self.now k }
    {
        let n = key_number(k);
        self.values[n]
    }
}

// What was said, in the text: each value lies inside it.
#[derive(Clone, Copy)]
pub struct Said<'a> {
    pub text: &'a [u8],
    pub heard: &'a Heard,
    pub ghost inside: { SaidIn text.now heard.now },
}

impl<'a> Said<'a> {
    // The last value of the key, as a piece of the text.
    pub fn value(self, k: Key) -> Option<Piece<'a>>
        ensures place { option_map (λ v. v.at) result ≡ said_of self.entry.heard.now k }
        ensures text { IfSome result (λ v. v.text.now ≡ self.entry.text.now) }
    {
        let at = self.heard.value(k)?;
        Some(Piece {
            text: self.text,
            at,
        })
    }

    // The number of the key: 0 where it was not said, or cannot be read.
    #[tactic(auto, unfolding(script::specs::Contents::number_of))]
    pub fn number(self, k: Key) -> u64
        ensures { result ≡ number_of self.entry.text.now (said_of self.entry.heard.now k) }
    {
        self.value(k)
            .and_then(|v| values::number::parse_up_to(v.bytes(), u64::MAX))
            .unwrap_or(0)
    }

    // A flag is on where it was said, unless its value is exactly `0`.
    #[tactic(auto, using(text::proofs::LiteralLaws::spells_as), unfolding(script::specs::Contents::flag_of, script::specs::Pieces::is))]
    pub fn flag(self, k: Key) -> bool
        ensures { result ≡ flag_of self.entry.text.now (said_of self.entry.heard.now k) }
    {
        self.value(k).is_some_and(|v| !v.is_word(b"0"))
    }
}

// An operation whose lines have been read: what opens it, and what was said below it.
#[derive(Clone, Copy)]
pub struct Operation<'a> {
    pub opening: Opening,
    pub said: Said<'a>,
    pub ghost inside: { In said.text.now opening.args },
}

impl<'a> Operation<'a> {
    // What stands behind its name.
    pub fn args(self) -> Piece<'a>
        ensures text { result.text ≡ self.entry.said.text }
        ensures at { result.at ≡ self.entry.opening.args }
    {
        Piece {
            text: self.said.text,
            at: self.opening.args,
        }
    }
}
