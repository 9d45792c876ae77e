// The frames that messages are made of: of a matcher, of a value, of a terminal name, of one word.
#![tactic(auto)]

ghost use Rattle.std.specs.Prelude.{◌≡◌};
ghost use Rattle.frames.specs.Frames.{shown_as, word_frame, undecided_frame, valued_frame, terminal_frame, missing_or, error_headed};

use frames::frames::{Ending, Frame, Heading, NOWHERE, Piece, Shown};
use frames::words::{Head, Middle};
use script::records::{Matcher, Place};
use verdicts::Verdict;

#[tactic(auto, unfolding(frames::specs::Frames::shown_as))]
pub fn shown_as(m: Matcher) -> Shown
    ensures { result ≡ shown_as m }
{
    match m {
        Matcher::Exact(p) => Shown {
            before: Middle::ExpectedWord,
            piece: Piece::Text(p),
            behind: Ending::Got,
        },
        Matcher::Regex(p) => Shown {
            before: Middle::ExpectedPattern,
            piece: Piece::Text(p),
            behind: Ending::PatternGot,
        },
        Matcher::GreaterThan(n) => Shown {
            before: Middle::ExpectedAbove,
            piece: Piece::Number(n),
            behind: Ending::Got,
        },
        Matcher::LessThan(n) => Shown {
            before: Middle::ExpectedBelow,
            piece: Piece::Number(n),
            behind: Ending::Got,
        },
        Matcher::GreaterOrEqual(n) => Shown {
            before: Middle::ExpectedAtLeast,
            piece: Piece::Number(n),
            behind: Ending::Got,
        },
        Matcher::LessOrEqual(n) => Shown {
            before: Middle::ExpectedAtMost,
            piece: Piece::Number(n),
            behind: Ending::Got,
        },
    }
}

#[tactic(auto, unfolding(frames::specs::Frames::word_frame))]
pub fn word_frame(first: Head, a: Place, second: Middle, b: Piece) -> Frame
    ensures { result ≡ word_frame first a second b }
{
    Frame {
        first,
        a,
        second,
        b,
        ending: Ending::Nothing,
    }
}

// Only a pattern can be undecided.
#[tactic(auto, unfolding(frames::specs::Frames::undecided_frame, frames::specs::Frames::no_frame))]
pub fn undecided_frame(m: Matcher) -> Frame
    ensures { result ≡ undecided_frame m }
{
    match m {
        Matcher::Regex(p) => word_frame(Head::UndecidedWord, p, Middle::Slash, Piece::Nothing),
        _ => word_frame(Head::Nothing, NOWHERE, Middle::Nothing, Piece::Nothing),
    }
}

// Of a value that was looked up.
#[tactic(auto, unfolding(frames::specs::Frames::valued_frame, frames::specs::Frames::failed_frame))]
pub fn valued_frame(h: Heading, m: Matcher, v: Verdict) -> Frame
    ensures { result ≡ valued_frame h m v }
{
    let field = h.field;
    match v {
        Verdict::Passed => {
            let passed = h.passed;
            let between = h.between;
            word_frame(passed, field, between, Piece::Value)
        }
        Verdict::Failed => {
            let failed = h.failed;
            let s = shown_as(m);
            let before = s.before;
            let piece = s.piece;
            let behind = s.behind;
            Frame {
                first: failed,
                a: field,
                second: before,
                b: piece,
                ending: behind,
            }
        }
        Verdict::Undecided => undecided_frame(m),
    }
}

// Of the name of the last message, which is never undecided.
#[tactic(auto, unfolding(frames::specs::Frames::terminal_frame, frames::specs::Frames::no_frame))]
pub fn terminal_frame(name: Place, got: Place, v: Verdict) -> Frame
    ensures { result ≡ terminal_frame name got v }
{
    match v {
        Verdict::Passed => word_frame(Head::TerminalIs, name, Middle::Nothing, Piece::Nothing),
        Verdict::Failed => word_frame(Head::ExpectedTerminal, name, Middle::Got, Piece::Held(got)),
        Verdict::Undecided => word_frame(Head::Nothing, NOWHERE, Middle::Nothing, Piece::Nothing),
    }
}

// Of a value that may be missing.
#[tactic(auto, unfolding(frames::specs::Frames::missing_or))]
pub fn missing_or(missing: bool, absent: Frame, h: Heading, m: Matcher, v: Verdict) -> Frame
    ensures { result ≡ missing_or missing absent h m v }
{
    if missing {
        return absent;
    }
    valued_frame(h, m, v)
}

// `WORD = value`, `WORD: expected ..`
#[tactic(auto, unfolding(frames::specs::Frames::headed))]
pub fn headed(w: Head, field: Place) -> Heading
    ensures { result ≡ Rattle.frames.specs.Frames.headed w field }
{
    Heading {
        passed: w,
        between: Middle::Is,
        failed: w,
        field,
    }
}

#[tactic(auto, unfolding(frames::specs::Frames::error_headed))]
pub fn error_headed() -> Heading
    ensures { result ≡ error_headed }
{
    Heading {
        passed: Head::ErrorMatched,
        between: Middle::Nothing,
        failed: Head::ErrorWord,
        field: NOWHERE,
    }
}

// One word alone.
pub fn alone(w: Head) -> Frame
    ensures { result ≡ Rattle.frames.specs.Frames.alone w }
{
    word_frame(w, NOWHERE, Middle::Nothing, Piece::Nothing)
}
