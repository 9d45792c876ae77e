// How many lines of a text begin with `expect`.
#![tactic(auto)]

ghost use Rattle.std.specs.Prelude.{◌≡◌, ◌≤◌, length};
ghost use Rattle.text.specs.Lines.{lines};
ghost use Rattle.script.specs.Plain.{expectation_line, beginning_lines};

use lines::lines::Lines;
use pieces::pieces::Piece;
use text::lines::Line;
use text::parts::Span;

// Whether the line, trimmed, begins with `expect`.
#[tactic(auto, using(crate::proofs::CountLaws::begins))]
fn is_expect(text: &[u8], l: Line) -> bool
    requires start_le_end { l.start ≤ l.end }
    requires end_in_bounds { l.end ≤ length text.now }
    ensures { result ≡ expectation_line text.now l }
{
    let line = Piece {
        text,
        at: Span {
            start: l.start,
            end: l.end,
        },
    };
    line.trimmed().starts_with(b"expect")
}

// How many lines of the text begin, trimmed, with `expect`.
pub fn expect_lines(text: &[u8]) -> usize
    ensures { result ≡ length (beginning_lines text.now (lines text.now)) }
{
    let mut n: usize = 0;
    for line in Lines::new(text) {
        if is_expect(text, line) {
            n += 1;
        }
    }
    n
}
