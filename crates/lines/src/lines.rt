// Lines of a text. By places in it: a line is its places, and where the next one begins is the answer.
ghost use Rattle.std.specs.Prelude.{◌≡◌, true, ◌∷◌, ◌+◌, ◌<◌, ◌^◌, length};
ghost use Rattle.std.specs.Iterator.{YieldsFirst, item_count};
ghost use Rattle.text.specs.Lines.{line, line_at, lines, indented, trimmed_length};
ghost use Rattle.text.specs.LinesWalk.{end_at};
ghost use Rattle.lines.specs.Walk.{left, has_more, begun, past, few};

use text::lines::Line;

// The line from `at` on whose LF stands at lf.
#[tactic(auto, unfolding(text::specs::LinesWalk::end_at))]
fn ended(text: &[u8], at: usize, number: usize, lf: usize) -> Line
    requires { lf < length text.now }
    ensures { result ≡ line number at (end_at text.now at lf) (lf + 1) }
{
    let end = if at < lf && text[lf - 1] == b'\r' {
        lf - 1
    } else {
        lf
    };
    Line {
        number,
        start: at,
        end,
        next: lf + 1,
    }
}

// The line that begins at `at`, called by the number given. At the end of the text, or past it, it has no bytes. Always in its callers, whose loops go
// over the lines: a call for each took as long as the line.
#[inline(always)]
#[tactic(auto, using(text::proofs::LineLaws::first_lf, text::proofs::LineLaws::no_lf, text::proofs::LineLaws::at_end))]
pub fn line_at(text: &[u8], at: usize, number: usize) -> Line
    ensures { result ≡ line_at text.now at number }
{
    if at < text.len() {
        let lf = text::skip::skip_others(text, b'\n', at);
        if lf < text.len() {
            return ended(text, at, number, lf);
        }
    }
    let end = at.max(text.len());
    Line {
        number,
        start: at,
        end,
        next: end,
    }
}

// A walk over the lines of a text: it borrows the text, and carries the place where the next line begins and that line's number. Its functions are thin:
// `line_at`, which does the work, takes the text as a plain slice.
#[derive(Clone, Copy, Drop)]
pub struct Lines<'a> {
    text: &'a [u8],
    at: usize,
    number: usize,
}

impl<'a> Lines<'a> {
    // Before the first line.
    #[tactic(auto, unfolding(text::specs::Lines::lines, crate::specs::Walk::left))]
    pub fn new(text: &'a [u8]) -> Lines<'a>
        ensures value { result ≡ begun text.entry }
        ensures all { left result ≡ lines text.now }
    {
        Lines {
            text,
            at: 0,
            number: 1,
        }
    }

    // Whether a line is left.
    #[tactic(auto, using(crate::proofs::WalkLaws::more_is))]
    pub fn more(self) -> bool
        ensures { result ≡ has_more (left self.entry) }
    {
        self.at < self.text.len()
    }

    // The next of the lines that are left; the walk moves past it. For a caller who wants one line, and to know where the walk stands then; a loop over the
    // lines goes by the iterator.
    #[tactic(auto, using(crate::proofs::WalkLaws::past_is, crate::proofs::WalkLaws::left_is))]
    pub fn next_line(&mut self) -> Line
        requires self_value { has_more (left self.old) ≡ true }
        requires number_bound { self.old.number + 1 < 2 ^ 64 }
        ensures self_value_2 { left self.old ≡ result ∷ left self.new }
        ensures self_after { self.new ≡ past self.old }
    {
        let here = line_at(self.text, self.at, self.number);
        self.at = here.next;
        self.number = self.number + 1;
        here
    }
}

impl<'a> Iterator for Lines<'a> {
    type Item = Line;

    // No more lines are numbered than bytes are past, so that the number does not wrap.
    ghost can_next = { λ w. few w };

    ghost next_gives = { YieldsFirst left };

    ghost remaining = { item_count left };

    #[tactic(auto, using(text::proofs::LineLaws::lines_none, text::proofs::LineLaws::known), unfolding(crate::specs::Walk::left))]
    fn next(&mut self) -> Option<Line> {
        if self.text.len() <= self.at {
            return None;
        }
        let line = line_at(self.text, self.at, self.number);
        self.at = line.next;
        self.number += 1;
        Some(line)
    }
}

// How many lines the text has.
#[tactic(auto, using(text::proofs::LineLaws::lines_few))]
pub fn count_lines(text: &[u8]) -> usize
    ensures { result ≡ length (lines text.now) }
{
    Lines::new(text).count()
}

// How many bytes the lines have once each is trimmed.
#[tactic(auto, using(text::proofs::LineLaws::lines_in, text::proofs::LineLaws::trimmed_few))]
pub fn trimmed_bytes(text: &[u8]) -> usize
    ensures { result ≡ trimmed_length text.now (lines text.now) }
{
    let mut sum: usize = 0;
    for line in Lines::new(text) {
        sum += trimming::trim(&text[line.start..line.end]).len();
    }
    sum
}

// Whether a line, as it stands in the text, begins with two spaces or a tab.
#[tactic(auto, unfolding(text::specs::Lines::indented, text::specs::Literal::utf8))]
pub fn indented(line: &[u8]) -> bool
    ensures { result ≡ indented line.now }
{
    text::parts::starts_with(line, b"  ") || text::parts::starts_with(line, b"\t")
}
