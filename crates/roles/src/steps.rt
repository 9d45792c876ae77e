// Every line: what it is, and where the next one stands.
ghost use Rattle.std.specs.Prelude.{◌≡◌, true};
ghost use Rattle.script.specs.Values.{plain_rules};
ghost use Rattle.script.specs.Roles.{step, line_span, outside_step, entry_step, block_step, step_at, step_of};
ghost use Rattle.script.specs.declared.roles.Role.TheVariants.{Nothing};
ghost use Rattle.script.specs.Inside.{In};
ghost use Rattle.roles.specs.StepRead.{front_of, sorted_step, below_nothing};

use pieces::pieces::Piece;
use script::roles::{Role, Step, Takes, Where};
use text::lines::Line;
use text::parts::Span;

// How an indented line begins: it is blank or a comment; with `expect`; otherwise.
#[derive(Clone, Copy)]
pub enum Front {
    Skipped,
    Expect,
    Other,
}

// What is to be made of a line: a step of the preamble; nothing, with no entry open below it; nothing, with its entry open; an expectation; an argument
// line of an operation that takes such lines, with an override list open or not; an entry.
#[derive(Clone, Copy)]
pub enum Sort {
    Preamble,
    Skipped,
    Passed,
    Expect,
    Argument(Takes, bool),
    Opening,
}

#[tactic(auto, using(crate::proofs::StepLaws::front_words))]
fn begins_as(t: Piece<'_>) -> Front
    ensures { result ≡ front_of t.entry.text.now t.entry.at }
{
    if t.is_empty() {
        return Front::Skipped;
    }
    if t.starts_with(b"#") {
        return Front::Skipped;
    }
    if t.starts_with(b"expect") {
        return Front::Expect;
    }
    Front::Other
}

// A line with no entry open.
#[tactic(auto, using(crate::proofs::StepLaws::outside_words), unfolding(crate::specs::StepRead::sorted_step))]
fn outside_sort(t: Piece<'_>) -> Sort
    ensures { sorted_step t.entry.text.now result t.entry.at ≡ outside_step t.entry.text.now t.entry.at }
{
    if openings::is_skipped(t) {
        return Sort::Skipped;
    }
    Sort::Opening
}

// A line of an entry below its argument lines.
#[tactic(auto, using(crate::proofs::StepLaws::entry_words), unfolding(crate::specs::StepRead::sorted_step))]
fn entry_sort(inward: bool, t: Piece<'_>) -> Sort
    ensures { sorted_step t.entry.text.now result t.entry.at ≡ entry_step t.entry.text.now inward t.entry.at }
{
    if !inward {
        return outside_sort(t);
    }
    match begins_as(t) {
        Front::Skipped => Sort::Passed,
        Front::Expect => Sort::Expect,
        Front::Other => outside_sort(t),
    }
}

// A line where argument lines may stand.
#[tactic(auto, using(crate::proofs::StepLaws::Block_words), unfolding(crate::specs::StepRead::sorted_step))]
fn block_sort(takes: Takes, list_open: bool, inward: bool, t: Piece<'_>) -> Sort
    ensures { sorted_step t.entry.text.now result t.entry.at ≡ block_step plain_rules t.entry.text.now takes list_open inward t.entry.at }
{
    if !inward {
        return outside_sort(t);
    }
    match begins_as(t) {
        Front::Skipped => Sort::Passed,
        Front::Expect => Sort::Expect,
        Front::Other => Sort::Argument(takes, list_open),
    }
}

#[tactic(auto, using(crate::proofs::StepLaws::stands), unfolding(script::specs::Roles::step_at, crate::specs::StepRead::sorted_step))]
fn sort_of(w: Where, inward: bool, t: Piece<'_>) -> Sort
    ensures { sorted_step t.entry.text.now result t.entry.at ≡ step_at plain_rules t.entry.text.now w inward t.entry.at }
{
    match w {
        Where::InPreamble => Sort::Preamble,
        Where::Outside => outside_sort(t),
        Where::InBlock(takes, list_open) => block_sort(takes, list_open, inward, t),
        Where::InEntry => entry_sort(inward, t),
    }
}

// What a line of that sort is.
#[tactic(auto, using(crate::proofs::StepLaws::sorted_as, crate::proofs::StepLaws::sorted_expect), unfolding(crate::specs::StepRead::sorted_step))]
fn sorted_step(sort: Sort, t: Piece<'_>) -> Step
    ensures { result ≡ sorted_step t.entry.text.now sort t.entry.at }
{
    match sort {
        Sort::Preamble => preambles::preamble::preamble_step(t),
        Sort::Skipped => Step {
            role: Role::Nothing,
            next: Where::Outside,
        },
        Sort::Passed => Step {
            role: Role::Nothing,
            next: Where::InEntry,
        },
        Sort::Expect => Step {
            role: expectations::expect_role(t),
            next: Where::InEntry,
        },
        Sort::Argument(takes, list_open) => crate::argument_steps::argument_step(
            takes, list_open, t,
        ),
        Sort::Opening => openings::opening_step(t),
    }
}

// First the sort, then the step: so each way to make a step stands in one place, and what it makes is not copied from one to another.
#[inline(always)]
fn step_at(w: Where, inward: bool, t: Piece<'_>) -> Step
    ensures { result ≡ step_at plain_rules t.entry.text.now w inward t.entry.at }
{
    let sort = sort_of(w, inward, t);
    sorted_step(sort, t)
}

// Whether the line is blank or a comment that says nothing, wherever it stands: a text may have very many, so that this is told before a step is made.
#[tactic(auto, using(crate::proofs::StepLaws::blank_led, crate::proofs::StepLaws::nothing_led, crate::proofs::StepLaws::nothing_below))]
fn is_nothing(w: Where, t: Piece<'_>) -> bool
    ensures { result ≡ true → (inward : _) → step Nothing (below_nothing w inward) ≡ step_at plain_rules t.entry.text.now w inward t.entry.at }
{
    match w {
        Where::InPreamble => t.is_empty() || remarks::is_remark(t),
        _ => openings::is_skipped(t),
    }
}

// Where the line below such a line stands.
#[tactic(auto, unfolding(crate::specs::StepRead::below_nothing))]
fn below_nothing(w: Where, inward: bool) -> Where
    ensures { result ≡ below_nothing w inward }
{
    match w {
        Where::InPreamble => Where::InPreamble,
        Where::Outside => Where::Outside,
        Where::InBlock(..) | Where::InEntry => {
            if inward {
                Where::InEntry
            } else {
                Where::Outside
            }
        }
    }
}

// What a line of the text is. "Begins with" is about the trimmed line, "indented" about the line as it stands in the text. Never in its callers: it is
// large, and what comes out of it goes where they want it.
#[inline(never)]
#[tactic(auto, using(crate::proofs::StepLaws::step_is, crate::proofs::StepLaws::empty_is, crate::proofs::StepLaws::nothing_is))]
pub fn step(text: &[u8], w: Where, l: Line) -> Step
    requires { In text.now (line_span l) }
    ensures { result ≡ step_of plain_rules text.now w l }
{
    if l.start == l.end {
        return Step {
            role: Role::Nothing,
            next: below_nothing(w, false),
        };
    }
    let line = Piece {
        text,
        at: Span {
            start: l.start,
            end: l.end,
        },
    };
    let inward = lines::lines::indented(line.bytes());
    let t = line.trimmed();
    if is_nothing(w, t) {
        return Step {
            role: Role::Nothing,
            next: below_nothing(w, inward),
        };
    }
    step_at(w, inward, t)
}

// The same, with an empty line told before the call: a text may have very many. Always in its callers, so for one that does nothing else with the step:
// elsewhere a step that comes from two places costs more than that call (counted in Measure's walk: a quarter more for a line that is not empty).
#[inline(always)]
#[tactic(auto, using(crate::proofs::StepLaws::empty_is))]
pub fn quick_step(text: &[u8], w: Where, l: Line) -> Step
    requires { In text.now (line_span l) }
    ensures { result ≡ step_of plain_rules text.now w l }
{
    if l.start == l.end {
        return Step {
            role: Role::Nothing,
            next: below_nothing(w, false),
        };
    }
    step(text, w, l)
}

// The same place, made case by case. A walk carries the place from line to line by this: a plain copy reads bytes together that `step` wrote one by one,
// and such a read waits for them.
pub fn same_place(w: Where) -> Where
    ensures { result ≡ w }
{
    match w {
        Where::InPreamble => Where::InPreamble,
        Where::Outside => Where::Outside,
        Where::InBlock(takes, list_open) => Where::InBlock(takes, list_open),
        Where::InEntry => Where::InEntry,
    }
}
