// What a line of a text is and where the next one begins: as it was kept, or else found out.
#![tactic(auto)]

ghost use Rattle.std.specs.Prelude.{◌≡◌, ◌≤◌, ◌<◌, length};
ghost use Rattle.text.specs.Lines.{line_at};
ghost use Rattle.script.specs.Values.{plain_rules};
ghost use Rattle.script.specs.Roles.{step_of};
ghost use Rattle.kept.specs.Kept.{Memo};
ghost use Rattle.turns.specs.Turns.{turn_of};
ghost use Rattle.kept.proofs.KeptLaws.{memo_prop};

use kept::Kept;
use script::roles::{Step, Where};

// What a line is, and where the next one begins.
#[derive(Clone, Copy)]
pub struct Turn {
    pub step: Step,
    pub next: usize,
}

fn turn_of(e: Kept) -> Turn
    ensures { result ≡ turn_of e }
{
    let step = e.step;
    Turn { step, next: e.next }
}

// What the line that begins there is, found out.
#[tactic(auto, using(kept::proofs::KeptLaws::find_laws))]
fn find(text: &[u8], w: Where, at: usize, number: usize) -> Turn
    requires { at < length text.now }
    ensures step_value { result.step ≡ step_of plain_rules text.now w (line_at text.now at number) }
    ensures next_value { result.next ≡ (line_at text.now at number).next }
{
    let l = lines::lines::line_at(text, at, number);
    Turn {
        step: roles::steps::quick_step(text, w, l),
        next: l.next,
    }
}

// What the line that begins there is: as it was kept, or else found out.
pub fn look(text: &[u8], kept: &[Option<Kept>], w: Where, at: usize, number: usize) -> Turn
    requires memo { Memo text.now kept.now }
    requires at_in_bounds { at < length text.now }
    ensures step_value { result.step ≡ step_of plain_rules text.now w (line_at text.now at number) }
    ensures next_value { result.next ≡ (line_at text.now at number).next }
{
    if let Some(Some(e)) = kept.get(number)
        && kept::is_of(*e, at, w)
    {
        return turn_of(*e);
    }
    find(text, w, at, number)
}

// A text that was measured, and what was kept of its lines.
#[derive(Clone, Copy)]
pub struct Measured<'a> {
    pub text: &'a [u8],
    pub kept: &'a [Option<Kept>],
    pub ghost short: { length text.now ≤ 0x8000 },
    pub ghost memo: { Memo text.now kept.now } by { memo_prop text.now kept.now },
}

impl<'a> Measured<'a> {
    // What the line of it is that begins there.
    pub fn look(self, w: Where, at: usize, number: usize) -> Turn
        requires { at < length self.text.now }
        ensures step_value { result.step ≡ step_of plain_rules self.entry.text.now w (line_at self.entry.text.now at number) }
        ensures next_value { result.next ≡ (line_at self.entry.text.now at number).next }
    {
        look(self.text, self.kept, w, at, number)
    }
}
