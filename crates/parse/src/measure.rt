// Measure: what a text takes, or why it is not read.
ghost use Rattle.std.specs.Prelude.{◌≡◌, ◌≤◌, length};
ghost use Rattle.text.specs.Lines.{lines};
ghost use Rattle.kept.specs.Kept.{Memo};
ghost use Rattle.script.specs.Reading.{measured};
ghost use Rattle.script.specs.declared.roles.Where.TheVariants as Stands;
ghost use Rattle.measuring.specs.Measure.{preamble_open, zeros, walk_from};

use kept::Kept;
use lines::lines::Lines;
use measuring::What;
use script::records::{Counts, Refusal};
use script::refusals::Reason;
use script::roles::{Role, Where};

// One line after another; the first refused line is the answer. What each line is is kept.
#[tactic(auto, using(crate::proofs::WalkLaws::line_in))]
pub fn walk(text: &[u8], kept: &mut [Option<Kept>]) -> Result<Counts, Refusal>
    requires text_len_bound { length text.now ≤ 0x8000 }
    requires memo { Memo text.now kept.old }
    ensures result_value { result ≡ walk_from text.now zeros preamble_open Stands.InPreamble (lines text.now) }
    ensures memo_2 { Memo text.now kept.new × (length kept.new ≡ length kept.old) }
{
    let mut t = Counts {
        entries: 0,
        items: 0,
        expectations: 0,
        store: 0,
    };
    let mut o = totals::begin(What::ThePreamble, 0);
    let mut w = Where::InPreamble;
    for l in Lines::new(text) {
        let step = roles::steps::step(text, w, l);
        let role = step.role;
        let next = step.next;
        kept::keep(kept, l.number, l.start, w, l.next, step);
        match role {
            Role::Nothing => {}
            Role::Says(s) => o = totals::say_on(text, o, s),
            Role::Expects(_) => t.expectations += 1,
            Role::Opens(p) => {
                t = totals::enter(t, o);
                o = totals::open_entry(text, p);
            }
            Role::Bad(refused) => {
                return Err(Refusal {
                    reason: refused.reason,
                    line: l.number,
                });
            }
        }
        w = roles::steps::same_place(next);
    }
    Ok(totals::close_on(t, o))
}

// First the length, then whether it is UTF-8, then the lines, and what each is is kept.
pub fn measure_keeping(text: &[u8], kept: &mut [Option<Kept>]) -> Result<Counts, Refusal>
    requires { Memo text.now kept.old }
    ensures result_value { result ≡ measured text.now }
    ensures memo { Memo text.now kept.new × (length kept.new ≡ length kept.old) }
{
    if 0x8000 < text.len() {
        return Err(Refusal::from(Reason::TextTooLong));
    }
    if !utf8::well_formed(text) {
        return Err(Refusal::from(Reason::NotUtf8));
    }
    walk(text, kept)
}

pub fn measure(text: &[u8]) -> Result<Counts, Refusal>
    ensures { result ≡ measured text.now }
{
    let mut kept = kept::no_room();
    measure_keeping(text, &mut kept)
}
