// What one line says.
#![tactic(auto)]

ghost use Rattle.std.specs.Prelude.{◌≡◌, length};
ghost use Rattle.script.specs.Contents.{value_or};
ghost use Rattle.said.specs.Said.{said_of};
ghost use Rattle.written.specs.Writing.{Room, wrote};
ghost use Rattle.says.specs.Says.{Forward, pair_items};

use said::said::Heard;
use script::roles::Saying;
use written::Writer;

// A line that says something: the value of a key is kept, a pair is written where the operation takes an override list.
#[tactic(auto, using(written::proofs::WriterLaws::none_wrote), unfolding(script::specs::Contents::value_or, script::specs::Contents::pair_of, tables::specs::Items::items_for, crate::specs::Says::pair_items, crate::specs::Says::Forward))]
pub fn say(s: Saying, heard: &mut Heard, options: bool, items: &mut Writer<[usize; 2]>)
    requires forward { Forward s }
    requires room { Room (length (pair_items options s)) items.old }
    ensures after { items.new ≡ wrote (pair_items options s) items.old }
    ensures heard_after { (k : _) → said_of heard.new k ≡ value_or k s (said_of heard.old k) }
{
    match s {
        Saying::Known(k, v) => heard.keep(k, v),
        Saying::Pair(a, b) if options => tables::sets::put_pair(items, a, b),
        _ => {}
    }
}
