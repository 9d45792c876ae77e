// The records of the operations that add to the store, from what was said below them and from how many items and bytes that takes.
#![tactic(auto)]

ghost use Rattle.std.specs.Prelude.{◌≡◌};
ghost use Rattle.said.specs.Said.{said_of};
ghost use Rattle.records.specs.Records.{texts_record, store_record, multiple_record};

use records::calls::{Share, framed_of, placed, range_of};
use said::said::Said;
use script::records::OpCall;
use script::roles::Key;

#[tactic(auto, unfolding(records::specs::Records::texts_record))]
pub fn texts_call(share: Share) -> OpCall
    ensures { result ≡ texts_record share.items_before share.bytes_before share.sizes }
{
    let b = share.bytes_before;
    let z = share.sizes;
    OpCall::AddTextToStore {
        suffix: placed(b, z.first),
        text: placed(b + z.first, z.second),
        refs: range_of(share.items_before, z.items),
    }
}

#[tactic(auto, unfolding(records::specs::Records::store_record))]
pub fn store_call(said: Said<'_>, share: Share) -> OpCall
    ensures { result ≡ store_record said.entry.text.now (said_of said.entry.heard.now) share.items_before share.bytes_before share.sizes }
{
    let b = share.bytes_before;
    let z = share.sizes;
    let second = b + z.first;
    let third = second + z.second;
    OpCall::AddToStore {
        name: placed(b, z.first),
        cam_str: placed(second, z.second),
        refs: range_of(share.items_before, z.items),
        repair: said.flag(Key::Repair),
        data: framed_of(said, third, z.third),
    }
}

#[tactic(auto, unfolding(records::specs::Records::multiple_record))]
pub fn multiple_call(said: Said<'_>, b: usize, n: usize) -> OpCall
    ensures { result ≡ multiple_record said.entry.text.now (said_of said.entry.heard.now) b n }
{
    OpCall::AddMultipleToStore {
        repair: said.flag(Key::Repair),
        dont_check_sigs: said.flag(Key::DontCheckSigs),
        data: framed_of(said, b, n),
    }
}
