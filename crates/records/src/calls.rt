// Places, ranges and data of a record, from what was said and from how many items and bytes that takes.
ghost use Rattle.std.specs.Prelude.{◌≡◌, ◌+◌, ◌<◌, Some};
ghost use Rattle.script.specs.Pieces.{place_of};
ghost use Rattle.script.specs.Layout.{range};
ghost use Rattle.script.specs.declared.roles.Key.TheVariants as Key;
ghost use Rattle.said.specs.Said.{said_of};
ghost use Rattle.records.specs.Records.{framed_sized};

use pieces::pieces::Piece;
use said::said::Said;
use script::records::{FramedData, Items, Place};
use script::roles::Key;

// How many items an entry has, and how many bytes its first, second and third value in the store.
#[derive(Clone, Copy)]
pub struct Sizes {
    pub items: usize,
    pub first: usize,
    pub second: usize,
    pub third: usize,
}

// What an entry has of the tables: behind how many items and bytes of the store its own stand, and how many they are.
#[derive(Clone, Copy)]
pub struct Share {
    pub items_before: usize,
    pub bytes_before: usize,
    pub sizes: Sizes,
    pub ghost within: { bytes_before + sizes.first + sizes.second < 0x1_0000_0000_0000_0000 },
}

// The place of so many bytes that start there: 0 and 0 where there are none. The two are counted, and become a place here.
#[tactic(auto, using(crate::proofs::CallLaws::place_none, crate::proofs::CallLaws::place_some))]
pub fn placed(start: usize, len: usize) -> Place
    ensures { result ≡ place_of start len }
{
    if len == 0 {
        return Place { start: 0, len: 0 };
    }
    Place { start, len }
}

// The range of n records behind those that are there: 0 and 0 where there are none.
#[tactic(auto, using(crate::proofs::CallLaws::range_none, crate::proofs::CallLaws::range_some))]
pub fn range_of(before: usize, n: usize) -> Items
    ensures { result ≡ range before n }
{
    if n == 0 {
        return Items { first: 0, count: 0 };
    }
    Items {
        first: before,
        count: n,
    }
}

// Data that takes n bytes of the store, behind b of them; a file's name is a part of the text.
#[tactic(auto, using(crate::proofs::CallLaws::data_hex, crate::proofs::CallLaws::data_file, crate::proofs::CallLaws::data_neither))]
fn data_in(v: Piece<'_>, b: usize, n: usize) -> FramedData
    ensures { result ≡ framed_sized v.entry.text.now (Some v.entry.at) b n }
{
    if v.starts_with(b"x\"") {
        return FramedData::Inline(placed(b, n));
    }
    if v.starts_with(b"@file:") {
        return FramedData::FileRef(matchers::matchers::place_of(v.behind(6).at));
    }
    FramedData::Inline(placed(b, n))
}

// Data that was not said is inline.
#[tactic(auto, unfolding(script::specs::Contents::data_of, crate::specs::Records::framed_sized, crate::specs::Records::sized_at))]
pub fn framed_of(said: Said<'_>, b: usize, n: usize) -> FramedData
    ensures { result ≡ framed_sized said.entry.text.now (said_of said.entry.heard.now Key.Data) b n }
{
    said.value(Key::Data)
        .map_or(FramedData::Inline(placed(b, n)), |v| data_in(v, b, n))
}
