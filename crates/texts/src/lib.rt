// What stands at a place. Places may be forged: what lies outside has no bytes.
#![tactic(auto)]

ghost use Rattle.std.specs.Prelude.{drop, take, ◌≡◌};
ghost use Rattle.text.specs.Base.{part};
ghost use Rattle.verdicts.specs.Held.{ranged, text_at};

use script::records::{Items, Place};

// What a response or the handshake's information is held in: the bytes of its texts, and the table that its lists are ranges of.
#[derive(Clone, Copy)]
pub struct Held<'a> {
    pub bytes: &'a [u8],
    pub lists: &'a [[usize; 2]],
}

impl<'a> Held<'a> {
    pub fn text_at(self, p: Place) -> &'a [u8]
        ensures { result.now ≡ text_at self.entry.bytes.now p }
    {
        text_at(self.bytes, p)
    }

    // The records of a list.
    pub fn items_at(self, r: Items) -> &'a [[usize; 2]]
        ensures { result.now ≡ ranged self.entry.lists.now r }
    {
        part_of(self.lists, r.first, r.count)
    }
}

// What stands from start on, len of it, as far as there is any. By two numbers: a place, a range and an item of a table, three types, are looked up so.
pub fn part_of<T>(items: &[T], start: usize, len: usize) -> &[T]
    ensures { result.now ≡ take len (drop start items.now) }
{
    let rest = &items[start.min(items.len())..];
    &rest[..len.min(rest.len())]
}

pub fn text_at(bytes: &[u8], p: Place) -> &[u8]
    ensures { result.now ≡ text_at bytes.now p }
{
    part_of(bytes, p.start, p.len)
}
