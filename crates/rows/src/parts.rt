// The parts of a row. Here the numbers that a host hands over become places and ranges.
ghost use Rattle.std.specs.Prelude.{◌≡◌};
ghost use Rattle.rows.specs.Rows as Rows;

use script::records::{Items, Place};

// The number at k, or 0 where the row is too short.
#[tactic(auto, unfolding(crate::specs::Rows::at))]
pub fn at(row: &[u64], k: usize) -> u64
    ensures { result ≡ Rows.at row.now k }
{
    row.get(k).copied().unwrap_or(0)
}

#[tactic(auto, unfolding(crate::specs::Rows::place_of))]
pub fn place(start: u64, len: u64) -> Place
    ensures { result ≡ Rows.place_of start len }
{
    Place {
        start: start as usize,
        len: len as usize,
    }
}

#[tactic(auto, unfolding(crate::specs::Rows::items_of))]
pub fn items(first: u64, count: u64) -> Items
    ensures { result ≡ Rows.items_of first count }
{
    Items {
        first: first as usize,
        count: count as usize,
    }
}

#[tactic(auto, unfolding(crate::specs::Rows::maybe_of))]
pub fn maybe(present: u64, start: u64, len: u64) -> Option<Place>
    ensures { result ≡ Rows.maybe_of present start len }
{
    (present != 0).then_some(place(start, len))
}

#[tactic(auto, unfolding(crate::specs::Rows::maybe_items_of))]
pub fn maybe_items(present: u64, first: u64, count: u64) -> Option<Items>
    ensures { result ≡ Rows.maybe_items_of present first count }
{
    (present != 0).then_some(items(first, count))
}

#[tactic(auto, unfolding(crate::specs::Rows::maybe_number_of))]
pub fn maybe_number(present: u64, n: u64) -> Option<u64>
    ensures { result ≡ Rows.maybe_number_of present n }
{
    (present != 0).then_some(n)
}
