// How much room a list of texts leaves: no length of a list is added up, since places may be forged.
ghost use Rattle.std.specs.Prelude.{◌≡◌, length};
ghost use Rattle.verdicts.specs.Lookup.{joined};
ghost use Rattle.writing.specs.Room.{less_by};
ghost use Rattle.lists.specs.Lists.{item_texts, behind};

use texts::part_of;
use writing::room::less;

// The texts of some items, `, ` in front of each.
fn rest_room(bytes: &[u8], items: &[[usize; 2]], room: Option<usize>) -> Option<usize>
    ensures { result ≡ less_by room (length (behind (item_texts bytes.now items.now))) }
{
    let mut left = room;
    for item in items {
        let text = part_of(bytes, item[0], item[1]);
        left = less(left, 2 + text.len());
    }
    left
}

// The texts, `, ` between them.
pub fn joined_room(bytes: &[u8], items: &[[usize; 2]], room: Option<usize>) -> Option<usize>
    ensures { result ≡ less_by room (length (joined (item_texts bytes.now items.now))) }
{
    match items.split_first() {
        None => room,
        Some((item, rest)) => {
            let text = part_of(bytes, item[0], item[1]);
            rest_room(bytes, rest, less(room, text.len()))
        }
    }
}
