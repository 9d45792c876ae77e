// How much room a value leaves.
ghost use Rattle.std.specs.Prelude.{◌≡◌, length};
ghost use Rattle.writing.specs.Room.{left};
ghost use Rattle.sought.specs.Values.{value_text};

use decimals::decimal::decimal_len;
use lists::list_rooms::joined_room;
use sought::value::Value;
use texts::Held;
use writing::room::less;

// What is left of a room once a value stands there.
pub fn value_room(v: Value, held: Held<'_>, room: usize) -> Option<usize>
    ensures { result ≡ left room (length (value_text held.entry.bytes.now held.entry.lists.now v)) }
{
    let whole = Some(room);
    match v {
        Value::Missing => whole,
        Value::Number(n) => less(whole, decimal_len(n)),
        Value::Text(p) => less(whole, held.text_at(p).len()),
        Value::Unknown => less(whole, 7),
        Value::Trusted => less(whole, 7),
        Value::NotTrusted => less(whole, 11),
        Value::List(r) => joined_room(held.bytes, held.items_at(r), less(whole, 2)),
        Value::Features(r) => joined_room(held.bytes, held.items_at(r), less(whole, 4)),
    }
}
