// The values of an entry whose last line has been read: the items of its path set, and the bytes of its values in the store.
ghost use Rattle.std.specs.Prelude.{◌≡◌, ◌≤◌, length, IfSome, option_map};
ghost use Rattle.script.specs.Operations.{form_of};
ghost use Rattle.script.specs.Operations as Shapes;
ghost use Rattle.script.specs.Values.{plain_rules};
ghost use Rattle.script.specs.Contents.{set_of, unquoted_of, hex_of, data_of};
ghost use Rattle.script.specs.Layout.{stored_of};
ghost use Rattle.script.specs.declared.roles.Key.TheVariants as Key;
ghost use Rattle.written.specs.Writing.{Room, wrote};
ghost use Rattle.tables.specs.Items.{items_for};
ghost use Rattle.said.specs.Said.{said_of};
ghost use Rattle.stored.specs.Closing.{stored, sizes_with, own_set, own_stored, own_sizes};

use pieces::pieces::Piece;
use records::calls::Sizes;
use said::said::{Operation, Said};
use script::roles::Key;
use wire::ops::Op;
use written::Writer;

// The path set of an operation, on its line or below it.
#[tactic(auto, unfolding(script::specs::Operations::form_of, script::specs::Roles::set_on, script::specs::Contents::set_of, crate::specs::Closing::set_items))]
fn path_set<'a>(operation: Operation<'a>) -> Option<Piece<'a>>
    ensures value { set_of operation.entry.said.text.now (option_map (λ p. p.at) result) ≡ own_set operation.entry }
    ensures text { IfSome result (λ p. p.text.now ≡ operation.entry.said.text.now) }
{
    let op = operation.opening.op;
    match op {
        Op::CollectGarbage => operation.said.value(Key::Paths),
        Op::AddTextToStore | Op::AddToStore => operation.said.value(Key::Refs),
        _ => openings::set_on(op, operation.args()),
    }
}

// Writes the items of an operation's path set; none where it has none.
#[tactic(auto, using(crate::proofs::WriteLaws::set_absent, crate::proofs::WriteLaws::set_room))]
fn put_items(operation: Operation<'_>, items: &mut Writer<[usize; 2]>)
    requires { Room (length (own_set operation)) items.old }
    ensures { items.new ≡ wrote (items_for (own_set operation.entry)) items.old }
{
    if let Some(v) = path_set(operation) {
        item_sets::put_set(v, items);
    }
}

// Writes the key's value unquoted, and says how many bytes that are; none where it was not said. Here and in the two below `map_or` gets no proof: its
// closure would hold the store, of which nothing is then known where there is no value.
#[tactic(auto, using(written::proofs::WriterLaws::none_wrote), unfolding(script::specs::Contents::unquoted_of))]
fn put_unquoted(said: Said<'_>, k: Key, store: &mut Writer<u8>) -> usize
    requires { Room (length (unquoted_of plain_rules said.text.now (said_of said.heard.now k))) store.old }
    ensures value { result ≡ length (unquoted_of plain_rules said.entry.text.now (said_of said.entry.heard.now k)) }
    ensures store_after { store.new ≡ wrote (unquoted_of plain_rules said.entry.text.now (said_of said.entry.heard.now k)) store.old }
{
    match said.value(k) {
        None => 0,
        Some(v) => storing::put_unquoted(v, store),
    }
}

// Writes the bytes of data, and says how many they are; none where it was not said.
#[tactic(auto, using(written::proofs::WriterLaws::none_wrote), unfolding(script::specs::Contents::data_of, script::specs::Layout::stored_of))]
fn put_data(said: Said<'_>, store: &mut Writer<u8>) -> usize
    requires { Room (length (stored_of (data_of plain_rules said.text.now (said_of said.heard.now Key.Data)))) store.old }
    ensures value { result ≡ length (stored_of (data_of plain_rules said.entry.text.now (said_of said.entry.heard.now Key.Data))) }
    ensures store_after { store.new ≡ wrote (stored_of (data_of plain_rules said.entry.text.now (said_of said.entry.heard.now Key.Data))) store.old }
{
    match said.value(Key::Data) {
        None => 0,
        Some(v) => storing::put_data(v, store),
    }
}

// Writes the bytes behind `raw x"`, and says how many they are; none where there is no such line.
#[tactic(auto, using(written::proofs::WriterLaws::none_wrote), unfolding(script::specs::Contents::hex_of))]
fn put_raw(said: Said<'_>, store: &mut Writer<u8>) -> usize
    requires { Room (length (hex_of plain_rules said.text.now (said_of said.heard.now Key.Raw))) store.old }
    ensures value { result ≡ length (hex_of plain_rules said.entry.text.now (said_of said.entry.heard.now Key.Raw)) }
    ensures store_after { store.new ≡ wrote (hex_of plain_rules said.entry.text.now (said_of said.entry.heard.now Key.Raw)) store.old }
{
    match said.value(Key::Raw) {
        None => 0,
        Some(v) => storing::put_hex(v, store),
    }
}

// Writes the two values of AddTextToStore; n is how many items it has.
#[tactic(auto, using(crate::proofs::WriteLaws::suffix_room, crate::proofs::WriteLaws::body_fits, crate::proofs::WriteLaws::texts_wrote), unfolding(crate::specs::Closing::sizes_with, crate::specs::Closing::first_stored, crate::specs::Closing::second_stored, crate::specs::Closing::third_stored))]
fn put_texts(said: Said<'_>, n: usize, store: &mut Writer<u8>) -> Sizes
    requires { Room (length (stored said.text.now (said_of said.heard.now) Shapes.add_text_to_store)) store.old }
    ensures value { result ≡ sizes_with said.entry.text.now (said_of said.entry.heard.now) n Shapes.add_text_to_store }
    ensures store_after { store.new ≡ wrote (stored said.entry.text.now (said_of said.entry.heard.now) Shapes.add_text_to_store) store.old }
{
    let first = put_unquoted(said, Key::Suffix, store);
    let second = put_unquoted(said, Key::Text, store);
    Sizes {
        items: n,
        first,
        second,
        third: 0,
    }
}

// Writes the three values of AddToStore; n is how many items it has.
#[tactic(auto, using(crate::proofs::WriteLaws::name_room, crate::proofs::WriteLaws::cam_str_room, crate::proofs::WriteLaws::contents_room, crate::proofs::WriteLaws::all_wrote), unfolding(crate::specs::Closing::sizes_with, crate::specs::Closing::first_stored, crate::specs::Closing::second_stored, crate::specs::Closing::third_stored))]
fn put_store(said: Said<'_>, n: usize, store: &mut Writer<u8>) -> Sizes
    requires { Room (length (stored said.text.now (said_of said.heard.now) Shapes.add_to_store)) store.old }
    ensures value { result ≡ sizes_with said.entry.text.now (said_of said.entry.heard.now) n Shapes.add_to_store }
    ensures store_after { store.new ≡ wrote (stored said.entry.text.now (said_of said.entry.heard.now) Shapes.add_to_store) store.old }
{
    let first = put_unquoted(said, Key::Name, store);
    let second = put_unquoted(said, Key::CamStr, store);
    let third = put_data(said, store);
    Sizes {
        items: n,
        first,
        second,
        third,
    }
}

// Writes the values of an operation into the store, and says how many bytes each has; n is how many items the operation has.
#[tactic(auto, using(written::proofs::WriterLaws::none_wrote, crate::proofs::WriteLaws::alone), unfolding(script::specs::Operations::form_of, crate::specs::Closing::stored, crate::specs::Closing::first_stored, crate::specs::Closing::second_stored, crate::specs::Closing::third_stored, crate::specs::Closing::sizes_with))]
fn put_stored(operation: Operation<'_>, n: usize, store: &mut Writer<u8>) -> Sizes
    requires { Room (length (own_stored operation)) store.old }
    ensures value { result ≡ sizes_with operation.entry.said.text.now (said_of operation.entry.said.heard.now) n (form_of operation.entry.opening.op).shape }
    ensures store_after { store.new ≡ wrote (own_stored operation.entry) store.old }
{
    let said = operation.said;
    let first = match operation.opening.op {
        Op::AddTextToStore => return put_texts(said, n, store),
        Op::AddToStore => return put_store(said, n, store),
        Op::AddMultipleToStore | Op::AddBuildLog => put_data(said, store),
        Op::BuildDerivation | Op::AddToStoreNar => put_raw(said, store),
        _ => 0,
    };
    Sizes {
        items: n,
        first,
        second: 0,
        third: 0,
    }
}

// Writes the values of an entry: the items of its path set behind its own override pairs, and the bytes of its values.
pub fn put_values(
    operation: Operation<'_>,
    pairs: usize,
    items: &mut Writer<[usize; 2]>,
    store: &mut Writer<u8>,
) -> Sizes
    requires pairs_before { pairs ≤ items.old.at }
    requires room { Room (length (own_set operation)) items.old }
    requires store_room { Room (length (own_stored operation)) store.old }
    ensures value { result ≡ own_sizes operation.entry pairs }
    ensures after { items.new ≡ wrote (items_for (own_set operation.entry)) items.old }
    ensures store_after { store.new ≡ wrote (own_stored operation.entry) store.old }
{
    let before = items.position();
    put_items(operation, items);
    let n = pairs + (items.position() - before);
    put_stored(operation, n, store)
}
