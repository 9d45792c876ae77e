// The features of the preamble, whose items stand before all others.
ghost use Rattle.std.specs.Prelude.{◌≡◌, length};
ghost use Rattle.script.specs.Contents.{features_in, or_none};
ghost use Rattle.script.specs.declared.roles.Key.TheVariants as Key;
ghost use Rattle.written.specs.Writing.{Room, wrote};
ghost use Rattle.tables.specs.Items.{items_for};
ghost use Rattle.said.specs.Said.{said_of};
ghost use Rattle.stored.specs.Closing.{front_of};

use said::said::Said;
use script::roles::Key;
use written::Writer;

// How many features the client has, and how many the server.
#[derive(Clone, Copy)]
pub struct Fronts {
    pub features: usize,
    pub server: usize,
}

// Writes the items of the key's feature set; none where it was not said.
#[tactic(auto, using(stored::proofs::WriteLaws::features_absent, stored::proofs::WriteLaws::features_room))]
fn put_features_of(said: Said<'_>, k: Key, items: &mut Writer<[usize; 2]>)
    requires { Room (length (or_none (features_in said.text.now (said_of said.heard.now k)))) items.old }
    ensures { items.new ≡ wrote (items_for (or_none (features_in said.entry.text.now (said_of said.entry.heard.now k)))) items.old }
{
    if let Some(v) = said.value(k) {
        item_sets::put_features(v, items);
    }
}

// Writes the features of the client, then those of the server.
#[tactic(auto, using(stored::proofs::WriteLaws::client_room, stored::proofs::WriteLaws::server_room, stored::proofs::WriteLaws::front_wrote))]
pub fn put_front(said: Said<'_>, items: &mut Writer<[usize; 2]>) -> Fronts
    requires { Room (length (front_of said.text.now (said_of said.heard.now))) items.old }
    ensures features_value { result.features ≡ length (or_none (features_in said.entry.text.now (said_of said.entry.heard.now Key.Features))) }
    ensures server_value { result.server ≡ length (or_none (features_in said.entry.text.now (said_of said.entry.heard.now Key.ServerFeatures))) }
    ensures after { items.new ≡ wrote (items_for (front_of said.entry.text.now (said_of said.entry.heard.now))) items.old }
{
    let start = items.position();
    put_features_of(said, Key::Features, items);
    let middle = items.position();
    put_features_of(said, Key::ServerFeatures, items);
    Fronts {
        features: middle - start,
        server: items.position() - middle,
    }
}
