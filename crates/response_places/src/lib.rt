// Whether the places of a response, and those of the handshake's information, lie inside: 32. It takes how many bytes there are, for it looks at none.
#![tactic(auto)]

ghost use Rattle.std.specs.Prelude.{◌≡◌, get_or};
ghost use Rattle.verdicts.specs.Held as Held;
ghost use Rattle.script.specs.declared.response.ResultData.TheVariants.{PathInfo};

use fits::room;
use places::{inside, maybe_in, place_in};
use script::records::Items;
use script::response::{DaemonResponse, HandshakeInfo, PathInfoResult, ResultData};
use texts::part_of;

// A text of the table: where it starts, and how many bytes it has.
#[tactic(auto, unfolding(verdicts::specs::Held::inside))]
fn item_in(n: usize, item: &[usize; 2]) -> bool
    ensures { result ≡ Held.inside n (get_or item.now 0 0) (get_or item.now 1 0) }
{
    inside(n, item[0], item[1])
}

// A list: its range in the table, of which only the first 32,768 records count, and each of its texts.
#[tactic(auto, unfolding(verdicts::specs::Held::list_in))]
pub fn list_in(n: usize, lists: &[[usize; 2]], r: Items) -> bool
    ensures { result ≡ Held.list_in n lists.now r }
{
    inside(room(lists.len()), r.first, r.count)
        && part_of(lists, r.first, r.count)
            .iter()
            .all(|item| item_in(n, item))
}

#[tactic(auto, unfolding(verdicts::specs::Held::maybe_list_in))]
pub fn maybe_list_in(n: usize, lists: &[[usize; 2]], m: Option<Items>) -> bool
    ensures { result ≡ Held.maybe_list_in n lists.now m }
{
    m.is_none_or(|r| list_in(n, lists, r))
}

// The parts of a path's information.
#[tactic(auto, unfolding(verdicts::specs::Held::result_in))]
fn path_info_in(n: usize, lists: &[[usize; 2]], p: &PathInfoResult) -> bool
    ensures { result ≡ Held.result_in n lists.now (PathInfo p.now) }
{
    maybe_in(n, p.deriver) && maybe_in(n, p.nar_hash) && maybe_list_in(n, lists, p.references)
}

// The parts of a result.
#[tactic(auto, unfolding(verdicts::specs::Held::result_in))]
pub fn result_in(n: usize, lists: &[[usize; 2]], r: &ResultData) -> bool
    ensures { result ≡ Held.result_in n lists.now r.now }
{
    match r {
        ResultData::Str(p) => place_in(n, *p),
        ResultData::PathInfo(p) => path_info_in(n, lists, p),
        ResultData::StringSet(l) => list_in(n, lists, *l),
        ResultData::Absent
        | ResultData::U64(_)
        | ResultData::StringMap
        | ResultData::None
        | ResultData::CollectGarbage { .. }
        | ResultData::SubstitutablePathInfo { .. }
        | ResultData::Missing { .. }
        | ResultData::Framed
        | ResultData::Raw => true,
    }
}

// Every part of a response lies inside its n bytes and its table of places.
#[tactic(auto, unfolding(verdicts::specs::Held::response_in))]
pub fn response_in(n: usize, lists: &[[usize; 2]], r: &DaemonResponse) -> bool
    ensures { result ≡ Held.response_in n lists.now r.now }
{
    place_in(n, r.terminal) && result_in(n, lists, &r.result) && maybe_in(n, r.error)
}

// Every part of the handshake's information.
#[tactic(auto, unfolding(verdicts::specs::Held::info_in))]
pub fn info_in(n: usize, lists: &[[usize; 2]], i: &HandshakeInfo) -> bool
    ensures { result ≡ Held.info_in n lists.now i.now }
{
    list_in(n, lists, i.client_features)
        && list_in(n, lists, i.server_features)
        && maybe_in(n, i.daemon_nix_version)
}
