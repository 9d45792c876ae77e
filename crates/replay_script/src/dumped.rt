// A line of the sample, behind the word `read`: how many entries, items, expectations and bytes of the store are lent; the text; what stands in the store once it is read; all numbers of the dump.
ghost use Rattle.std.specs.Prelude.{◌≡◌};
ghost use Rattle.replay_script.specs.Dumped.{leaves, agreed};

use fields::rest::Rest;
use replayed::dumps::is_dump;
use script::records::Counts;

// Reads the text, and compares what Read leaves with the line.
fn is_left(rest: Rest<'_>, lent: Counts, text: &[u8], store: &[u8]) -> bool
    ensures { result ≡ leaves rest.entry.line.now rest.entry.at lent text.now store.now }
{
    let mut found = [0u8; 8192];
    let n = dump::dumps::dump_read(text, lent, &mut found);
    if 8192 < n {
        return false;
    }
    is_dump(rest, store, &found[..n])
}

// Whether Read leaves what the rest of a line says.
#[tactic(auto, unfolding(crate::specs::Dumped::agreed, crate::specs::Dumped::text_agreed, crate::specs::Dumped::store_agreed, fields::specs::Fields::after))]
pub fn agrees(rest: Rest<'_>) -> bool
    ensures { result ≡ agreed rest.entry.line.now rest.entry.at }
{
    let mut sizes = [0u64; 4];
    let Some(rest) = rest.numbers(&mut sizes) else {
        return false;
    };
    let lent = Counts {
        entries: sizes[0] as usize,
        items: sizes[1] as usize,
        expectations: sizes[2] as usize,
        store: sizes[3] as usize,
    };
    let mut text_room = [0u8; 1024];
    let Some((text, rest)) = rest.bytes(&mut text_room) else {
        return false;
    };
    let mut store_room = [0u8; 1024];
    let Some((store, rest)) = rest.bytes(&mut store_room) else {
        return false;
    };
    is_left(rest, lent, &text_room[..text], &store_room[..store])
}
