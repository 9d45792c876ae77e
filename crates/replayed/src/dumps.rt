// Whether a dump of Read is the one that stands on a line.
ghost use Rattle.std.specs.Prelude.{◌≡◌, ◌^◌};
ghost use Rattle.text.proofs.WordLaws.{words_at};
ghost use Rattle.values.specs.Numbers.{number};
ghost use Rattle.replayed.specs.Dumps.{in_front, is_dump};

use fields::rest::Rest;

// Whether the number that a word spells is found in front.
#[tactic(auto, unfolding(crate::specs::Dumps::in_front))]
fn is_in_front(word: &[u8], found: &[u8]) -> bool
    ensures { result ≡ in_front (number (2 ^ 64) word.now) found.now }
{
    let Some(n) = values::number::parse_up_to(word, u64::MAX) else {
        return false;
    };
    let bytes = numbers::bytes::bytes_of(n);
    text::parts::starts_with(found, &bytes)
}

// Whether the numbers on the rest of a line are found, one after another, and behind them the bytes of the store.
#[tactic(auto, using(crate::proofs::DumpLaws::eight))]
pub fn is_dump(rest: Rest<'_>, store: &[u8], found: &[u8]) -> bool
    ensures { result ≡ is_dump rest.entry.line.now (words_at rest.entry.line.now rest.entry.at) store.now found.now }
{
    let mut left = rest;
    let mut bytes = found;
    // No `for`: where the next word begins is found with the word.
    loop {
        let (word, next) = left.word();
        if word.is_empty() {
            return text::parts::same(bytes, store);
        }
        if !is_in_front(word, bytes) {
            return false;
        }
        bytes = &bytes[8..];
        left = next;
    }
}
