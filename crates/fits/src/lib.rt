// Whether the tables that are lent are long enough.
#![tactic(auto)]

ghost use Rattle.std.specs.Prelude.{◌≡◌};
ghost use Rattle.script.specs.Reading as Reading;
ghost use Rattle.script.specs.Refusals.{ok_unless};
ghost use Rattle.fits.specs.Fits.{shortage};

use script::records::{Counts, Refusal};
use script::refusals::Reason;

// Only the first 32,768 records of a table count.
#[tactic(auto, unfolding(script::specs::Reading::room))]
pub fn room(n: usize) -> usize
    ensures { result ≡ Reading.room n }
{
    if n < 0x8000 {
        return n;
    }
    0x8000
}

// 21: too few entries; 22: too few items; 23: too few expectations; 24: too few bytes of the store.
#[tactic(auto, using(crate::proofs::FitLaws::short_laws))]
pub fn room_for(needed: Counts, lent: Counts) -> Result<(), Refusal>
    ensures { result ≡ ok_unless (shortage lent needed) }
{
    if room(lent.entries) < needed.entries {
        return Err(Refusal::from(Reason::FewEntries));
    }
    if room(lent.items) < needed.items {
        return Err(Refusal::from(Reason::FewItems));
    }
    if room(lent.expectations) < needed.expectations {
        return Err(Refusal::from(Reason::FewExpectations));
    }
    if lent.store < needed.store {
        return Err(Refusal::from(Reason::FewStoreBytes));
    }
    Ok(())
}

// What the caller lends: four lengths, which no one type holds that a `From` could take.
pub fn lent_of(entries: usize, items: usize, expectations: usize, store: usize) -> Counts
    ensures { result ≡ record { entries = entries; items = items; expectations = expectations; store = store } }
{
    Counts {
        entries,
        items,
        expectations,
        store,
    }
}
