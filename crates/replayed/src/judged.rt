// Whether Message said what stands on a line, which has 39 numbers: 0 for the handshake or another for an entry, the verdict's number, the rows of the
// expectation and of what it is judged against, and a table of places.
ghost use Rattle.std.specs.Prelude.{◌≡◌};
ghost use Rattle.replayed.specs.Told.{of_handshake, table_of, written_as};

use script::records::Refusal;
use told::Told;

pub fn of_handshake(n: [u64; 39]) -> bool
    ensures { result ≡ of_handshake n }
{
    n[0] == 0
}

// The table of places.
#[tactic(auto, unfolding(crate::specs::Told::table_of))]
pub fn table_of(n: [u64; 39]) -> [[usize; 2]; 6]
    ensures { result ≡ table_of n }
{
    [
        [n[27] as usize, n[28] as usize],
        [n[29] as usize, n[30] as usize],
        [n[31] as usize, n[32] as usize],
        [n[33] as usize, n[34] as usize],
        [n[35] as usize, n[36] as usize],
        [n[37] as usize, n[38] as usize],
    ]
}

// Whether Message answered with this verdict, and left this message.
#[tactic(auto, unfolding(crate::specs::Told::written_as))]
pub fn is_told(t: Result<Told, Refusal>, verdict: u64, left: &[u8], message: &[u8]) -> bool
    ensures { result ≡ written_as t verdict left.now message.now }
{
    let Ok(told) = t else {
        return false;
    };
    if left.len() < told.len {
        return false;
    }
    if u8::from(told.verdict) as u64 != verdict {
        return false;
    }
    text::parts::same(&left[..told.len], message)
}
