// Words copied many bytes at a time. Bytes go through an array of their own: for all the compiler knows, what is written may be read next, and it would test
// that at each word. `copy_from_slice` takes longer on words of 3 to 60 bytes (measured: 1.1 to 1.6 times as long).
// All three ask and promise what `copy_from_slice` does; a struct of the two slices would be made for each call only to say it.
#![tactic(auto)]

ghost use Rattle.std.specs.Prelude.{◌≡◌, ◌+◌, ◌*◌, ◌≤◌, length};
ghost use Rattle.text.specs.Base.{part};

// The N bytes from i on. By the place, which its callers count: a slice from there would be cut again for its N bytes.
fn block_at<const N: usize>(s: &[u8], i: usize) -> [u8; N]
    requires { i + N ≤ length s.now }
    ensures { result ≡ part s.now i N }
{
    let mut bytes = [0u8; N];
    bytes.copy_from_slice(&s[i..i + N]);
    bytes
}

// Copies a word of N to 2 N bytes: its first N and its last N, which may overlap.
fn copy_ends<const N: usize>(word: &[u8], out: &mut [u8])
    requires in_bounds { N ≤ length word.now }
    requires word_len_bound { length word.now ≤ 2 * N }
    requires same_length { length out.old ≡ length word.now }
    ensures { out.new ≡ word.now }
{
    let last = word.len() - N;
    out[..N].copy_from_slice(&block_at::<N>(word, 0));
    out[last..].copy_from_slice(&block_at::<N>(word, last));
}

// Copies a word of any length from 16 on. Its last sixteen bytes may overlap those before.
// By an index: nothing is known of the elements that `chunks_exact_mut` lends once it ends.
fn copy_blocks(word: &[u8], out: &mut [u8])
    requires in_bounds { 16 ≤ length word.now }
    requires same_length { length out.old ≡ length word.now }
    ensures { out.new ≡ word.now }
{
    let last = word.len() - 16;
    let mut i: usize = 0;
    while i < last {
        out[i..i + 16].copy_from_slice(&block_at::<16>(word, i));
        i += 16;
    }
    out[last..].copy_from_slice(&block_at::<16>(word, last));
}

// Copies a word, many bytes at a time where it has as many. One of 32 to 64 bytes, as a store path has, takes no loop.
pub fn copy(word: &[u8], out: &mut [u8])
    requires { length out.old ≡ length word.now }
    ensures { out.new ≡ word.now }
{
    match word.len() {
        0..8 => {
            for (i, byte) in word.iter().enumerate() {
                out[i] = *byte;
            }
        }
        8..16 => copy_ends::<8>(word, out),
        32..=64 => copy_ends::<32>(word, out),
        _ => copy_blocks(word, out),
    }
}
