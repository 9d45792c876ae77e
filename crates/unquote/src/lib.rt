// Unquoting.
#![tactic(auto)]

ghost use Rattle.std.specs.Prelude.{◌≡◌, ◌<◌, length};
ghost use Rattle.text.specs.Base.{overlaid};
ghost use Rattle.values.specs.Unquote.{quoted, unescaped, unquoted};
ghost use Rattle.std.specs.Iterator.{YieldsFirst, item_count};
ghost use Rattle.unquote.specs.UnquoteWalk.{meant, escape_of, first_token, unescaped_left};

// A byte of the result, and how many bytes of the text it stands for.
#[derive(Clone, Copy)]
struct Token {
    byte: u8,
    size: usize,
}

// What a backslash and c become, or 0.
#[tactic(auto, unfolding(crate::specs::UnquoteWalk::meant))]
fn meaning(c: u8) -> u8
    ensures { result ≡ meant c }
{
    match c {
        b'n' => b'\n',
        b'r' => b'\r',
        b't' => b'\t',
        b'"' => b'"',
        _ => 0,
    }
}

// A backslash with y and z after it.
#[tactic(auto, unfolding(crate::specs::UnquoteWalk::escape_of))]
fn escape_of(y: u8, z: u8) -> Token
    ensures { result ≡ escape_of y z }
{
    let byte = meaning(y);
    if byte != 0 {
        Token { byte, size: 2 }
    } else if y == b'\\' && meaning(z) == 0 {
        Token {
            byte: b'\\',
            size: 2,
        }
    } else {
        Token {
            byte: b'\\',
            size: 1,
        }
    }
}

// The first token of the text. A plain byte costs one test.
#[tactic(auto, unfolding(crate::specs::UnquoteWalk::token_of, crate::specs::UnquoteWalk::first_token))]
fn first_token(s: &[u8]) -> Token
    requires { 0 < length s.now }
    ensures { result ≡ first_token s.now }
{
    match s[0] {
        b'\\' => escape_of(text::byte::byte_at(s, 1), text::byte::byte_at(s, 2)),
        byte => Token { byte, size: 1 },
    }
}

// The bytes of a text with its escapes undone.
#[derive(Drop)]
struct Unescaped<'a>(&'a [u8]);

impl<'a> Iterator for Unescaped<'a> {
    type Item = u8;

    ghost next_gives = { YieldsFirst unescaped_left };

    ghost remaining = { item_count unescaped_left };

    #[tactic(auto, using(crate::proofs::UnquoteLaws::none_left, crate::proofs::UnquoteLaws::token_fits, crate::proofs::UnquoteLaws::token_law))]
    fn next(&mut self) -> Option<u8> {
        if self.0.is_empty() {
            return None;
        }
        let token = first_token(self.0);
        self.0 = &self.0[token.size..];
        Some(token.byte)
    }
}

// How many bytes s has once its escapes are undone.
#[tactic(auto, using(crate::proofs::UnquoteLaws::unescaped_shorter))]
fn unescaped_len(s: &[u8]) -> usize
    ensures { result ≡ length (unescaped s.now) }
{
    Unescaped(s).count()
}

// Writes s with its escapes undone over all of out, which has exactly the room.
fn unescape(s: &[u8], out: &mut [u8])
    requires { length out.old ≡ length (unescaped s.now) }
    ensures { out.new ≡ unescaped s.now }
{
    for (o, byte) in Unescaped(s).enumerate() {
        out[o] = byte;
    }
}

// Whether s stands between two quotes.
#[tactic(auto, unfolding(values::specs::Unquote::quoted))]
fn is_quoted(s: &[u8]) -> bool
    ensures { result ≡ quoted s.now }
{
    matches!(s, [b'"', .., b'"'])
}

// How many bytes s has unquoted.
#[tactic(auto, using(crate::proofs::UnquoteLaws::quotes))]
pub fn unquoted_len(s: &[u8]) -> usize
    ensures { result ≡ length (unquoted s.now) }
{
    if is_quoted(s) {
        unescaped_len(&s[1..s.len() - 1])
    } else {
        s.len()
    }
}

// Writes s unquoted over all of out, which has exactly the room.
#[tactic(auto, using(crate::proofs::UnquoteLaws::quotes))]
fn unquote_fill(s: &[u8], out: &mut [u8])
    requires { length out.old ≡ length (unquoted s.now) }
    ensures { out.new ≡ unquoted s.now }
{
    if is_quoted(s) {
        unescape(&s[1..s.len() - 1], out);
    } else {
        // No `copy_from_slice`: that calls `memmove`, which no archive for C needs otherwise.
        blocks::copy(s, out);
    }
}

// Writes s unquoted at the front of out, if there is room for all of it, and says how many bytes that are.
#[tactic(auto, using(text::proofs::Front::fronts))]
pub fn unquote(s: &[u8], out: &mut [u8]) -> usize
    ensures value { result ≡ length (unquoted s.now) }
    ensures out_after { out.new ≡ overlaid (unquoted s.now) out.old }
{
    let n = unquoted_len(s);
    if out.len() < n {
        return n;
    }
    unquote_fill(s, &mut out[..n]);
    n
}
