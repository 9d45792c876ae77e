// Runs published Unicode data through crate `text` and says what was found. Standard input has a case a line: `white` and the code point of a White_Space
// character, `good` and `bad` with bytes that are and are not well-formed UTF-8, all in hex. Then every code point is tried: its encoding is accepted
// exactly if it is a scalar value, and trimmed away exactly if it was among the `white` ones.
#![tactic(auto)]

ghost use Rattle.std.specs.Prelude.{◌+◌, ◌≤◌, length};

use lines::lines::Lines;
use std::io;

// What a line of the input came to.
#[derive(Clone, Copy)]
enum Case {
    White(u32),
    Good(bool),
    Bad(bool),
    Other,
}

#[derive(Clone, Copy)]
struct Tally {
    white: usize,
    good: usize,
    bad: usize,
    wrong: usize,
}

// The number that three bytes spell, or one that is no code point.
fn code_point(s: &[u8]) -> u32 {
    match s {
        [a, b, c] => u32::from_be_bytes([0, *a, *b, *c]),
        _ => 0xFFFF_FFFF,
    }
}

// A case by its word and its bytes.
fn case_of(word: &[u8], bytes: &[u8]) -> Case {
    if text::parts::same(word, b"white") {
        return Case::White(code_point(bytes));
    }
    if text::parts::same(word, b"good") {
        return Case::Good(utf8::well_formed(bytes));
    }
    if text::parts::same(word, b"bad") {
        return Case::Bad(!utf8::well_formed(bytes));
    }
    Case::Other
}

// A case by its word and its bytes in hex, which are decoded into the room lent.
fn case_in(word: &[u8], hex: &[u8], room: &mut [u8]) -> Case {
    let n = hexadecimal::hex_decode(hex, room);
    if room.len() < n {
        return Case::Other;
    }
    case_of(word, &room[..n])
}

// A line: a word, and bytes in hex.
#[tactic(auto, using(text::proofs::WordLaws::word_places))]
fn case_on(line: &[u8]) -> Case {
    let w = words::word_at(line, 0);
    let start = w.start;
    let end = w.end;
    let v = words::word_at(line, end);
    let from = v.start;
    let to = v.end;
    let mut bytes = [0u8; 16];
    case_in(&line[start..end], &line[from..to], &mut bytes)
}

impl Tally {
    // With one case more. The counts are small: a case takes a line of the input.
    fn with(mut self, c: Case) -> Tally
        requires { self.white + self.good + self.bad + self.wrong ≤ 65536 }
        ensures { result.white + result.good + result.bad + result.wrong ≤ self.white + self.good + self.bad + self.wrong + 1 }
    {
        match c {
            Case::White(_) => self.white += 1,
            Case::Good(true) => self.good += 1,
            Case::Bad(true) => self.bad += 1,
            Case::Good(false) | Case::Bad(false) => self.wrong += 1,
            Case::Other => {}
        }
        self
    }
}

// Keeps the code point of a `white` case, if there is room. By a place, and no `Writer`: the tally counts the places, and `put_one` would ask for room.
fn keep(codes: &mut [u32], at: usize, c: Case) {
    if let Case::White(code) = c
        && let Some(slot) = codes.get_mut(at)
    {
        *slot = code;
    }
}

// The cases of the input, and the code points of the `white` ones.
fn read_cases(input: &[u8], codes: &mut [u32]) -> Tally
    requires { length input.now ≤ 65536 }
{
    let mut tally = Tally {
        white: 0,
        good: 0,
        bad: 0,
        wrong: 0,
    };
    for line in Lines::new(input) {
        let c = case_on(&input[line.start..line.end]);
        keep(codes, tally.white, c);
        tally = tally.with(c);
    }
    tally
}

// The encoding of a code point (The Unicode Standard, table 3-6).
#[derive(Clone, Copy)]
struct Encoding {
    bytes: [u8; 4],
    len: usize,
}

// The lowest byte. An `as` alone is proved to lose nothing, and these sums are below 256 only where the number is a code point.
fn low(x: u32) -> u8 {
    (x % 256) as u8
}

fn encode(c: u32) -> Encoding {
    let last = low(0x80 + c % 0x40);
    if c < 0x80 {
        return Encoding {
            bytes: [low(c), 0, 0, 0],
            len: 1,
        };
    }
    if c < 0x800 {
        return Encoding {
            bytes: [low(0xC0 + c / 0x40), last, 0, 0],
            len: 2,
        };
    }
    let third = low(0x80 + c / 0x40 % 0x40);
    if c < 0x1_0000 {
        return Encoding {
            bytes: [low(0xE0 + c / 0x1000), third, last, 0],
            len: 3,
        };
    }
    Encoding {
        bytes: [
            low(0xF0 + c / 0x4_0000),
            low(0x80 + c / 0x1000 % 0x40),
            third,
            last,
        ],
        len: 4,
    }
}

fn listed(codes: &[u32], c: u32) -> bool {
    codes.iter().any(|code| *code == c)
}

// Whether an encoding is taken as it should be: a surrogate's is no UTF-8, any other is, and it is trimmed away just if it is White_Space.
fn taken_right(room: &[u8], len: usize, surrogate: bool, white: bool) -> bool {
    if room.len() < len {
        return false;
    }
    let bytes = &room[..len];
    if surrogate {
        return !utf8::well_formed(bytes);
    }
    if utf8::well_formed(bytes) {
        let left = trimming::trim(bytes);
        if white {
            return left.len() == 0;
        }
        return left.len() == bytes.len();
    }
    false
}

fn code_right(codes: &[u32], c: u32) -> bool {
    let e = encode(c);
    let bytes = e.bytes;
    let len = e.len;
    let surrogate = 0xD800 <= c && c <= 0xDFFF;
    taken_right(&bytes, len, surrogate, listed(codes, c))
}

// How many code points are not taken as they should be.
fn codes_wrong(codes: &[u32]) -> usize {
    (0..0x11_0000u32).filter(|c| !code_right(codes, *c)).count()
}

fn say(rt: &impl Print, words: &[u8], n: u64) -> io::Result<()> {
    rt.write_all(words)?;
    rt.print(n)
}

fn main(rt: HostRuntime) -> io::Result<()> {
    let mut input = [0u8; 65536];
    let n = inputs::read_full(&mut rt.stdin(), &mut input)?;
    let mut codes = [0xFFFF_FFFFu32; 32];
    let tally = read_cases(&input[..n], &mut codes);
    say(&rt, b"white space ", tally.white as u64)?;
    say(&rt, b"\ngood ", tally.good as u64)?;
    say(&rt, b"\nbad ", tally.bad as u64)?;
    say(&rt, b"\nwrong ", tally.wrong as u64)?;
    say(&rt, b"\ncode points wrong ", codes_wrong(&codes) as u64)?;
    rt.write_all(b"\n")
}
