// Hex.
#![tactic(auto)]

ghost use Rattle.std.specs.Prelude.{◌≡◌, length};
ghost use Rattle.text.specs.Base.{overlaid};
ghost use Rattle.values.specs.Hex.{hex_value, hex_decoded};
ghost use Rattle.hexadecimal.specs.HexWalk.{HexTable, on_other, hex_step};

// The hex value of each byte, or 16 where it has none.
const HEX: [u8; 256] = [
    // 00 to 2F
    16, 16, 16, 16, 16, 16, 16, 16, 16, 16, 16, 16, 16, 16, 16, 16, 16, 16, 16, 16, 16, 16, 16, 16,
    16, 16, 16, 16, 16, 16, 16, 16, 16, 16, 16, 16, 16, 16, 16, 16, 16, 16, 16, 16, 16, 16, 16, 16,
    // 30 to 39: the digits
    0, 1, 2, 3, 4, 5, 6, 7, 8, 9,
    // 3A to 40
    16, 16, 16, 16, 16, 16, 16,
    // 41 to 46: capital letters
    10, 11, 12, 13, 14, 15,
    // 47 to 60
    16, 16, 16, 16, 16, 16, 16, 16, 16, 16, 16, 16, 16, 16, 16, 16, 16, 16, 16, 16, 16, 16, 16, 16,
    16, 16,
    // 61 to 66: small letters
    10, 11, 12, 13, 14, 15,
    // 67 to FF
    16, // g
    16, 16, 16, 16, 16, 16, 16, 16, 16, 16, 16, 16, 16, 16, 16, 16, 16, 16, 16, 16, 16, 16, 16, 16,
    16, 16, 16, 16, 16, 16, 16, 16, 16, 16, 16, 16, 16, 16, 16, 16, 16, 16, 16, 16, 16, 16, 16, 16,
    16, 16, 16, 16, 16, 16, 16, 16, 16, 16, 16, 16, 16, 16, 16, 16, 16, 16, 16, 16, 16, 16, 16, 16,
    16, 16, 16, 16, 16, 16, 16, 16, 16, 16, 16, 16, 16, 16, 16, 16, 16, 16, 16, 16, 16, 16, 16, 16,
    16, 16, 16, 16, 16, 16, 16, 16, 16, 16, 16, 16, 16, 16, 16, 16, 16, 16, 16, 16, 16, 16, 16, 16,
    16, 16, 16, 16, 16, 16, 16, 16, 16, 16, 16, 16, 16, 16, 16, 16, 16, 16, 16, 16, 16, 16, 16, 16,
    16, 16, 16, 16, 16, 16, 16, 16,
];

// What a byte of the text comes to: this is held of a pair, or this byte is made of one.
// Held is the value of the first, `+` counting as 0; 16 for a first that makes no byte; 17 for none. It is a usize, for an enum
// of two bytes is packed into one register at each step.
#[derive(Clone, Copy)]
enum HexStep {
    Held(usize),
    Byte(u8),
}

// The table, whose rule is tested once, for all who use it. It is lent, for a constant is laid out anew by each function that names it.
#[derive(Clone, Copy)]
struct HexDigits {
    table: [u8; 256],
    ghost rule: { HexTable table },
}

// A byte that is no hex digit.
#[tactic(auto, unfolding(crate::specs::HexWalk::on_other))]
fn on_other(held: usize, x: u8) -> HexStep
    ensures { result ≡ on_other held x }
{
    if x == 0x20 {
        return HexStep::Held(held);
    }
    if text::byte::in_range(0x80, 0xBF, x) {
        return HexStep::Held(held);
    }
    if held == 17 {
        if x == 0x2B {
            return HexStep::Held(0);
        }
        return HexStep::Held(16);
    }
    HexStep::Held(17)
}

impl HexDigits {
    fn new() -> HexDigits {
        HexDigits { table: HEX }
    }

    // One byte of the walk.
    fn step(&self, held: usize, x: u8) -> HexStep
        ensures { result ≡ hex_step held x }
    {
        let v = self.table[x as usize];
        if v < 16 {
            if held < 16 {
                return HexStep::Byte((held as u8) * 16 + v);
            }
            if held == 17 {
                return HexStep::Held(v as usize);
            }
            return HexStep::Held(17);
        }
        on_other(held, x)
    }

    // How many bytes s spells.
    fn count(&self, s: &[u8]) -> usize
        ensures { result ≡ length (hex_decoded s.now) }
    {
        let mut held: usize = 17;
        let mut n: usize = 0;
        for x in s {
            match self.step(held, *x) {
                HexStep::Held(h) => held = h,
                HexStep::Byte(_) => {
                    held = 17;
                    n += 1;
                }
            }
        }
        n
    }

    // Writes the bytes over all of out, which has exactly the room.
    fn fill(&self, s: &[u8], out: &mut [u8])
        requires { length out.old ≡ length (hex_decoded s.now) }
        ensures { out.new ≡ hex_decoded s.now }
    {
        let mut held: usize = 17;
        let mut o: usize = 0;
        for x in s {
            match self.step(held, *x) {
                HexStep::Held(h) => held = h,
                HexStep::Byte(b) => {
                    out[o] = b;
                    held = 17;
                    o += 1;
                }
            }
        }
    }
}

pub fn hex_value(x: u8) -> u8
    ensures { result ≡ hex_value x }
{
    HexDigits::new().table[x as usize]
}

pub fn hex_len(s: &[u8]) -> usize
    ensures { result ≡ length (hex_decoded s.now) }
{
    HexDigits::new().count(s)
}

// Writes the bytes that s spells at the front of out, if there is room for all, and says how many they are.
#[tactic(auto, using(text::proofs::Front::fronts))]
pub fn hex_decode(s: &[u8], out: &mut [u8]) -> usize
    ensures value { result ≡ length (hex_decoded s.now) }
    ensures out_after { out.new ≡ overlaid (hex_decoded s.now) out.old }
{
    let digits = HexDigits::new();
    let n = digits.count(s);
    if out.len() < n {
        return n;
    }
    digits.fill(s, &mut out[..n]);
    n
}
