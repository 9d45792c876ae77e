// What a host in Rust or C calls, with numbers and byte slices. No logic of its own, and no `requires`: any bytes may come.
#![tactic(auto)]

ghost use Rattle.std.specs.Prelude.{◌^◌, ◌≡◌, length, unwrap_or};
ghost use Rattle.std.specs.Option.{is_some};
ghost use Rattle.text.specs.Base.{overlaid};
ghost use Rattle.text.specs.Utf8.{well_formed};
ghost use Rattle.text.specs.Trim.{trim_place};
ghost use Rattle.text.specs.Lines.{lines, trimmed_length};
ghost use Rattle.values.specs.Numbers.{number, signed};
ghost use Rattle.values.specs.Hex.{hex_decoded};
ghost use Rattle.values.specs.Unquote.{unquoted};
ghost use Rattle.script.specs.Reading.{measured};
ghost use Rattle.verdicts.specs.Decisions.{decides};
ghost use Rattle.verdicts.specs.Expected.{exact, regex};
ghost use Rattle.verdicts.specs.Verdicts.{code};
ghost use Rattle.orders.specs.Orders.{matching, order_of};
ghost use Rattle.exports.specs.Answered.{refused_as, line_of, counts_or};
ghost use Rattle.dump.specs.Dump.{read_dump};
ghost use Rattle.dump.specs.Times.{last_number};

pub mod message_exports;

use script::records::Counts;

// Whether the bytes are well-formed UTF-8.
#[unsafe(no_mangle)]
pub extern "C" fn nwscript_utf8(s: &[u8]) -> bool
    ensures { result ≡ well_formed s.now }
{
    utf8::well_formed(s)
}

// Where the text stands once its White_Space is off both ends.
#[unsafe(no_mangle)]
pub extern "C" fn nwscript_trim(s: &[u8], start: &mut usize, len: &mut usize)
    ensures start_after { start.new ≡ (trim_place s.now).start }
    ensures len_after { len.new ≡ (trim_place s.now).len }
{
    given::give_place(trimming::trim_place(s), start, len)
}

// How many lines the text has.
#[unsafe(no_mangle)]
pub extern "C" fn nwscript_count_lines(text: &[u8]) -> usize
    ensures { result ≡ length (lines text.now) }
{
    lines::lines::count_lines(text)
}

// How many bytes the lines have once each is trimmed.
#[unsafe(no_mangle)]
pub extern "C" fn nwscript_trimmed_bytes(text: &[u8]) -> usize
    ensures { result ≡ trimmed_length text.now (lines text.now) }
{
    lines::lines::trimmed_bytes(text)
}

// How many bytes s spells in hex.
#[unsafe(no_mangle)]
pub extern "C" fn nwscript_hex_len(s: &[u8]) -> usize
    ensures { result ≡ length (hex_decoded s.now) }
{
    hexadecimal::hex_len(s)
}

// The bytes that s spells in hex, at the front of out if there is room; how many they are.
#[unsafe(no_mangle)]
pub extern "C" fn nwscript_hex(s: &[u8], out: &mut [u8]) -> usize
    ensures value { result ≡ length (hex_decoded s.now) }
    ensures out_after { out.new ≡ overlaid (hex_decoded s.now) out.old }
{
    hexadecimal::hex_decode(s, out)
}

// How many bytes s has unquoted.
#[unsafe(no_mangle)]
pub extern "C" fn nwscript_unquoted_len(s: &[u8]) -> usize
    ensures { result ≡ length (unquoted s.now) }
{
    unquote::unquoted_len(s)
}

// s unquoted, at the front of out if there is room; how many bytes that are.
#[unsafe(no_mangle)]
pub extern "C" fn nwscript_unquote(s: &[u8], out: &mut [u8]) -> usize
    ensures value { result ≡ length (unquoted s.now) }
    ensures out_after { out.new ≡ overlaid (unquoted s.now) out.old }
{
    unquote::unquote(s, out)
}

// A u64, a u16, a u8 as Rust's `parse` reads them: whether it could be read; value is left alone if not.
#[unsafe(no_mangle)]
pub extern "C" fn nwscript_u64(s: &[u8], value: &mut u64) -> bool
    ensures value { result ≡ is_some (number (2 ^ 64) s.now) }
    ensures value_after { value.new ≡ unwrap_or (number (2 ^ 64) s.now) value.old }
{
    given::give(values::number::parse_up_to(s, u64::MAX), value)
}

#[unsafe(no_mangle)]
pub extern "C" fn nwscript_u16(s: &[u8], value: &mut u64) -> bool
    ensures value { result ≡ is_some (number (2 ^ 16) s.now) }
    ensures value_after { value.new ≡ unwrap_or (number (2 ^ 16) s.now) value.old }
{
    given::give(values::number::parse_up_to(s, u16::MAX as u64), value)
}

#[unsafe(no_mangle)]
pub extern "C" fn nwscript_u8(s: &[u8], value: &mut u64) -> bool
    ensures value { result ≡ is_some (number (2 ^ 8) s.now) }
    ensures value_after { value.new ≡ unwrap_or (number (2 ^ 8) s.now) value.old }
{
    given::give(values::number::parse_up_to(s, u8::MAX as u64), value)
}

// An i64, in the same manner.
#[unsafe(no_mangle)]
pub extern "C" fn nwscript_i64(s: &[u8], value: &mut i64) -> bool
    ensures value { result ≡ is_some (signed s.now) }
    ensures value_after { value.new ≡ unwrap_or (signed s.now) value.old }
{
    given::give(values::number::parse_i64(s), value)
}

// Measure: the number of the refusal, or 0. What is lent takes the refusal's line, or 0, and the counts, which are 0 where the text is refused.
#[tactic(auto, unfolding(crate::specs::Answered::refused_as, crate::specs::Answered::line_of, crate::specs::Answered::counts_or, measuring::specs::Measure::zeros))]
#[unsafe(no_mangle)]
pub extern "C" fn nwscript_measure(
    text: &[u8],
    line: &mut usize,
    entries: &mut usize,
    items: &mut usize,
    expectations: &mut usize,
    store: &mut usize,
) -> u64
    ensures value { result ≡ refused_as (measured text.now) }
    ensures line_after { line.new ≡ line_of (measured text.now) }
    ensures entries_after { entries.new ≡ (counts_or (measured text.now)).entries }
    ensures after { items.new ≡ (counts_or (measured text.now)).items }
    ensures expectations_after { expectations.new ≡ (counts_or (measured text.now)).expectations }
    ensures store_after { store.new ≡ (counts_or (measured text.now)).store }
{
    match parse::measure::measure(text) {
        Err(r) => {
            *line = r.line;
            *entries = 0;
            *items = 0;
            *expectations = 0;
            *store = 0;
            r.reason.number()
        }
        Ok(c) => {
            *line = 0;
            *entries = c.entries;
            *items = c.items;
            *expectations = c.expectations;
            *store = c.store;
            0
        }
    }
}

// Read into blank tables of its own, of which so many records and bytes are lent (at most 256 entries, 1,024 items, 1,024 expectations, 32,768
// bytes of the store): the dump, at the front of out if there is room; how many bytes it has.
#[unsafe(no_mangle)]
pub extern "C" fn nwscript_read(
    text: &[u8],
    entries: usize,
    items: usize,
    expectations: usize,
    store: usize,
    out: &mut [u8],
) -> usize
    ensures value { result ≡ length (read_dump text.now entries items expectations store) }
    ensures out_after { out.new ≡ overlaid (read_dump text.now entries items expectations store) out.old }
{
    let lent = Counts {
        entries,
        items,
        expectations,
        store,
    };
    dump::dumps::dump_read(text, lent, out)
}

// Read so many times into tables of 4,096 entries, 16,384 items, 4,096 expectations and 32,768 bytes of the store: the number of the last
// refusal, or 0.
#[unsafe(no_mangle)]
pub extern "C" fn nwscript_read_times(text: &[u8], times: u64) -> u64
    ensures { result ≡ last_number text.now times }
{
    dump::times::read_times(text, times)
}

// What an exact matcher decides of a value: the verdict's number.
#[unsafe(no_mangle)]
pub extern "C" fn nwscript_exact(text: &[u8], value: &[u8]) -> u8
    ensures { result ≡ code (decides (exact text.now) value.now) }
{
    decisions::hosted::exact(text, value)
}

// And a pattern.
#[unsafe(no_mangle)]
pub extern "C" fn nwscript_pattern(pattern: &[u8], value: &[u8]) -> u8
    ensures { result ≡ code (decides (regex pattern.now) value.now) }
{
    decisions::hosted::pattern(pattern, value)
}

// And an ordering matcher with the number n; the kinds 1 to 4 are `>`, `<`, `>=`, `<=`, and any other reads as `<=`: through C a kind comes as a number.
#[unsafe(no_mangle)]
pub extern "C" fn nwscript_ordering(kind: u8, n: i64, value: &[u8]) -> u8
    ensures { result ≡ code (decides (matching (order_of kind) n) value.now) }
{
    decisions::hosted::ordering(kind, n, value)
}
