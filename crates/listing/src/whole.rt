// A whole listing. Functions here hold a slice of entries.
ghost use Rattle.std.specs.Prelude.{◌≡◌, ◌++◌, ◌+◌, ◌*◌, ◌≤◌, length, take};
ghost use Rattle.text.specs.Base.{overlaid};
ghost use Rattle.written.specs.Written.{written_at};
ghost use Rattle.written.specs.Writing.{Room, wrote};
ghost use Rattle.printed.specs.Listing.{header_line, entry_lines, refusal_line, listing_of};
ghost use Rattle.printed.specs.Room.{header_room, line_room, refusal_room, Front};

use blanks::{blank_entry, blank_expectation};
use printed::lines::{put_entry_line, put_header, put_refusal};
use script::records::{Entry, Refusal, Script};
use written::Writer;

// Writes the lines of the entries.
pub fn list_entries(entries: &[Entry], w: &mut Writer<u8>)
    requires { Room (length entries.now * line_room) w.old }
    ensures written { w.new ≡ wrote (entry_lines entries.now) w.old }
    ensures upper_bound { w.new.at ≤ w.old.at + length entries.now * line_room }
{
    for entry in entries {
        put_entry_line(*entry, w);
    }
}

// Writes the listing of a script whose entries stand at the front of the table.
pub fn list_script(s: Script, entries: &[Entry], out: &mut [u8]) -> usize
    requires count_le_expectations { s.preamble.expects.count ≤ s.counts.expectations }
    requires entries_in_bounds { s.counts.entries ≤ length entries.now }
    requires line_room_in_bounds { header_room + s.counts.entries * line_room ≤ length out.old }
    ensures value { result ≡ length (header_line s ++ entry_lines (take s.counts.entries entries.now)) }
    ensures out_after { out.new ≡ written_at 0 (header_line s ++ entry_lines (take s.counts.entries entries.now)) out.old }
{
    let mut w = Writer::new(out);
    put_header(s, &mut w);
    list_entries(&entries[..s.counts.entries], &mut w);
    w.position()
}

// Writes the listing of a text that is refused.
fn list_refusal(q: Refusal, out: &mut [u8]) -> usize
    requires { refusal_room ≤ length out.old }
    ensures value { result ≡ length (refusal_line q) }
    ensures out_after { out.new ≡ written_at 0 (refusal_line q) out.old }
{
    let mut w = Writer::new(out);
    put_refusal(q, &mut w);
    w.position()
}

// Writes what is printed for a text, and says how many bytes that are. There is room for all of it: 256 entries, and numbers of the machine.
pub fn list(text: &[u8], out: &mut [u8; 16384]) -> usize
    ensures value { result ≡ length (listing_of text.now) }
    ensures out_after { out.new ≡ overlaid (listing_of text.now) out.old }
    ensures front { Front result out.new }
{
    let mut entries = [blank_entry(); 256];
    let mut items = [[0usize; 2]; 1024];
    let mut expectations = [blank_expectation(); 1024];
    let mut store = [0u8; 32768];
    let answer = read::reading::read(
        text,
        &mut entries,
        &mut items,
        &mut expectations,
        &mut store,
    );
    match answer {
        Err(q) => list_refusal(q, out),
        Ok(s) => list_script(s, &entries, out),
    }
}
