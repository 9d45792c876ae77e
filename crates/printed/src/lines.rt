// The lines of a listing, written.
ghost use Rattle.std.specs.Prelude.{◌≡◌, ◌+◌, ◌≤◌};
ghost use Rattle.written.specs.Writing.{Room, wrote};
ghost use Rattle.printed.specs.Listing.{version_words, header_line, entry_line, refusal_line};
ghost use Rattle.printed.specs.Room.{version_room, header_room, line_room, refusal_room};

use call_ops::op_of;
use decimals::decimal::{put_after, put_decimal};
use script::records::{Entry, Refusal, Script};
use version::ProtocolVersion;
use wire::ops::Op;
use written::Writer;

// Writes `version` and the two numbers of a version.
fn put_version(v: ProtocolVersion, w: &mut Writer<u8>)
    requires { Room version_room w.old }
    ensures written { w.new ≡ wrote (version_words v) w.old }
    ensures upper_bound { w.new.at ≤ w.old.at + version_room }
{
    put_after(b"version ", v.major as u64, w);
    put_after(b".", v.minor as u64, w);
}

// Writes the first line.
pub fn put_header(s: Script, w: &mut Writer<u8>)
    requires count_le_expectations { s.preamble.expects.count ≤ s.counts.expectations }
    requires header_room { Room header_room w.old }
    ensures written { w.new ≡ wrote (header_line s) w.old }
    ensures upper_bound { w.new.at ≤ w.old.at + header_room }
{
    let handshake = s.preamble.expects.count;
    put_version(s.preamble.protocol_version, w);
    put_after(b" handshake ", handshake as u64, w);
    put_after(b" entries ", s.counts.entries as u64, w);
    put_after(b" expects ", (s.counts.expectations - handshake) as u64, w);
    w.put_one(b'\n');
}

// Writes the line of an entry.
#[tactic(auto, using(crate::proofs::PutLaws::code_room, crate::proofs::PutLaws::count_room, crate::proofs::PutLaws::entry_end, crate::proofs::PutLaws::entry_put))]
pub fn put_entry_line(e: Entry, w: &mut Writer<u8>)
    requires { Room line_room w.old }
    ensures written { w.new ≡ wrote (entry_line e) w.old }
    ensures upper_bound { w.new.at ≤ w.old.at + line_room }
{
    put_decimal(e.line as u64, w);
    put_after(b" ", Op::code(op_of(e.op_call)), w);
    put_after(b" ", e.expects.count as u64, w);
    w.put_one(b'\n');
}

// Writes the line of a refusal.
#[tactic(auto, using(crate::proofs::PutLaws::place_room, crate::proofs::PutLaws::refusal_end, crate::proofs::PutLaws::refusal_put))]
pub fn put_refusal(q: Refusal, w: &mut Writer<u8>)
    requires { Room refusal_room w.old }
    ensures written { w.new ≡ wrote (refusal_line q) w.old }
    ensures upper_bound { w.new.at ≤ w.old.at + refusal_room }
{
    put_after(b"refused ", q.reason.number(), w);
    put_after(b" line ", q.line as u64, w);
    w.put_one(b'\n');
}
