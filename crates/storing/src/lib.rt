// Values that stand in the store.
#![tactic(auto)]

ghost use Rattle.std.specs.Prelude.{◌≡◌, length, Some};
ghost use Rattle.script.specs.Contents.{unquoted_of, hex_of, data_of};
ghost use Rattle.script.specs.Layout.{stored_of};
ghost use Rattle.script.specs.Values.{plain_rules};
ghost use Rattle.written.specs.Writing.{Room, wrote};

use pieces::pieces::Piece;
use written::Writer;

// Writes a value that is unquoted, and says how many bytes that are.
#[tactic(auto, using(crate::proofs::ValueLaws::unquoted_is))]
pub fn put_unquoted(v: Piece<'_>, store: &mut Writer<u8>) -> usize
    requires { Room (length (unquoted_of plain_rules v.text.now (Some v.at))) store.old }
    ensures value { result ≡ length (unquoted_of plain_rules v.entry.text.now (Some v.entry.at)) }
    ensures store_after { store.new ≡ wrote (unquoted_of plain_rules v.entry.text.now (Some v.entry.at)) store.old }
{
    let bytes = v.bytes();
    store.put_by(|rest| unquote::unquote(bytes, rest))
}

// Writes the bytes of what follows `x"`. Quotes at its end are no hex digits, so they write nothing.
#[tactic(auto, using(crate::proofs::ValueLaws::hex_is))]
pub fn put_hex(v: Piece<'_>, store: &mut Writer<u8>) -> usize
    requires { Room (length (hex_of plain_rules v.text.now (Some v.at))) store.old }
    ensures value { result ≡ length (hex_of plain_rules v.entry.text.now (Some v.entry.at)) }
    ensures store_after { store.new ≡ wrote (hex_of plain_rules v.entry.text.now (Some v.entry.at)) store.old }
{
    let bytes = v.bytes();
    store.put_by(|rest| hexadecimal::hex_decode(bytes, rest))
}

// Writes the bytes of data; a file's name does not stand in the store.
#[tactic(auto, using(written::proofs::WriterLaws::room_as, written::proofs::WriterLaws::wrote_as, written::proofs::WriterLaws::none_wrote, crate::proofs::ValueLaws::data_hex, crate::proofs::ValueLaws::data_none))]
pub fn put_data(v: Piece<'_>, store: &mut Writer<u8>) -> usize
    requires { Room (length (stored_of (data_of plain_rules v.text.now (Some v.at)))) store.old }
    ensures value { result ≡ length (stored_of (data_of plain_rules v.entry.text.now (Some v.entry.at))) }
    ensures store_after { store.new ≡ wrote (stored_of (data_of plain_rules v.entry.text.now (Some v.entry.at))) store.old }
{
    if v.starts_with(b"x\"") {
        return put_hex(v.behind(2), store);
    }
    0
}
