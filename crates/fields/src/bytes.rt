// Fields that are bytes in hex.
ghost use Rattle.std.specs.Prelude.{◌≡◌, ◌≤◌, length};
ghost use Rattle.fields.specs.Fields.{hex_for, bytes_in, byte_count};

// Bytes in hex and nothing else, written at the front of the room lent: how many they are. Decoding passes over what is no
// pair of digits, so the lengths are compared.
#[tactic(auto, using(crate::proofs::FieldLaws::no_longer, crate::proofs::FieldLaws::too_long, crate::proofs::FieldLaws::other_length, crate::proofs::FieldLaws::is_hex))]
pub fn decode(hex: &[u8], room: &mut [u8]) -> Option<usize>
    ensures result_after { bytes_in room.new result ≡ hex_for (length room.old) hex.now }
    ensures result_in_bounds { byte_count result ≤ length room.new }
{
    let n = hexadecimal::hex_decode(hex, room);
    if room.len() < n {
        return None;
    }
    if hex.len() - n != n {
        return None;
    }
    Some(n)
}
