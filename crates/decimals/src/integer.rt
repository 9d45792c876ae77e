// Numbers with a sign, in decimal digits.
ghost use Rattle.std.specs.Prelude.{◌≡◌, ◌≤◌, nat_abs, length};
ghost use Rattle.written.specs.Writing.{Room, wrote};
ghost use Rattle.verdicts.specs.Messages.{integer};
ghost use Rattle.writing.specs.Room.{integer_room};

use crate::decimal::{decimal_len, put_decimal};
use written::Writer;

// How many bytes a number has, its sign among them.
#[tactic(auto, using(crate::proofs::SignedLaws::minus_length, crate::proofs::SignedLaws::plain_length))]
pub fn integer_len(n: i64) -> usize
    ensures value { result ≡ length (integer n) }
    ensures upper_bound { result ≤ integer_room }
{
    let digits = decimal_len(n.unsigned_abs());
    if n < 0 { digits + 1 } else { digits }
}

pub fn put_integer(n: i64, w: &mut Writer<u8>)
    requires { Room (length (integer n)) w.old }
    ensures { w.new ≡ wrote (integer n) w.old }
{
    if n < 0 {
        w.put_one(b'-');
    }
    put_decimal(n.unsigned_abs(), w);
}
