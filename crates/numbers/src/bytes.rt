// Numbers in 8 bytes each, the lowest first.
ghost use Rattle.std.specs.Prelude.{◌≡◌, length};
ghost use Rattle.written.specs.Writing.{Room, wrote};
ghost use Rattle.numbers.specs.Numbers as Numbers;
ghost use Rattle.numbers.specs.Numbers.{bytes_of, in_bytes};

use written::Writer;

// An i64 by its two's complement.
#[tactic(auto, using(crate::proofs::SignedLaws::twos))]
pub fn unsigned(v: i64) -> u64
    ensures { result ≡ Numbers.unsigned v }
{
    v.cast_unsigned()
}

pub fn bytes_of(n: u64) -> [u8; 8]
    ensures { result ≡ bytes_of n }
{
    n.to_le_bytes()
}

// Writes the numbers.
#[tactic(auto, using(written::proofs::WriterLaws::each_none, written::proofs::WriterLaws::each_room, written::proofs::WriterLaws::each_wrote))]
pub fn put_numbers(numbers: &[u64], w: &mut Writer<u8>)
    requires { Room (length (in_bytes numbers.now)) w.old }
    ensures { w.new ≡ wrote (in_bytes numbers.now) w.old }
{
    for n in numbers {
        w.put(&bytes_of(*n));
    }
}
