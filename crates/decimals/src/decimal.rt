// Numbers in decimal digits, and words with a number behind them.
ghost use Rattle.std.specs.Prelude.{◌≡◌, ◌++◌, ◌+◌, ◌≤◌, length};
ghost use Rattle.written.specs.Writing.{Room, wrote};
ghost use Rattle.values.specs.Decimal.{decimal};
ghost use Rattle.writing.specs.Room.{number_room};

use written::Writer;

// How many digits a number has.
#[tactic(auto, using(crate::proofs::CountLaws::digits_counted, crate::proofs::CountLaws::digits_most))]
pub fn decimal_len(n: u64) -> usize
    ensures value { result ≡ length (decimal n) }
    ensures upper_bound { result ≤ number_room }
{
    n.checked_ilog10().unwrap_or(0) as usize + 1
}

// Writes a number. Crate `itoa` takes twice as long on one digit, as most numbers here have (measured; on nineteen it takes a quarter).
#[tactic(auto, using(crate::proofs::PutLaws::small_room, crate::proofs::PutLaws::small_wrote, crate::proofs::PutLaws::tenth_room, crate::proofs::PutLaws::last_room, crate::proofs::PutLaws::last_wrote, crate::proofs::PutLaws::most_digits))]
pub fn put_decimal(n: u64, w: &mut Writer<u8>)
    requires { Room (length (decimal n)) w.old }
    ensures written { w.new ≡ wrote (decimal n) w.old }
    ensures upper_bound { w.new.at ≤ w.old.at + number_room }
{
    if n < 10 {
        w.put_one(b'0' + n as u8);
        return;
    }
    put_decimal(n / 10, w);
    w.put_one(b'0' + (n % 10) as u8);
}

// Writes a word and a number behind it.
#[tactic(auto, using(crate::proofs::PutLaws::after_room, crate::proofs::PutLaws::after_wrote, crate::proofs::PutLaws::after_most))]
pub fn put_after(word: &[u8], n: u64, w: &mut Writer<u8>)
    requires { Room (length word.now + number_room) w.old }
    ensures written { w.new ≡ wrote (word.now ++ decimal n) w.old }
    ensures upper_bound { w.new.at ≤ w.old.at + (length word.now + number_room) }
{
    w.put(word);
    put_decimal(n, w);
}
