// What is written from a place on, all else as it was, and its laws: reading writes its tables so, and the judge its verdicts and messages.
#![tactic(auto)]

ghost use Rattle.std.specs.Prelude.{◌≡◌, ◌+◌, ◌≤◌, [], ◌∷◌, length};
ghost use Rattle.text.specs.Base.{overlaid};
ghost use Rattle.written.specs.Writing.{writer, Room, wrote, before, Overlays};

// A lent slice, and the place in it where the next element goes.
#[derive(Drop)]
pub struct Writer<'a, T> {
    out: &'a mut [T],
    at: usize,
}

impl<'a, T: Copy> Writer<'a, T> {
    // From the slice's start on.
    pub fn new(out: &'a mut [T]) -> Writer<'a, T>
        ensures { result ≡ writer out.entry }
    {
        Writer { out, at: 0 }
    }

    pub fn position(&self) -> usize
        ensures { result ≡ self.now.at }
    {
        self.at
    }

    #[tactic(auto, using(crate::proofs::WriterLaws::wrote_one))]
    pub fn put_one(&mut self, x: T)
        requires { Room 1 self.old }
        ensures { self.new ≡ wrote (x ∷ []) self.old }
    {
        self.out[self.at] = x;
        self.at += 1;
    }
}

impl Writer<'_, u8> {
    #[tactic(auto, using(crate::proofs::WriterLaws::wrote_word))]
    pub fn put(&mut self, word: &[u8])
        requires { Room (length word.now) self.old }
        ensures { self.new ≡ wrote word.now self.old }
    {
        let end = self.at + word.len();
        blocks::copy(word, &mut self.out[self.at..end]);
        self.at = end;
    }

    // What f writes at the front of the bytes before the writer; it says how many they are.
    pub fn put_by<F: FnOnce(&mut [u8]) -> usize>(&mut self, f: F) -> usize
        requires callable { F.IsAlwaysCallable f }
        requires fits { (xs : _) × Overlays F.FnOnce f (before self.old) xs × Room (length xs) self.old }
        ensures { (xs : _) → Overlays F.FnOnce f (before self.old) xs → (result ≡ length xs) × (self.new ≡ wrote xs self.old) }
    {
        let n = f(&mut self.out[self.at..]);
        self.at += n;
        n
    }
}

// Writes bytes at the front of out, if there is room for all of them, and says how many they are.
#[tactic(auto, using(crate::proofs::WrittenLaws::front_short, crate::proofs::WrittenLaws::front_copied))]
pub fn put_front(bytes: &[u8], out: &mut [u8]) -> usize
    ensures value { result ≡ length bytes.now }
    ensures out_after { out.new ≡ overlaid bytes.now out.old }
{
    let n = bytes.len();
    if n <= out.len() {
        blocks::copy(bytes, &mut out[..n]);
    }
    n
}
