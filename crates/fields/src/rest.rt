// What is left of a line: its words, those that spell numbers, and those that spell bytes in hex.
ghost use Rattle.std.specs.Prelude.{◌≡◌, ◌≤◌, length, take, option_map, IfSome};
ghost use Rattle.text.specs.Words.{word_at};
ghost use Rattle.fields.specs.Fields.{field, word_bytes, number_at, integer_at, numbers_at, bytes_at};

// A line from a place on.
#[derive(Clone, Copy)]
pub struct Rest<'a> {
    pub line: &'a [u8],
    pub at: usize,
    pub ghost inside: { at ≤ length line.now },
}

impl<'a> Rest<'a> {
    // The first word, which has no bytes where there is none, and what follows it.
    #[tactic(auto, using(text::proofs::WordLaws::word_places))]
    pub fn word(self) -> (&'a [u8], Rest<'a>)
        ensures bytes { result.0.now ≡ word_bytes self.entry.line.now (word_at self.entry.line.now self.entry.at) }
        ensures line { result.1.line ≡ self.entry.line }
        ensures at { result.1.at ≡ (word_at self.entry.line.now self.entry.at).end }
    {
        let w = words::word_at(self.line, self.at);
        let rest = Rest {
            line: self.line,
            at: w.end,
        };
        (&self.line[w.start..w.end], rest)
    }

    // The number that the first word spells.
    #[tactic(auto, using(crate::proofs::FieldLaws::number_is, crate::proofs::FieldLaws::no_number))]
    pub fn number(self) -> Option<(u64, Rest<'a>)>
        ensures value { option_map (λ f. field f.0 f.1.at) result ≡ number_at self.entry.line.now self.entry.at }
        ensures line { IfSome result (λ f. f.1.line ≡ self.entry.line) }
    {
        let (word, rest) = self.word();
        let n = values::number::parse_up_to(word, u64::MAX)?;
        Some((n, rest))
    }

    // And one with a sign.
    #[tactic(auto, using(crate::proofs::FieldLaws::integer_is, crate::proofs::FieldLaws::no_integer))]
    pub fn integer(self) -> Option<(i64, Rest<'a>)>
        ensures value { option_map (λ f. field f.0 f.1.at) result ≡ integer_at self.entry.line.now self.entry.at }
        ensures line { IfSome result (λ f. f.1.line ≡ self.entry.line) }
    {
        let (word, rest) = self.word();
        let n = values::number::parse_i64(word)?;
        Some((n, rest))
    }

    // As many numbers as are lent, one after another.
    #[tactic(auto, using(crate::proofs::FieldLaws::begun, crate::proofs::FieldLaws::none_next, crate::proofs::FieldLaws::one_filled, crate::proofs::FieldLaws::all_filled))]
    pub fn numbers(self, out: &mut [u64]) -> Option<Rest<'a>>
        ensures value { option_map (λ r. field out.new r.at) result ≡ numbers_at (length out.old) self.entry.line.now self.entry.at }
        ensures line { IfSome result (λ r. r.line ≡ self.entry.line) }
    {
        let mut rest = self;
        for number in out.iter_mut() {
            let (n, next) = rest.number()?;
            *number = n;
            rest = next;
        }
        Some(rest)
    }

    // The bytes that the first word spells, behind an `x`, so that no bytes are a word too; at the front of the room lent: how many they are.
    #[tactic(auto, using(crate::proofs::FieldLaws::no_word, crate::proofs::FieldLaws::unmarked, crate::proofs::FieldLaws::no_bytes, crate::proofs::FieldLaws::bytes_are))]
    pub fn bytes(self, room: &mut [u8]) -> Option<(usize, Rest<'a>)>
        ensures value { option_map (λ f. field (take f.0 room.new) f.1.at) result ≡ bytes_at (length room.old) self.entry.line.now self.entry.at }
        ensures line { IfSome result (λ f. f.1.line ≡ self.entry.line) }
        ensures count { IfSome result (λ f. f.0 ≤ length room.new) }
    {
        let (word, rest) = self.word();
        let (mark, hex) = word.split_first()?;
        if *mark != b'x' {
            return None;
        }
        let n = crate::bytes::decode(hex, room)?;
        Some((n, rest))
    }
}
