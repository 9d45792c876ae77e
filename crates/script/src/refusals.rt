// Why something is refused, by the numbers of document 01, "What each operation may refuse".
ghost use Rattle.std.specs.Prelude.{◌≡◌};
ghost use Rattle.script.specs.Refusals.{reason_number};

#[derive(Clone, Copy, PartialEq, Eq)]
pub enum Reason {
    TextTooLong = 1,
    NotUtf8 = 2,
    UnexpectedPreambleLine = 3,
    UnknownExpectation = 4,
    MatcherNumberUnreadable = 5,
    TimestampWithoutMs = 6,
    NoF64 = 7, // to Rust
    NotCarried = 8, // an f64 to Rust
    UnknownOperation = 9,
    BraceNotClosed = 10,
    DataUnknown = 11, // neither `x"` nor `@file:`
    FewEntries = 21,
    FewItems = 22,
    FewExpectations = 23,
    FewStoreBytes = 24,
    ExpectationOutside = 31, // or part of it
    PartOutside = 32, // of the response or the handshake's information
    WrongNumber = 33,
    ValueTooLong = 34,
    FewSlots = 35,
    CountTooHigh = 36,
    NotAllJudged = 37,
    MessageTooLong = 38,
}

impl Reason {
    // The number of document 01.
    #[tactic(auto, unfolding(crate::specs::Refusals::reason_number))]
    pub fn number(self) -> u64
        ensures { result ≡ reason_number self }
    {
        self as u64
    }
}
