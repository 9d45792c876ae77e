// What each line of a text is. These are the words in which the definition of reading speaks and in which the code answers; a piece of the text is a span.
ghost use Rattle.std.specs.Prelude.{◌≡◌};
ghost use Rattle.script.specs.Roles.{refused};

use crate::records::{Expect, Options, Time};
use crate::refusals::Reason;
use text::parts::Span;
use wire::ops::Op;

// The keys of argument lines, and of the preamble's lines, by number.
#[derive(Clone, Copy)]
pub enum Key {
    KeepFailed = 1,
    KeepGoing = 2,
    TryFallback = 3,
    Verbosity = 4,
    MaxBuildJobs = 5,
    MaxSilentTime = 6,
    UseBuildHook = 7,
    VerboseBuild = 8,
    LogType = 9,
    PrintBuildTrace = 10,
    BuildCores = 11,
    UseSubstitutes = 12,
    Overrides = 13,
    Action = 14,
    Paths = 15,
    IgnoreLiveness = 16,
    MaxFreed = 17,
    CheckContents = 18,
    Repair = 19,
    Suffix = 20,
    Text = 21,
    Refs = 22,
    Name = 23,
    CamStr = 24,
    Data = 25,
    DontCheckSigs = 26,
    Raw = 32,
    Protocol = 27,
    Features = 28,
    DaemonVersion = 29,
    TrustStatus = 30,
    ServerFeatures = 31,
}

// Which lines below an operation are its arguments: none; lines with the keys of one of the six keyword operations; lines up to the first with the key
// `data`; lines up to the first that begins with `raw x"`.
#[derive(Clone, Copy, PartialEq, Eq)]
pub enum Takes {
    NoLines,
    Options,
    Garbage,
    Verify,
    Texts,
    Store,
    Multiple,
    FirstData,
    FirstRaw,
}

// Where a line stands: above the `---` line; below it with no entry open; right below an operation that takes such lines, with an override list open or
// not; below the argument lines of an entry.
#[derive(Clone, Copy, PartialEq, Eq)]
pub enum Where {
    InPreamble,
    Outside,
    InBlock(Takes, bool),
    InEntry,
}

// What an argument line says, or a line of the preamble that is kept: the value of a known key; a pair of an override list. Or it does nothing: it has no
// colon; its key is unknown to the operation; it stands in an override list and is no pair; it stands where `raw x"` is due and is something else.
#[derive(Clone, Copy)]
pub enum Saying {
    Known(Key, Span),
    Pair(Span, Span),
    NoColon,
    Unknown(Span, Span),
    NoPair,
    NoRaw,
}

// The line that opens an entry: its timestamp, its operation, and what stands behind the operation's name. The order is for speed: a step is copied for
// every line, and by words where a role begins and ends with a whole word.
#[derive(Clone, Copy)]
pub struct Opening {
    pub args: Span,
    pub op: Op,
    pub stamp: Option<Time>,
}

// A line that opens an entry, as far as its timestamp: that, if it has one, and what follows it.
#[derive(Clone, Copy)]
pub struct Stamped {
    pub stamp: Option<Time>,
    pub rest: Span,
}

// Why a line is refused. The reason stands behind no words, and so where a word may begin, as all else does that a role holds: a role then begins with a
// whole word.
#[derive(Clone, Copy)]
pub struct Refused {
    pub words: [u64; 0],
    pub reason: Reason,
}

// What a line is: nothing that is kept; something said; an expectation; an opening line; refused.
#[derive(Clone, Copy)]
pub enum Role {
    Nothing,
    Says(Saying),
    Expects(Expect),
    Opens(Opening),
    Bad(Refused),
}

impl Role {
    // What a refused line is.
    #[inline(always)]
    pub fn refused(reason: Reason) -> Role
        ensures { result ≡ refused reason }
    {
        Role::Bad(Refused { words: [], reason })
    }
}

// What a line is, and where the next one stands.
#[derive(Clone, Copy)]
pub struct Step {
    pub role: Role,
    pub next: Where,
}
