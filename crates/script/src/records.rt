// The records of a script, as reading leaves them. A value that is a part of the text or of the store is a place; a list is a range of a table.
ghost use Rattle.std.specs.Prelude.{◌≡◌};
ghost use Rattle.script.specs.Refusals.{refusal};

use crate::refusals::Reason;
use version::ProtocolVersion;
use wire::ops::Op;

// A part of the text or of the store: where it starts and how many bytes it has. Empty or absent is 0 and 0.
#[derive(Clone, Copy)]
pub struct Place {
    pub start: usize,
    pub len: usize,
}

// A range of a table: the place of its first record and how many there are. Empty is 0 and 0.
#[derive(Clone, Copy)]
pub struct Items {
    pub first: usize,
    pub count: usize,
}

// How an expectation compares a value.
#[derive(Clone, Copy)]
pub enum Matcher {
    Exact(Place),
    Regex(Place),
    GreaterThan(i64),
    LessThan(i64),
    GreaterOrEqual(i64),
    LessOrEqual(i64),
}

// What an expectation is about.
#[derive(Clone, Copy)]
pub enum Expect {
    Terminal(Place),
    Result(Matcher),
    ResultField(Place, Matcher),
    Error(Matcher),
    StderrCount(Matcher),
    Daemon(Matcher),
    Trust(Matcher),
    ServerFeatures(Matcher),
}

// An expectation: its line, and what it expects.
#[derive(Clone, Copy)]
pub struct Expectation {
    pub line: usize,
    pub expect: Expect,
}

// Data: bytes of the store, or the name of a file, a part of the text.
#[derive(Clone, Copy)]
pub enum FramedData {
    Inline(Place),
    FileRef(Place),
}

// A timestamp: its sign, all its digits as one number, and how many of them are decimals. The sign is a field of its own, for `-0` has one too.
#[derive(Clone, Copy)]
pub struct Time {
    // The sign apart, since `-0` and `0` are two (the paper's record).
    pub negative: bool,
    pub digits: u64,
    pub decimals: i64,
}

// The arguments of SetOptions.
#[derive(Clone, Copy)]
pub struct Options {
    pub keep_failed: u64,
    pub keep_going: u64,
    pub try_fallback: u64,
    pub verbosity: u64,
    pub max_build_jobs: u64,
    pub max_silent_time: u64,
    pub use_build_hook: u64,
    pub verbose_build: u64,
    pub log_type: u64,
    pub print_build_trace: u64,
    pub build_cores: u64,
    pub use_substitutes: u64,
    pub overrides: Items,
}

// An operation with its arguments. Paths, names and values are parts of the text; unquoted and hex values are parts of the store.
#[derive(Clone, Copy)]
pub enum OpCall {
    SinglePath {
        op: Op,
        path: Place,
    },
    SingleString {
        op: Op,
        value: Place,
    },
    PathSet {
        op: Op,
        paths: Items,
    },
    PathSetFlag {
        op: Op,
        paths: Items,
        substitute: bool,
    },
    PathSetMode {
        op: Op,
        paths: Items,
        mode: Place,
    },
    NoArgs {
        op: Op,
    },
    SetOptions(Options),
    CollectGarbage {
        action: u64,
        paths: Items,
        ignore_liveness: u64,
        max_freed: u64,
    },
    VerifyStore {
        check_contents: bool,
        repair: bool,
    },
    AddPermRoot {
        path: Place,
        gc_root: Place,
    },
    AddSignatures {
        path: Place,
        sigs: Items,
    },
    AddTextToStore {
        suffix: Place,
        text: Place,
        refs: Items,
    },
    AddToStore {
        name: Place,
        cam_str: Place,
        refs: Items,
        repair: bool,
        data: FramedData,
    },
    AddMultipleToStore {
        repair: bool,
        dont_check_sigs: bool,
        data: FramedData,
    },
    AddBuildLog {
        path: Place,
        data: FramedData,
    },
    RegisterDrvOutput {
        value: Place,
    },
    QueryRealisation {
        value: Place,
    },
    QuerySubstitutablePathInfo {
        path: Place,
    },
    QuerySubstitutablePathInfos {
        paths: Items,
    },
    RawBytes {
        op: Op,
        data: Place,
    },
}

// An entry: the line that opens it, its timestamp, its operation, and its expectations in the table of expectations.
#[derive(Clone, Copy)]
pub struct Entry {
    pub line: usize,
    pub timestamp_ms: Option<Time>,
    pub op_call: OpCall,
    pub expects: Items,
}

#[derive(Clone, Copy)]
pub struct Preamble {
    pub protocol_version: ProtocolVersion,
    pub client_features: Items,
    pub expects: Items,
    pub daemon_version: Option<Place>,
    pub trust: Option<Place>,
    pub server_features: Option<Items>,
}

// How many records and bytes a script takes.
#[derive(Clone, Copy)]
pub struct Counts {
    pub entries: usize,
    pub items: usize,
    pub expectations: usize,
    pub store: usize,
}

#[derive(Clone, Copy)]
pub struct Script {
    pub preamble: Preamble,
    pub counts: Counts,
}

// A refusal: why, and the line.
#[derive(Clone, Copy, PartialEq, Eq)]
pub struct Refusal {
    pub reason: Reason,
    pub line: usize,
}

// A refusal that is of no line has line 0.
impl From<Reason> for Refusal {
    ghost from_gives = { λ reason r. r ≡ refusal reason 0 };

    fn from(reason: Reason) -> Refusal {
        Refusal { reason, line: 0 }
    }
}
