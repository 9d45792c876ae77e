// ops.rs of the Rust: the operations of the worker protocol, their codes and their names.
ghost use Rattle.std.specs.Prelude.{◌≡◌, length, Some};
ghost use Rattle.text.specs.Base.{overlaid};
ghost use Rattle.text.specs.Literal.{spells};
ghost use Rattle.text.proofs.LiteralLaws.{codes};
ghost use Rattle.wire.specs.Operations.{operation, operations, named, coded};
ghost use Rattle.wire.specs.OperationTables.{Hints};

#[derive(Clone, Copy, PartialEq, Eq)]
pub enum Op {
    IsValidPath = 1,
    QueryReferrers = 6,
    AddToStore = 7,
    AddTextToStore = 8,
    BuildPaths = 9,
    EnsurePath = 10,
    AddTempRoot = 11,
    AddIndirectRoot = 12,
    SyncWithGC = 13,
    FindRoots = 14,
    QueryDeriver = 18,
    SetOptions = 19,
    CollectGarbage = 20,
    QuerySubstitutablePathInfo = 21,
    QueryDerivationOutputs = 22,
    QueryAllValidPaths = 23,
    QueryPathInfo = 26,
    QueryDerivationOutputNames = 28,
    QueryPathFromHashPart = 29,
    QuerySubstitutablePathInfos = 30,
    QueryValidPaths = 31,
    QuerySubstitutablePaths = 32,
    QueryValidDerivers = 33,
    OptimiseStore = 34,
    VerifyStore = 35,
    BuildDerivation = 36,
    AddSignatures = 37,
    NarFromPath = 38,
    AddToStoreNar = 39,
    QueryMissing = 40,
    QueryDerivationOutputMap = 41,
    RegisterDrvOutput = 42,
    QueryRealisation = 43,
    AddMultipleToStore = 44,
    AddBuildLog = 45,
    BuildPathsWithResults = 46,
    AddPermRoot = 47,
}

// By the sum of `hint`, the only operation whose name comes to it.
const HINTS: [Option<Op>; 71] = [
    None,
    None,
    None,
    Some(Op::QueryDeriver),
    Some(Op::QueryMissing),
    None,
    Some(Op::AddTextToStore),
    None,
    Some(Op::QueryValidPaths),
    Some(Op::AddSignatures),
    None,
    Some(Op::QueryValidDerivers),
    None,
    Some(Op::QueryDerivationOutputs),
    Some(Op::BuildPaths),
    Some(Op::QueryDerivationOutputMap),
    None,
    Some(Op::QueryDerivationOutputNames),
    Some(Op::AddPermRoot),
    Some(Op::RegisterDrvOutput),
    None,
    None,
    None,
    None,
    None,
    Some(Op::BuildPathsWithResults),
    None,
    None,
    Some(Op::CollectGarbage),
    Some(Op::QueryPathInfo),
    None,
    Some(Op::SetOptions),
    Some(Op::FindRoots),
    None,
    None,
    None,
    None,
    Some(Op::QueryPathFromHashPart),
    Some(Op::AddIndirectRoot),
    None,
    None,
    None,
    Some(Op::AddMultipleToStore),
    None,
    None,
    Some(Op::NarFromPath),
    Some(Op::QueryReferrers),
    None,
    Some(Op::QueryRealisation),
    None,
    None,
    Some(Op::IsValidPath),
    None,
    Some(Op::VerifyStore),
    Some(Op::SyncWithGC),
    None,
    Some(Op::QueryAllValidPaths),
    Some(Op::AddTempRoot),
    Some(Op::EnsurePath),
    None,
    Some(Op::AddBuildLog),
    Some(Op::AddToStore),
    None,
    Some(Op::QuerySubstitutablePaths),
    Some(Op::AddToStoreNar),
    Some(Op::BuildDerivation),
    Some(Op::QuerySubstitutablePathInfo),
    Some(Op::QuerySubstitutablePathInfos),
    None,
    Some(Op::OptimiseStore),
    None,
];

// The table, tested here, once for all who use it.
fn hints() -> [Option<Op>; 71]
    ensures { Hints result }
{
    HINTS
}

// The only operation that can have the name s: no two of the 37 names come to the same sum. A table and no match on the names, since the proof of such a
// match has a goal for each byte of each name, a thousand in all.
fn hint(s: &[u8]) -> Option<Op>
    ensures { (op : Op) → named s.now ≡ Some op → result ≡ Some op }
{
    if s.len() < 6 {
        return None;
    }
    let sum = s.len() + 2 * (s[3] as usize) + 8 * (s[5] as usize);
    let hints = hints();
    hints[sum % 71]
}

impl Op {
    // By the protocol each operation has a code of its own.
    #[tactic(auto, unfolding(crate::specs::Operations::operation))]
    pub fn code(op: Op) -> u64
        ensures { result ≡ (operation op).code }
    {
        op as u64
    }

    // The Rust's `from_u64`.
    #[tactic(auto, using(crate::proofs::OperationLaws::coded_as), unfolding(crate::specs::Operations::operation, crate::specs::Operations::coded, crate::specs::Operations::first))]
    pub fn from_code(code: u64) -> Option<Op>
        ensures { result ≡ coded code }
    {
        Some(match code {
            1 => Op::IsValidPath,
            6 => Op::QueryReferrers,
            7 => Op::AddToStore,
            8 => Op::AddTextToStore,
            9 => Op::BuildPaths,
            10 => Op::EnsurePath,
            11 => Op::AddTempRoot,
            12 => Op::AddIndirectRoot,
            13 => Op::SyncWithGC,
            14 => Op::FindRoots,
            18 => Op::QueryDeriver,
            19 => Op::SetOptions,
            20 => Op::CollectGarbage,
            21 => Op::QuerySubstitutablePathInfo,
            22 => Op::QueryDerivationOutputs,
            23 => Op::QueryAllValidPaths,
            26 => Op::QueryPathInfo,
            28 => Op::QueryDerivationOutputNames,
            29 => Op::QueryPathFromHashPart,
            30 => Op::QuerySubstitutablePathInfos,
            31 => Op::QueryValidPaths,
            32 => Op::QuerySubstitutablePaths,
            33 => Op::QueryValidDerivers,
            34 => Op::OptimiseStore,
            35 => Op::VerifyStore,
            36 => Op::BuildDerivation,
            37 => Op::AddSignatures,
            38 => Op::NarFromPath,
            39 => Op::AddToStoreNar,
            40 => Op::QueryMissing,
            41 => Op::QueryDerivationOutputMap,
            42 => Op::RegisterDrvOutput,
            43 => Op::QueryRealisation,
            44 => Op::AddMultipleToStore,
            45 => Op::AddBuildLog,
            46 => Op::BuildPathsWithResults,
            47 => Op::AddPermRoot,
            _ => return None,
        })
    }

    // The Rust's name of it.
    fn letters(self) -> &'static [u8]
        ensures { result.now ≡ codes (operation self).name }
    {
        match self {
            Op::IsValidPath => b"IsValidPath",
            Op::QueryReferrers => b"QueryReferrers",
            Op::AddToStore => b"AddToStore",
            Op::AddTextToStore => b"AddTextToStore",
            Op::BuildPaths => b"BuildPaths",
            Op::EnsurePath => b"EnsurePath",
            Op::AddTempRoot => b"AddTempRoot",
            Op::AddIndirectRoot => b"AddIndirectRoot",
            Op::SyncWithGC => b"SyncWithGC",
            Op::FindRoots => b"FindRoots",
            Op::QueryDeriver => b"QueryDeriver",
            Op::SetOptions => b"SetOptions",
            Op::CollectGarbage => b"CollectGarbage",
            Op::QuerySubstitutablePathInfo => b"QuerySubstitutablePathInfo",
            Op::QueryDerivationOutputs => b"QueryDerivationOutputs",
            Op::QueryAllValidPaths => b"QueryAllValidPaths",
            Op::QueryPathInfo => b"QueryPathInfo",
            Op::QueryDerivationOutputNames => b"QueryDerivationOutputNames",
            Op::QueryPathFromHashPart => b"QueryPathFromHashPart",
            Op::QuerySubstitutablePathInfos => b"QuerySubstitutablePathInfos",
            Op::QueryValidPaths => b"QueryValidPaths",
            Op::QuerySubstitutablePaths => b"QuerySubstitutablePaths",
            Op::QueryValidDerivers => b"QueryValidDerivers",
            Op::OptimiseStore => b"OptimiseStore",
            Op::VerifyStore => b"VerifyStore",
            Op::BuildDerivation => b"BuildDerivation",
            Op::AddSignatures => b"AddSignatures",
            Op::NarFromPath => b"NarFromPath",
            Op::AddToStoreNar => b"AddToStoreNar",
            Op::QueryMissing => b"QueryMissing",
            Op::QueryDerivationOutputMap => b"QueryDerivationOutputMap",
            Op::RegisterDrvOutput => b"RegisterDrvOutput",
            Op::QueryRealisation => b"QueryRealisation",
            Op::AddMultipleToStore => b"AddMultipleToStore",
            Op::AddBuildLog => b"AddBuildLog",
            Op::BuildPathsWithResults => b"BuildPathsWithResults",
            Op::AddPermRoot => b"AddPermRoot",
        }
    }

    // Writes the name at the front of out, if there is room for all of it, and says how long it is.
    pub fn name(self, out: &mut [u8]) -> usize
        ensures value { result ≡ length (codes (operation self).name) }
        ensures out_after { out.new ≡ overlaid (codes (operation self).name) out.old }
    {
        written::put_front(self.letters(), out)
    }

    // Whether s is the name.
    #[tactic(auto, using(text::proofs::LiteralLaws::spells_as))]
    pub fn is_named(self, s: &[u8]) -> bool
        ensures { result ≡ spells (operation self).name s.now }
    {
        text::parts::same(s, self.letters())
    }

    // One operation can have the name, and one comparison tells whether it has.
    pub fn from_name(s: &[u8]) -> Option<Op>
        ensures { result ≡ named s.now }
    {
        let op = hint(s)?;
        op.is_named(s).then_some(op)
    }
}
