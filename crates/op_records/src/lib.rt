// The record of an entry's operation, from its line, from what was said below it, and from how many items and bytes that takes.
#![tactic(auto)]

ghost use Rattle.std.specs.Prelude.{◌≡◌};
ghost use Rattle.script.specs.Operations.{form_of};
ghost use Rattle.script.specs.Contents.{rest_of};
ghost use Rattle.said.specs.Said.{said_of};
ghost use Rattle.records.specs.Records.{root_record, record_of};

use matchers::matchers::place_of;
use option_records::{garbage_call, options_of, verify_call};
use pieces::pieces::Piece;
use records::calls::{Share, framed_of, placed, range_of};
use said::said::Operation;
use script::records::OpCall;
use store_records::{multiple_call, store_call, texts_call};
use wire::ops::Op;

// What stands behind a path set, trimmed; the piece itself where its brace is not closed.
#[tactic(auto, using(crate::proofs::RestLaws::rest_open))]
fn rest_of<'a>(p: Piece<'a>) -> Piece<'a>
    ensures text { result.text ≡ p.entry.text }
    ensures at { result.at ≡ rest_of p.entry.text.now p.entry.at }
{
    let q = p.trimmed();
    if !q.starts_with(b"{") {
        return q.behind(q.at.end - q.at.start).trimmed();
    }
    match q.behind(1).split_once(b'}') {
        None => p,
        Some((_, rest)) => rest.trimmed(),
    }
}

// Two paths, cut at the first blank.
#[tactic(auto, unfolding(records::specs::Records::root_record))]
fn root_call(args: Piece<'_>) -> OpCall
    ensures { result ≡ root_record args.entry.text.now args.entry.at }
{
    let (path, gc_root) = args.cut_or(b' ');
    OpCall::AddPermRoot {
        path: place_of(path.at),
        gc_root: place_of(gc_root.at),
    }
}

// The record of an entry's operation.
#[tactic(auto, using(text::proofs::LiteralLaws::spells_as), unfolding(script::specs::Operations::form_of, script::specs::Pieces::is, records::specs::Records::record_of))]
pub fn call_of(operation: Operation<'_>, share: Share) -> OpCall
    ensures { result ≡ record_of operation.entry.said.text.now (form_of operation.entry.opening.op).shape operation.entry.opening.op operation.entry.opening.args (said_of operation.entry.said.heard.now) share.items_before share.bytes_before share.sizes }
{
    let op = operation.opening.op;
    let args = operation.args();
    let said = operation.said;
    let b = share.bytes_before;
    let z = share.sizes;
    let path = place_of(args.at);
    let items = range_of(share.items_before, z.items);
    match op {
        Op::AddToStore => store_call(said, share),
        Op::AddTextToStore => texts_call(share),
        Op::SetOptions => OpCall::SetOptions(options_of(said, items)),
        Op::CollectGarbage => garbage_call(said, items),
        Op::VerifyStore => verify_call(said),
        Op::AddMultipleToStore => multiple_call(said, b, z.first),
        Op::AddBuildLog => OpCall::AddBuildLog {
            path,
            data: framed_of(said, b, z.first),
        },
        Op::BuildDerivation | Op::AddToStoreNar => OpCall::RawBytes {
            op,
            data: placed(b, z.first),
        },
        Op::BuildPaths | Op::BuildPathsWithResults => OpCall::PathSetMode {
            op,
            paths: items,
            mode: place_of(rest_of(args).at),
        },
        Op::QueryValidPaths => OpCall::PathSetFlag {
            op,
            paths: items,
            substitute: rest_of(args).is_word(b"substitute"),
        },
        Op::QuerySubstitutablePaths | Op::QueryMissing => OpCall::PathSet { op, paths: items },
        Op::QuerySubstitutablePathInfos => OpCall::QuerySubstitutablePathInfos { paths: items },
        Op::AddSignatures => OpCall::AddSignatures {
            path: place_of(args.cut_or(b' ').0.at),
            sigs: items,
        },
        Op::AddPermRoot => root_call(args),
        Op::AddIndirectRoot | Op::QueryPathFromHashPart => OpCall::SingleString { op, value: path },
        Op::SyncWithGC | Op::FindRoots | Op::QueryAllValidPaths | Op::OptimiseStore =>
            OpCall::NoArgs { op },
        Op::QuerySubstitutablePathInfo => OpCall::QuerySubstitutablePathInfo { path },
        Op::RegisterDrvOutput => OpCall::RegisterDrvOutput { value: path },
        Op::QueryRealisation => OpCall::QueryRealisation { value: path },
        _ => OpCall::SinglePath { op, path },
    }
}
