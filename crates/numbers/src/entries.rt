// The numbers of an entry.
ghost use Rattle.std.specs.Prelude.{◌≡◌, ◌<◌, get_or};
ghost use Rattle.numbers.specs.Numbers.{stamp_numbers, call_numbers, entry_head};

use crate::bytes::unsigned;
use call_fields::{
    data_fields, few, flag, items_fields, options_fields, pair_fields, place_fields, range_fields,
    store_fields, text_fields,
};
use script::records::{Entry, OpCall, Time};
use wire::ops::Op;

#[tactic(auto, using(crate::proofs::NumberLaws::stamp_by, crate::proofs::NumberLaws::stamp_at), unfolding(crate::specs::Numbers::stamp_numbers))]
fn stamp_numbers(s: Option<Time>) -> [u64; 4]
    ensures { result ≡ stamp_numbers s }
{
    match s {
        None => [0, 0, 0, 0],
        Some(t) => [1, flag(t.negative), t.digits, unsigned(t.decimals)],
    }
}

// The numbers of the kinds from the tenth on.
fn later_numbers(c: OpCall) -> [u64; 16]
    requires { 9 < get_or (call_numbers c) 0 0 }
    ensures { result ≡ call_numbers c }
{
    match c {
        OpCall::AddPermRoot { path, gc_root } => pair_fields(
            10,
            path,
            gc_root.start as u64,
            gc_root.len as u64,
        ),
        OpCall::AddSignatures { path, sigs } => pair_fields(
            11,
            path,
            sigs.first as u64,
            sigs.count as u64,
        ),
        OpCall::AddTextToStore { suffix, text, refs } => text_fields(12, suffix, text, refs),
        OpCall::AddToStore {
            name,
            cam_str,
            refs,
            repair,
            data,
        } => store_fields(13, name, cam_str, refs, repair, data),
        OpCall::AddMultipleToStore {
            repair,
            dont_check_sigs,
            data,
        } => data_fields(14, flag(repair), flag(dont_check_sigs), data),
        OpCall::AddBuildLog { path, data } => data_fields(
            15,
            path.start as u64,
            path.len as u64,
            data,
        ),
        OpCall::RegisterDrvOutput { value } => place_fields(16, 0, value),
        OpCall::QueryRealisation { value } => place_fields(17, 0, value),
        OpCall::QuerySubstitutablePathInfo { path } => place_fields(18, 0, path),
        OpCall::QuerySubstitutablePathInfos { paths } => items_fields(19, 0, paths),
        OpCall::RawBytes { op, data } => place_fields(20, Op::code(op), data),
        _ => few(0, 0, 0, 0, 0, 0, 0, 0),
    }
}

// The kind, the code where the record has one, else 0, and the other fields.
pub fn call_numbers(c: OpCall) -> [u64; 16]
    ensures { result ≡ call_numbers c }
{
    match c {
        OpCall::SinglePath { op, path } => place_fields(1, Op::code(op), path),
        OpCall::SingleString { op, value } => place_fields(2, Op::code(op), value),
        OpCall::PathSet { op, paths } => items_fields(3, Op::code(op), paths),
        OpCall::PathSetFlag {
            op,
            paths,
            substitute,
        } => range_fields(4, Op::code(op), paths, flag(substitute), 0),
        OpCall::PathSetMode { op, paths, mode } => range_fields(
            5,
            Op::code(op),
            paths,
            mode.start as u64,
            mode.len as u64,
        ),
        OpCall::NoArgs { op } => few(6, Op::code(op), 0, 0, 0, 0, 0, 0),
        OpCall::SetOptions(o) => options_fields(7, o),
        OpCall::CollectGarbage {
            action,
            paths,
            ignore_liveness,
            max_freed,
        } => few(
            8,
            0,
            action,
            paths.first as u64,
            paths.count as u64,
            ignore_liveness,
            max_freed,
            0,
        ),
        OpCall::VerifyStore {
            check_contents,
            repair,
        } => few(9, 0, flag(check_contents), flag(repair), 0, 0, 0, 0),
        _ => later_numbers(c),
    }
}

// What stands in front of the call: the line, the timestamp, the range of expectations.
#[tactic(auto, using(crate::proofs::NumberLaws::head_is), unfolding(call_fields::specs::CallFields::items_numbers))]
pub fn entry_head(e: Entry) -> [u64; 7]
    ensures { result ≡ entry_head e }
{
    let stamp = e.timestamp_ms;
    let x = e.expects;
    let s = stamp_numbers(stamp);
    [
        e.line as u64,
        s[0],
        s[1],
        s[2],
        s[3],
        x.first as u64,
        x.count as u64,
    ]
}
