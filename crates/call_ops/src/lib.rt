// The operation of a call.
#![tactic(auto)]

ghost use Rattle.std.specs.Prelude.{◌≡◌};
ghost use Rattle.call_ops.specs.CallOps.{op_of};

use script::records::OpCall;
use wire::ops::Op;

#[tactic(auto, unfolding(crate::specs::CallOps::op_of))]
pub fn op_of(call: OpCall) -> Op
    ensures { result ≡ op_of call }
{
    match call {
        OpCall::SinglePath { op, .. } => op,
        OpCall::SingleString { op, .. } => op,
        OpCall::PathSet { op, .. } => op,
        OpCall::PathSetFlag { op, .. } => op,
        OpCall::PathSetMode { op, .. } => op,
        OpCall::NoArgs { op } => op,
        OpCall::SetOptions(_) => Op::SetOptions,
        OpCall::CollectGarbage { .. } => Op::CollectGarbage,
        OpCall::VerifyStore { .. } => Op::VerifyStore,
        OpCall::AddPermRoot { .. } => Op::AddPermRoot,
        OpCall::AddSignatures { .. } => Op::AddSignatures,
        OpCall::AddTextToStore { .. } => Op::AddTextToStore,
        OpCall::AddToStore { .. } => Op::AddToStore,
        OpCall::AddMultipleToStore { .. } => Op::AddMultipleToStore,
        OpCall::AddBuildLog { .. } => Op::AddBuildLog,
        OpCall::RegisterDrvOutput { .. } => Op::RegisterDrvOutput,
        OpCall::QueryRealisation { .. } => Op::QueryRealisation,
        OpCall::QuerySubstitutablePathInfo { .. } => Op::QuerySubstitutablePathInfo,
        OpCall::QuerySubstitutablePathInfos { .. } => Op::QuerySubstitutablePathInfos,
        OpCall::RawBytes { op, .. } => op,
    }
}
