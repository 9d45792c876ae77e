// The records of the options, of collecting garbage and of verifying, from what was said below them.
#![tactic(auto)]

ghost use Rattle.std.specs.Prelude.{◌≡◌};
ghost use Rattle.said.specs.Said.{said_of};
ghost use Rattle.records.specs.Records.{options_record, garbage_record, verify_record};

use said::said::Said;
use script::records::{Items, OpCall, Options};
use script::roles::Key;

#[tactic(auto, unfolding(records::specs::Records::options_record))]
pub fn options_of(said: Said<'_>, overrides: Items) -> Options
    ensures { result ≡ options_record said.entry.text.now (said_of said.entry.heard.now) overrides }
{
    Options {
        keep_failed: said.number(Key::KeepFailed),
        keep_going: said.number(Key::KeepGoing),
        try_fallback: said.number(Key::TryFallback),
        verbosity: said.number(Key::Verbosity),
        max_build_jobs: said.number(Key::MaxBuildJobs),
        max_silent_time: said.number(Key::MaxSilentTime),
        use_build_hook: said.number(Key::UseBuildHook),
        verbose_build: said.number(Key::VerboseBuild),
        log_type: said.number(Key::LogType),
        print_build_trace: said.number(Key::PrintBuildTrace),
        build_cores: said.number(Key::BuildCores),
        use_substitutes: said.number(Key::UseSubstitutes),
        overrides,
    }
}

#[tactic(auto, unfolding(records::specs::Records::garbage_record))]
pub fn garbage_call(said: Said<'_>, paths: Items) -> OpCall
    ensures { result ≡ garbage_record said.entry.text.now (said_of said.entry.heard.now) paths }
{
    OpCall::CollectGarbage {
        action: said.number(Key::Action),
        paths,
        ignore_liveness: said.number(Key::IgnoreLiveness),
        max_freed: said.number(Key::MaxFreed),
    }
}

#[tactic(auto, unfolding(records::specs::Records::verify_record))]
pub fn verify_call(said: Said<'_>) -> OpCall
    ensures { result ≡ verify_record said.entry.text.now (said_of said.entry.heard.now) }
{
    OpCall::VerifyStore {
        check_contents: said.flag(Key::CheckContents),
        repair: said.flag(Key::Repair),
    }
}
