// The keys of argument lines, by their exact names.
ghost use Rattle.std.specs.Prelude.{◌≡◌, ◌≤◌, ◌<◌};
ghost use Rattle.text.specs.Parts.{same_bytes};
ghost use Rattle.script.specs.Pieces.{bytes};
ghost use Rattle.script.specs.Operations.{keys_of, key_in};
ghost use Rattle.arguments.specs.KeyTables.{argument_keys, key_at, name_at, letters, Starts, shift_of, Meant, Hints};

use pieces::pieces::Piece;
use script::roles::{Key, Takes};

// By the key's place among the 26, where its name begins among the `names`. It ends where that of the next begins.
const STARTS: [u16; 27] = [
    0, // keep_failed
    11, // keep_going
    21, // try_fallback
    33, // verbosity
    42, // max_build_jobs
    56, // max_silent_time
    71, // use_build_hook
    85, // verbose_build
    98, // log_type
    106, // print_build_trace
    123, // build_cores
    134, // use_substitutes
    149, // overrides
    158, // action
    164, // paths
    169, // ignore_liveness
    184, // max_freed
    193, // check_contents
    207, // repair
    213, // suffix
    219, // text
    223, // refs
    227, // name
    231, // cam_str
    238, // data
    242, // dont_check_sigs
    257,
];

// By the sum of `key_hint`, the place of the only key that comes to it. Where none does, any stands.
const HINTS: [u8; 36] = [
    25, // dont_check_sigs
    24, // data
    0, 1, // keep_going
    0, // keep_failed
    6, // use_build_hook
    11, // use_substitutes
    3, // verbosity
    8, // log_type
    9, // print_build_trace
    0, 7, // verbose_build
    15, // ignore_liveness
    10, // build_cores
    21, // refs
    14, // paths
    24, // data
    18, // repair
    0, 13, // action
    18, // repair
    4, // max_build_jobs
    5, // max_silent_time
    19, // suffix
    0, 24, // data
    0, 21, // refs
    20, // text
    18, // repair
    12, // overrides
    17, // check_contents
    2, // try_fallback
    23, // cam_str
    16, // max_freed
    22, // name
];

// The tables, each tested here, once for all who use it. The names of the 26 keys, one behind the other: a reference, for an array would be laid out on the
// stack for each key that is asked for.
#[tactic(auto, unfolding(script::specs::Operations::key_row, crate::specs::KeyTables::letters))]
fn names() -> &'static [u8]
    ensures { result.now ≡ letters argument_keys }
{
    b"\
        keep_failed\
        keep_going\
        try_fallback\
        verbosity\
        max_build_jobs\
        max_silent_time\
        use_build_hook\
        verbose_build\
        log_type\
        print_build_trace\
        build_cores\
        use_substitutes\
        overrides\
        action\
        paths\
        ignore_liveness\
        max_freed\
        check_contents\
        repair\
        suffix\
        text\
        refs\
        name\
        cam_str\
        data\
        dont_check_sigs"
}

fn starts() -> [u16; 27]
    ensures { Starts result }
{
    STARTS
}

fn hints() -> [u8; 36]
    ensures { Hints result }
{
    HINTS
}

// What keeps the keys of one operation apart from those of the others.
fn shift(takes: Takes) -> usize
    ensures value { result ≡ shift_of takes }
    ensures upper_bound { result ≤ 32 }
{
    match takes {
        Takes::NoLines => 1,
        Takes::Options => 0,
        Takes::Garbage => 18,
        Takes::Verify => 8,
        Takes::Texts => 4,
        Takes::Store => 17,
        Takes::Multiple => 5,
        Takes::FirstData => 32,
        Takes::FirstRaw => 1,
    }
}

// The place of the only key of the operation that the piece can name: no two have the same length and the same first byte.
fn key_hint(takes: Takes, p: Piece<'_>) -> usize
    ensures { Meant takes (bytes p.entry.text.now p.entry.at) result }
{
    let first = p.first_byte() as usize;
    let sum = shift(takes) + p.bytes().len() + 7 * first;
    let hints = hints();
    hints[sum % 36] as usize
}

// Whether the piece is the name of the key at that place.
fn is_named(p: Piece<'_>, place: usize) -> bool
    requires { place < 26 }
    ensures { result ≡ same_bytes (bytes p.entry.text.now p.entry.at) (name_at place) }
{
    let starts = starts();
    let start = starts[place] as usize;
    let end = starts[place + 1] as usize;
    // Most lines that name no key differ in length.
    if p.bytes().len() != end - start {
        return false;
    }
    let names = names();
    p.is_word(&names[start..end])
}

#[tactic(auto, unfolding(crate::specs::KeyTables::key_at))]
fn key_at(place: usize) -> Key
    requires { place < 26 }
    ensures { result ≡ key_at place }
{
    match place {
        0 => Key::KeepFailed,
        1 => Key::KeepGoing,
        2 => Key::TryFallback,
        3 => Key::Verbosity,
        4 => Key::MaxBuildJobs,
        5 => Key::MaxSilentTime,
        6 => Key::UseBuildHook,
        7 => Key::VerboseBuild,
        8 => Key::LogType,
        9 => Key::PrintBuildTrace,
        10 => Key::BuildCores,
        11 => Key::UseSubstitutes,
        12 => Key::Overrides,
        13 => Key::Action,
        14 => Key::Paths,
        15 => Key::IgnoreLiveness,
        16 => Key::MaxFreed,
        17 => Key::CheckContents,
        18 => Key::Repair,
        19 => Key::Suffix,
        20 => Key::Text,
        21 => Key::Refs,
        22 => Key::Name,
        23 => Key::CamStr,
        24 => Key::Data,
        _ => Key::DontCheckSigs,
    }
}

// The key of that name among those of the operation: one can have it, and one comparison tells whether it has.
pub fn key_in(takes: Takes, p: Piece<'_>) -> Option<Key>
    ensures { result ≡ key_in (keys_of takes) (bytes p.entry.text.now p.entry.at) }
{
    let place = key_hint(takes, p);
    if is_named(p, place) {
        return Some(key_at(place));
    }
    None
}
