// A response of a row.
#![tactic(auto)]

ghost use Rattle.std.specs.Prelude.{◌≡◌};
ghost use Rattle.rows.specs.Rows as Rows;

use rows::parts::{at, items, maybe, maybe_items, maybe_number, place};
use script::response::{DaemonResponse, PathInfoResult, ResultData};

fn path_info(row: &[u64]) -> PathInfoResult
    ensures { result ≡ Rows.path_info_of row.now }
{
    let deriver = maybe(at(row, 8), at(row, 9), at(row, 10));
    let nar_hash = maybe(at(row, 11), at(row, 12), at(row, 13));
    let references = maybe_items(at(row, 14), at(row, 15), at(row, 16));
    let nar_size = maybe_number(at(row, 17), at(row, 18));
    PathInfoResult {
        valid: at(row, 7) != 0,
        deriver,
        nar_hash,
        references,
        nar_size,
    }
}

fn substitutable(row: &[u64]) -> ResultData
    ensures { result ≡ Rows.substitutable_of row.now }
{
    let download_size = maybe_number(at(row, 8), at(row, 9));
    let nar_size = maybe_number(at(row, 10), at(row, 11));
    ResultData::SubstitutablePathInfo {
        valid: at(row, 7) != 0,
        download_size,
        nar_size,
    }
}

// Kinds 5 and above.
#[tactic(auto, unfolding(rows::specs::Rows::further_of))]
fn further(kind: u64, row: &[u64]) -> ResultData
    ensures { result ≡ Rows.further_of kind row.now }
{
    match kind {
        5 => ResultData::StringMap,
        6 => ResultData::None,
        7 => ResultData::CollectGarbage {
            bytes_freed: at(row, 7),
        },
        8 => substitutable(row),
        9 => ResultData::Missing {
            download_size: at(row, 7),
            nar_size: at(row, 8),
        },
        10 => ResultData::Framed,
        _ => ResultData::Raw,
    }
}

// A kind is a number, since a host hands rows of numbers (the C interface).
#[tactic(auto, unfolding(rows::specs::Rows::result_of))]
fn result_of(kind: u64, row: &[u64]) -> ResultData
    ensures { result ≡ Rows.result_of kind row.now }
{
    match kind {
        0 => ResultData::Absent,
        1 => ResultData::U64(at(row, 7)),
        2 => ResultData::Str(place(at(row, 7), at(row, 8))),
        3 => ResultData::PathInfo(path_info(row)),
        4 => ResultData::StringSet(items(at(row, 7), at(row, 8))),
        _ => further(kind, row),
    }
}

pub fn response_of(row: &[u64]) -> DaemonResponse
    ensures { result ≡ Rows.response_row row.now }
{
    let terminal = place(at(row, 0), at(row, 1));
    let error = maybe(at(row, 3), at(row, 4), at(row, 5));
    let result = result_of(at(row, 6), row);
    DaemonResponse {
        terminal,
        stderr_count: at(row, 2),
        result,
        error,
    }
}
