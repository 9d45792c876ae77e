// The value of a field of a result, by the field's name.
ghost use Rattle.sought.specs.Values.{Means};
ghost use Rattle.verdicts.specs.Held.{path_info_of, result_of};
ghost use Rattle.verdicts.specs.Lookup.{fields, value_in};
ghost use Rattle.verdicts.specs.Told as told;

use crate::value::{Value, flag_value, list_value, number_value, text_value};
use script::response::{PathInfoResult, ResultData};
use text::parts::same;

#[tactic(auto, using(crate::proofs::ValueLaws::told_same), unfolding(verdicts::specs::Held::path_info_of, verdicts::specs::Lookup::fields, crate::specs::Values::value_bytes, verdicts::specs::Lookup::value_in))]
fn path_info_value(p: &PathInfoResult, field: &[u8]) -> Value
    ensures { Means result (λ bytes lists. value_in (fields (told.path_info (path_info_of bytes lists p.now))) field.now) }
{
    if same(field, b"valid") {
        return flag_value(p.valid);
    }
    if same(field, b"deriver") {
        return text_value(p.deriver);
    }
    if same(field, b"narHash") {
        return text_value(p.nar_hash);
    }
    if same(field, b"narSize") {
        return number_value(p.nar_size);
    }
    if same(field, b"references") {
        return list_value(p.references);
    }
    Value::Missing
}

fn collect_garbage_value(bytes_freed: u64, field: &[u8]) -> Value
    ensures { Means result (λ bytes lists. value_in (fields (told.collect_garbage bytes_freed)) field.now) }
{
    if same(field, b"bytes_freed") {
        return Value::Number(bytes_freed);
    }
    Value::Missing
}

fn substitutable_value(
    valid: bool,
    download_size: Option<u64>,
    nar_size: Option<u64>,
    field: &[u8],
) -> Value
    ensures { Means result (λ bytes lists. value_in (fields (told.substitutable_path_info valid download_size nar_size)) field.now) }
{
    if same(field, b"valid") {
        return flag_value(valid);
    }
    if same(field, b"downloadSize") {
        return number_value(download_size);
    }
    if same(field, b"narSize") {
        return number_value(nar_size);
    }
    Value::Missing
}

fn missing_value(download_size: u64, nar_size: u64, field: &[u8]) -> Value
    ensures { Means result (λ bytes lists. value_in (fields (told.missing download_size nar_size)) field.now) }
{
    if same(field, b"downloadSize") {
        return Value::Number(download_size);
    }
    if same(field, b"narSize") {
        return Value::Number(nar_size);
    }
    Value::Missing
}

// The value of a field, missing where the result has none of that name.
#[tactic(auto, unfolding(crate::specs::Values::value_bytes, verdicts::specs::Lookup::value_in, verdicts::specs::Lookup::fields, verdicts::specs::Held::result_of))]
pub fn field_value(res: &ResultData, field: &[u8]) -> Value
    ensures { Means result (λ bytes lists. value_in (fields (result_of bytes lists res.now)) field.now) }
{
    match res {
        ResultData::PathInfo(p) => path_info_value(p, field),
        ResultData::CollectGarbage { bytes_freed } => collect_garbage_value(*bytes_freed, field),
        ResultData::SubstitutablePathInfo {
            valid,
            download_size,
            nar_size,
        } => substitutable_value(*valid, *download_size, *nar_size, field),
        ResultData::Missing {
            download_size,
            nar_size,
        } => missing_value(*download_size, *nar_size, field),
        ResultData::Absent
        | ResultData::U64(_)
        | ResultData::Str(_)
        | ResultData::StringSet(_)
        | ResultData::StringMap
        | ResultData::None
        | ResultData::Framed
        | ResultData::Raw => Value::Missing,
    }
}
