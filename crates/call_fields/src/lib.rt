// The numbers of an operation by its fields, 16 of them: its kind, its code, the fields, and zeros behind them. Kinds are numbers here, since a host is
// given rows of numbers (the C interface).
#![tactic(auto)]

ghost use Rattle.std.specs.Prelude.{◌≡◌, [], ◌∷◌, ◌++◌};
ghost use Rattle.call_fields.specs.CallFields as CallFields;
ghost use Rattle.call_fields.specs.CallFields.{padded, place_numbers, items_numbers, data_numbers, options_numbers};

use script::records::{FramedData, Items, Options, Place};

#[tactic(auto, unfolding(crate::specs::CallFields::flag))]
pub fn flag(b: bool) -> u64
    ensures { result ≡ CallFields.flag b }
{
    u64::from(b)
}

// No `From`: both types are of other crates.
#[tactic(auto, using(crate::proofs::FieldLaws::data_by), unfolding(crate::specs::CallFields::data_numbers, crate::specs::CallFields::place_numbers))]
fn data_numbers(d: FramedData) -> [u64; 3]
    ensures { result ≡ data_numbers d }
{
    match d {
        FramedData::Inline(p) => [0, p.start as u64, p.len as u64],
        FramedData::FileRef(p) => [1, p.start as u64, p.len as u64],
    }
}

// The kind, the code, a few numbers, and zeros behind them.
#[tactic(auto, unfolding(crate::specs::CallFields::padded))]
pub fn few(kind: u64, code: u64, a: u64, b: u64, c: u64, d: u64, e: u64, f: u64) -> [u64; 16]
    ensures { result ≡ padded 16 (kind ∷ code ∷ a ∷ b ∷ c ∷ d ∷ e ∷ f ∷ []) }
{
    [kind, code, a, b, c, d, e, f, 0, 0, 0, 0, 0, 0, 0, 0]
}

#[tactic(auto, unfolding(crate::specs::CallFields::padded, crate::specs::CallFields::place_numbers))]
pub fn place_fields(kind: u64, code: u64, p: Place) -> [u64; 16]
    ensures { result ≡ padded 16 (kind ∷ code ∷ place_numbers p) }
{
    few(kind, code, p.start as u64, p.len as u64, 0, 0, 0, 0)
}

#[tactic(auto, unfolding(crate::specs::CallFields::padded, crate::specs::CallFields::items_numbers))]
pub fn items_fields(kind: u64, code: u64, i: Items) -> [u64; 16]
    ensures { result ≡ padded 16 (kind ∷ code ∷ items_numbers i) }
{
    few(kind, code, i.first as u64, i.count as u64, 0, 0, 0, 0)
}

// A range and two more numbers.
#[tactic(auto, unfolding(crate::specs::CallFields::padded, crate::specs::CallFields::items_numbers))]
pub fn range_fields(kind: u64, code: u64, i: Items, a: u64, b: u64) -> [u64; 16]
    ensures { result ≡ padded 16 ((kind ∷ code ∷ items_numbers i) ++ (a ∷ b ∷ [])) }
{
    few(kind, code, i.first as u64, i.count as u64, a, b, 0, 0)
}

// A place and two more numbers. From here on the records have no code.
#[tactic(auto, unfolding(crate::specs::CallFields::padded, crate::specs::CallFields::place_numbers))]
pub fn pair_fields(kind: u64, p: Place, a: u64, b: u64) -> [u64; 16]
    ensures { result ≡ padded 16 ((kind ∷ 0 ∷ place_numbers p) ++ (a ∷ b ∷ [])) }
{
    few(kind, 0, p.start as u64, p.len as u64, a, b, 0, 0)
}

#[tactic(auto, unfolding(crate::specs::CallFields::padded, crate::specs::CallFields::place_numbers, crate::specs::CallFields::items_numbers))]
pub fn text_fields(kind: u64, suffix: Place, text: Place, refs: Items) -> [u64; 16]
    ensures { result ≡ padded 16 ((kind ∷ 0 ∷ place_numbers suffix) ++ place_numbers text ++ items_numbers refs) }
{
    few(
        kind,
        0,
        suffix.start as u64,
        suffix.len as u64,
        text.start as u64,
        text.len as u64,
        refs.first as u64,
        refs.count as u64,
    )
}

#[tactic(auto, using(crate::proofs::FieldLaws::data_store), unfolding(crate::specs::CallFields::place_numbers, crate::specs::CallFields::items_numbers))]
pub fn store_fields(
    kind: u64,
    name: Place,
    cam_str: Place,
    refs: Items,
    repair: bool,
    data: FramedData,
) -> [u64; 16]
    ensures { result ≡ padded 16 ((kind ∷ 0 ∷ place_numbers name) ++ place_numbers cam_str ++ items_numbers refs ++ (CallFields.flag repair ∷ data_numbers «data»)) }
{
    let d = data_numbers(data);
    [
        kind,
        0,
        name.start as u64,
        name.len as u64,
        cam_str.start as u64,
        cam_str.len as u64,
        refs.first as u64,
        refs.count as u64,
        flag(repair),
        d[0],
        d[1],
        d[2],
        0,
        0,
        0,
        0,
    ]
}

// Two numbers and data.
#[tactic(auto, using(crate::proofs::FieldLaws::data_few))]
pub fn data_fields(kind: u64, a: u64, b: u64, data: FramedData) -> [u64; 16]
    ensures { result ≡ padded 16 (kind ∷ 0 ∷ a ∷ b ∷ data_numbers «data») }
{
    let d = data_numbers(data);
    few(kind, 0, a, b, d[0], d[1], d[2], 0)
}

#[tactic(auto, unfolding(crate::specs::CallFields::padded, crate::specs::CallFields::options_numbers, crate::specs::CallFields::items_numbers))]
pub fn options_fields(kind: u64, o: Options) -> [u64; 16]
    ensures { result ≡ padded 16 (kind ∷ 0 ∷ options_numbers o) }
{
    let overrides = o.overrides;
    [
        kind,
        0,
        o.keep_failed,
        o.keep_going,
        o.try_fallback,
        o.verbosity,
        o.max_build_jobs,
        o.max_silent_time,
        o.use_build_hook,
        o.verbose_build,
        o.log_type,
        o.print_build_trace,
        o.build_cores,
        o.use_substitutes,
        overrides.first as u64,
        overrides.count as u64,
    ]
}
