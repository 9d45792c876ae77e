// Values without their bytes.
ghost use Rattle.std.specs.Prelude.{option_map};
ghost use Rattle.sought.specs.Values.{Means};
ghost use Rattle.values.specs.Decimal.{decimal};
ghost use Rattle.verdicts.specs.Held.{text_given, texts_given, result_of};
ghost use Rattle.verdicts.specs.Lookup.{flag, bracketed, whole_value};

use script::records::{Items, Place};
use script::response::ResultData;

// A text is a place in the response's bytes, lists are ranges of the table of places.
#[derive(Clone, Copy)]
pub enum Value {
    Missing,
    Number(u64),
    Text(Place),
    Unknown,
    Trusted,
    NotTrusted,
    List(Items),
    Features(Items),
}

// A flag is the number 1 or 0.
#[tactic(auto, using(crate::proofs::ValueLaws::flag_digit), unfolding(crate::specs::Values::value_bytes, verdicts::specs::Lookup::flag, values::specs::Decimal::decimal, text::specs::Literal::utf8, text::specs::Unicode::encoded))]
pub fn flag_value(b: bool) -> Value
    ensures { Means result (λ bytes lists. Some (flag b)) }
{
    Value::Number(u64::from(b))
}

#[tactic(auto, unfolding(crate::specs::Values::value_bytes, verdicts::specs::Held::text_given))]
pub fn text_value(m: Option<Place>) -> Value
    ensures { Means result (λ bytes lists. text_given bytes m) }
{
    m.map_or(Value::Missing, Value::Text)
}

#[tactic(auto, unfolding(crate::specs::Values::value_bytes))]
pub fn number_value(m: Option<u64>) -> Value
    ensures { Means result (λ bytes lists. option_map decimal m) }
{
    m.map_or(Value::Missing, Value::Number)
}

#[tactic(auto, unfolding(crate::specs::Values::value_bytes, verdicts::specs::Held::texts_given))]
pub fn list_value(m: Option<Items>) -> Value
    ensures { Means result (λ bytes lists. option_map bracketed (texts_given bytes lists m)) }
{
    m.map_or(Value::Missing, Value::List)
}

// The value of a result where no field is named.
#[tactic(auto, unfolding(crate::specs::Values::value_bytes, verdicts::specs::Lookup::whole_value, verdicts::specs::Held::result_of))]
pub fn whole_value(res: &ResultData) -> Value
    ensures { Means result (λ bytes lists. whole_value (result_of bytes lists res.now)) }
{
    match res {
        ResultData::U64(n) => Value::Number(*n),
        ResultData::Str(p) => Value::Text(*p),
        ResultData::StringSet(r) => Value::List(*r),
        ResultData::Absent
        | ResultData::PathInfo(_)
        | ResultData::StringMap
        | ResultData::None
        | ResultData::CollectGarbage { .. }
        | ResultData::SubstitutablePathInfo { .. }
        | ResultData::Missing { .. }
        | ResultData::Framed
        | ResultData::Raw => Value::Missing,
    }
}
