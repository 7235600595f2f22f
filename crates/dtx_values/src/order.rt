//! NULL, and the order of values: SQL Language Reference, "Nulls" and "Data Type Comparison Rules".
ghost use Rattle.std.specs.Prelude.{◌≡◌};
ghost use Rattle.dtx_values.specs.Order.{is_null as is_null_of, value_below as value_below_of, same_value as same_value_of};

use crate::Value;

/// Whether a value is NULL.
pub fn is_null(value: &Value) -> bool
    ensures { result ≡ is_null_of value.now }
{
    match value {
        Value::Null => true,
        Value::Number(_) | Value::Text(_) => false,
    }
}

/// Whether a value comes before another: NULL first, then the numbers by value, and then the texts by their bytes.
#[tactic(auto, using(crate::proofs::ValueOrder::derived_below))]
pub fn value_below(value: &Value, other: &Value) -> bool
    ensures { result ≡ value_below_of value.now other.now }
{
    value.cmp(other).is_lt()
}

/// Whether two values are equal: both NULL, the same number, or texts of the same bytes.
#[tactic(auto, using(crate::proofs::ValueOrder::derived_same))]
pub fn same_value(value: &Value, other: &Value) -> bool
    ensures { result ≡ same_value_of value.now other.now }
{
    value == other
}
