ghost use Rattle.std.specs.Prelude.{◌≡◌, ◌≤◌, ◌≤ℤ◌, IfSome, option_map};
ghost use Rattle.serde_json.specs.{Find.as_array, Find.as_object, Find.get_member, View.view, View.items_view, View.members_view};
ghost use Rattle.settings.specs.Looking.{whole_in, signed_in, or_default};

use serde_json::{Map, Value};

/// The value of a key, if it is given.
pub fn member<'v>(object: &'v Map<String, Value>, name: &str) -> Option<&'v Value>
    ensures { option_map (λ v. view v.now) result ≡ get_member name.now (members_view object.now.entries) }
{
    object.get(name)
}

/// The whole number from `low` to `high` that a value is, if it is one.
#[tactic(auto, unfolding(crate::specs::Looking::whole_in))]
pub fn whole_in(value: &Value, low: u64, high: u64) -> Option<u64>
    ensures number { result ≡ whole_in low high (view value.now) }
    ensures within { IfSome result (λ n. (low ≤ n) × (n ≤ high)) }
{
    match value.as_u64() {
        Some(number) if low <= number && number <= high => Some(number),
        _ => None,
    }
}

/// The same, of a number of 32 bits.
pub fn small_in(value: &Value, low: u32, high: u32) -> Option<u32>
    ensures number { result ≡ whole_in low high (view value.now) }
    ensures within { IfSome result (λ n. (low ≤ n) × (n ≤ high)) }
{
    match whole_in(value, u64::from(low), u64::from(high)) {
        Some(number) => Some(number as u32),
        None => None,
    }
}

/// The whole number from `low` to `high` that a value is, if it is one, which may be below zero.
#[tactic(auto, unfolding(crate::specs::Looking::signed_in))]
pub fn signed_in(value: &Value, low: i64, high: i64) -> Option<i64>
    ensures number { result ≡ signed_in low high (view value.now) }
    ensures within { IfSome result (λ z. (low ≤ℤ z) × (z ≤ℤ high)) }
{
    match value.as_i64() {
        Some(amount) if low <= amount && amount <= high => Some(amount),
        _ => None,
    }
}

/// The same of the value of a key, or `default` where it is not given.
pub fn signed_or(
    object: &Map<String, Value>,
    name: &str,
    low: i64,
    high: i64,
    default: i64,
) -> Option<i64>
    requires default_in { (low ≤ℤ default) × (default ≤ℤ high) }
    ensures number { result ≡ or_default (signed_in low high) default (get_member name.now (members_view object.now.entries)) }
    ensures within { IfSome result (λ z. (low ≤ℤ z) × (z ≤ℤ high)) }
{
    match member(object, name) {
        Some(value) => signed_in(value, low, high),
        None => Some(default),
    }
}
