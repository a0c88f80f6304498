ghost use Rattle.std.specs.Prelude.{◌≤◌, ◌≤ℤ◌, IfOk, IfSome};
ghost use Rattle.serde_json.specs.{Find.get_member, View.members_view};
ghost use Rattle.settings.specs.{Keys.is_whole, Keys.is_signed, Keys.TellsKey, Looking.whole, Looking.signed};

use crate::looking::{member, signed_in, whole_in};
use edge_files::Reason;
use serde_json::{Map, Value};

/// The number that a key is given, or the reason against its value.
pub type Given<T> = Result<Option<T>, Reason>;

/// The whole number that a key is given, where it is given one from `low` to `high` or nothing.
#[tactic(auto, using(crate::proofs::Numbers::whole_given))]
pub fn given(settings: &Map<String, Value>, name: &str, low: u64, high: u64) -> Given<u64>
    ensures key { TellsKey (is_whole low high) whole (get_member name.now (members_view settings.now.entries)) result }
    ensures within { IfOk result (λ o. IfSome o (λ n. (low ≤ n) × (n ≤ high))) }
{
    let Some(value) = member(settings, name) else {
        return Ok(None);
    };
    match whole_in(value, low, high) {
        Some(number) => Ok(Some(number)),
        None => Err(Reason::ValueBad),
    }
}

/// The same, of a number of 32 bits.
pub fn given_small(settings: &Map<String, Value>, name: &str, low: u32, high: u32) -> Given<u32>
    ensures key { TellsKey (is_whole low high) whole (get_member name.now (members_view settings.now.entries)) result }
    ensures within { IfOk result (λ o. IfSome o (λ n. (low ≤ n) × (n ≤ high))) }
{
    match given(settings, name, u64::from(low), u64::from(high)) {
        Ok(Some(number)) => Ok(Some(number as u32)),
        Ok(None) => Ok(None),
        Err(reason) => Err(reason),
    }
}

/// The same, of a number that may be below zero.
pub fn given_signed(settings: &Map<String, Value>, name: &str, low: i64, high: i64) -> Given<i64>
    ensures key { TellsKey (is_signed low high) signed (get_member name.now (members_view settings.now.entries)) result }
    ensures within { IfOk result (λ o. IfSome o (λ n. (low ≤ℤ n) × (n ≤ℤ high))) }
{
    let Some(value) = member(settings, name) else {
        return Ok(None);
    };
    let number = signed_in(value, low, high);
    if number.is_none() {
        return Err(Reason::ValueBad);
    }
    Ok(number)
}
