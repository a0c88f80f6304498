ghost use Rattle.std.specs.Prelude.{◌≡◌, ◌≤◌, ◌<◌, ◌^◌, true, length, IfSome};
ghost use Rattle.std.specs.List.{list_all};
ghost use Rattle.records.specs.Numbers.{is_digit, are_digits, value_of, number_in, signed_in};

fn all_digits(bytes: &[u8]) -> bool
    ensures { result ≡ list_all is_digit bytes.now }
{
    bytes.iter().all(|&b| 48 <= b && b <= 57)
}

/// Whether the bytes are 1 to 20 digits.
#[tactic(auto, unfolding(crate::specs::Numbers::are_digits))]
fn are_digits(bytes: &[u8]) -> bool
    ensures is { result ≡ are_digits bytes.now }
    ensures few { result ≡ true → length bytes.now ≤ 20 }
    ensures digits { result ≡ true → list_all is_digit bytes.now ≡ true }
{
    if bytes.is_empty() || bytes.len() > 20 {
        return false;
    }
    all_digits(bytes)
}

/// The value of at most twenty digits.
fn value(bytes: &[u8]) -> u128
    requires digits { list_all is_digit bytes.now ≡ true }
    requires few { length bytes.now ≤ 20 }
    ensures { result ≡ value_of bytes.now }
{
    let mut value: u128 = 0;
    for b in bytes {
        value = 10 * value + u128::from(*b - 48);
    }
    value
}

/// The number that the bytes write, where they are 1 to 20 decimal digits with no sign and the
/// number is from `low` to `high`. Leading zeros are allowed.
#[tactic(auto, unfolding(crate::specs::Numbers::number_in))]
pub fn number_in(bytes: &[u8], low: u32, high: u32) -> Option<u32>
    ensures number { result ≡ number_in low high bytes.now }
    ensures within { IfSome result (λ n. (low ≤ n) × (n ≤ high)) }
{
    if !are_digits(bytes) {
        return None;
    }
    let value = value(bytes);
    if value < u128::from(low) || value > u128::from(high) {
        return None;
    }
    Some(value as u32)
}

/// The number that the bytes write, as by `number_in` from 0 to `limit`, or the negative of such a
/// number behind a leading `-`.
#[tactic(auto, unfolding(crate::specs::Numbers::signed_in))]
pub fn signed_in(bytes: &[u8], limit: u32) -> Option<i64>
    ensures { result ≡ signed_in limit bytes.now }
{
    match bytes {
        [] => None,
        [b'-', digits @ ..] => match number_in(digits, 0, limit) {
            Some(value) => Some(-(i64::from(value))),
            None => None,
        },
        digits => match number_in(digits, 0, limit) {
            Some(value) => Some(i64::from(value)),
            None => None,
        },
    }
}
