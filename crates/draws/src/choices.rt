ghost use Rattle.std.specs.Prelude.{◌≡◌, ℕ, ◌-◌, ◌^◌, ◌<◌, ◌≤◌, length, sum, ℤ, pos, neg_ℤ, ◌+ℤ◌};
ghost use Rattle.std.specs.Prelude.{◌≤ℤ◌};
ghost use Rattle.draws.specs.Choices.{below, pick, count_of, between};

/// One of the `count` numbers from 0 on, which is 0 where there is none.
#[tactic(auto, unfolding(crate::specs::Choices::below))]
fn below(count: u64, word: u32) -> u64
    ensures value { result ≡ below count word }
    ensures within { 0 < count → result < count }
{
    ((u128::from(word) * u128::from(count)) >> 32) as u64
}

/// The place that a word draws, each by its weight.
#[tactic(auto, using(crate::proofs::Sums::pick_is))]
pub fn pick(weights: &[u64], word: u32) -> usize
    requires some { 0 < sum weights.now }
    requires fits { sum weights.now < 2 ^ 63 }
    ensures value { result ≡ pick weights.now word }
    ensures within { result < length weights.now }
{
    let total = weights.iter().sum();
    let target = below(total, word);
    let mut running = 0;
    for (place, weight) in weights.iter().enumerate() {
        running += *weight;
        if target < running {
            return place;
        }
    }
    unreachable!()
}

/// The whole number from `low` to `high`, both included, that a word draws.
#[tactic(auto, unfolding(crate::specs::Choices::between))]
pub fn between(low: i64, high: i64, word: u32) -> i64
    requires order { low ≤ℤ high }
    requires low_in { neg_ℤ (pos (2 ^ 40)) ≤ℤ low }
    requires high_in { high ≤ℤ pos (2 ^ 40) }
    ensures value { result ≡ between low high word }
    ensures at_least { low ≤ℤ result }
    ensures at_most { result ≤ℤ high }
{
    let count = count_of(low, high);
    low + below(count, word) as i64
}

// How many whole numbers there are from `low` to `high`.
fn count_of(low: i64, high: i64) -> u64
    requires order { low ≤ℤ high }
    requires low_in { neg_ℤ (pos (2 ^ 40)) ≤ℤ low }
    requires high_in { high ≤ℤ pos (2 ^ 40) }
    ensures value { result ≡ count_of low high }
    ensures end { low +ℤ pos result ≡ high +ℤ pos 1 }
    ensures small { result ≤ 2 ^ 42 }
{
    (high - low) as u64 + 1
}
