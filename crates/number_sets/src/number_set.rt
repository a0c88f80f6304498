//! A set of small numbers: what is put into it, taken out of it and asked of it.

ghost use Rattle.std.specs.Prelude.{◌≡◌, ℕ, ◌<◌, ◌≤◌, true, false, if◌then◌else◌, ◌==◌, IfNone, IfSome};
ghost use Rattle.number_sets.specs.{Sets.has, Sets.IsNext, declared.TheConstants.CAPACITY};

use crate::CAPACITY;
use std::marker::Model;

/// A set of numbers below 64. Contracts see it as the number that has a bit for each of them.
#[derive(Drop)]
pub struct NumberSet {
    bits: u64,
}

impl Model for NumberSet {
    ghost use Rattle.std.specs.Prelude.{ℕ};
    ghost use Rattle.number_sets.specs.Sets.{IsSet};

    ghost Value = { ℕ };

    ghost view = { λ s. s.bits };

    ghost invariant = { λ s. IsSet s.bits };
}

impl NumberSet {
    /// The set without a number.
    pub fn new() -> NumberSet
        ensures { (k : ℕ) → has result k ≡ false }
    {
        NumberSet { bits: 0 }
    }

    /// Whether no number is in the set.
    pub fn is_empty(&self) -> bool
        ensures none { result ≡ true → (k : ℕ) → has self.now k ≡ false }
        ensures empty { ((k : ℕ) → has self.now k ≡ false) → result ≡ true }
    {
        self.bits == 0
    }

    /// The number is in the set.
    pub fn insert(&mut self, number: u32)
        requires { number < CAPACITY }
        ensures { (k : ℕ) → has self.new k ≡ (if k == number then true else has self.old k) }
    {
        self.bits |= 1u64 << number;
    }

    /// The number is not in the set any more.
    pub fn remove(&mut self, number: u32)
        requires { number < CAPACITY }
        ensures { (k : ℕ) → has self.new k ≡ (if k == number then false else has self.old k) }
    {
        self.bits &= !(1u64 << number);
    }

    /// The least number of the set from this one on.
    pub fn next(&self, from: u32) -> Option<u32>
        ensures none { IfNone result ((k : ℕ) → from ≤ k → has self.now k ≡ false) }
        ensures some { IfSome result (IsNext self.now from) }
    {
        let bits = self.bits;
        if from >= CAPACITY {
            return None;
        }
        let rest = bits & (u64::MAX << from);
        if rest == 0 {
            return None;
        }
        Some(rest.trailing_zeros())
    }
}
