//! How the days of a run are computed: in how many partitions of the network, by how many workers.
#![tactic(auto)]

ghost use Rattle.std.specs.Prelude.{◌≤◌};
ghost use Rattle.limits.specs.declared.TheConstants.{MAX_PARTITIONS};

/// In how many partitions of the network each day is computed, and how many workers compute them. No answer depends on either.
#[derive(Clone, Copy)]
pub struct Spread {
    /// Among how many partitions the network is divided, from 1 to `limits::MAX_PARTITIONS`.
    pub partitions: u32,
    /// How many workers, each a thread, compute the partitions, from 1 to `limits::MAX_PARTITIONS`.
    pub workers: u32,
    pub ghost divided: { (1 ≤ partitions) × (partitions ≤ MAX_PARTITIONS) },
    pub ghost staffed: { (1 ≤ workers) × (workers ≤ MAX_PARTITIONS) },
}
