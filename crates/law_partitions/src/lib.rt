//! The laws of a day in parts: what a partition does by itself in a second, on what it holds and what
//! it absorbs, is what the day does there; so partitions may advance in any order that the lags allow,
//! some may always advance, and what they tell makes the day. Each law is the contract of a call that
//! does nothing. They hold of every setup that is sound and consistent, and of every way to give its
//! nodes to partitions.
#![tactic(auto)]

ghost use Rattle.std.specs.Prelude.{ℕ};
ghost use Rattle.traffic.specs.Setup.{Setup};
ghost use Rattle.law_sound_setups.specs.{Consistent.IsConsistentSetup, Setups.IsSoundSetup};
ghost use Rattle.parts.specs.Owners.{Owner};
ghost use Rattle.law_partitions.specs.Laws.{IsOwner, HasNeighbours, SecondsAreLocal, AdvanceInAnyOrder, MakeTheDay};

/// Neighbours are different partitions that are there, and lags are 1 to 32 s and no longer than what
/// crosses the border takes.
pub fn partitions_have_neighbours()
    ensures { (S : Setup) (own : Owner) (parts : ℕ) → IsSoundSetup S → IsConsistentSetup S → IsOwner own parts
        → HasNeighbours S own parts }
{}

/// A second of a partition: what it holds at the start is its part; absorbing the parcels that are due
/// makes what it holds ready; its second alone gives what it holds next, its parcels and its events are
/// those of the day.
pub fn seconds_are_local()
    ensures { (S : Setup) (own : Owner) (parts : ℕ) → IsSoundSetup S → IsConsistentSetup S → IsOwner own parts
        → SecondsAreLocal S own parts }
{}

/// In whatever order the lags allow partitions advance, each holds, has told and has sent what the day
/// says; each person is in one part or in one parcel that is not absorbed; some partition may always
/// advance, and as many allowed events as all have seconds bring all to the end.
pub fn partitions_advance_in_any_order()
    ensures { (S : Setup) (own : Owner) (parts : ℕ) → IsSoundSetup S → IsConsistentSetup S → IsOwner own parts
        → AdvanceInAnyOrder S own parts }
{}

/// What all partitions tell, merged by the keys, is the day.
pub fn parts_make_the_day()
    ensures { (S : Setup) (own : Owner) (parts : ℕ) → IsSoundSetup S → IsConsistentSetup S → IsOwner own parts
        → MakeTheDay S own parts }
{}
