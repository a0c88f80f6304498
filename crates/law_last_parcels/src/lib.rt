//! Who is where when a day in parts ends: whoever is in a parcel that its receiver would absorb only later is in the day's world as the
//! parcel says, and whom a partition has rides on a link of its own. Each law is the contract of a call that does nothing.
#![tactic(auto)]

ghost use Rattle.std.specs.Prelude.{ℕ};
ghost use Rattle.traffic.specs.Setup.{Setup};
ghost use Rattle.law_in_range.specs.{Rows.Counts, Setups.IsFitSetup};
ghost use Rattle.law_sound_setups.specs.{Consistent.IsConsistentSetup, Setups.IsSoundSetup};
ghost use Rattle.parts.specs.Owners.{Owner};
ghost use Rattle.law_partitions.specs.Laws.{IsOwner};
ghost use Rattle.law_last_parcels.specs.Last.{LastAreSo, HasThem, EndsSo};

/// Until a parcel is absorbed nothing happens to those who are in it: they ride on the links that they entered, or fly since they set out.
pub fn last_parcels_are_still_so()
    ensures { (S : Setup) (own : Owner) (parts p t : ℕ) → IsSoundSetup S → IsConsistentSetup S → IsOwner own parts
        → LastAreSo S own p t }
{}

/// Whom a partition has after some seconds is as the day has him, and who of them rides is among the riders on the link of his vehicle, and
/// on no other.
pub fn riders_are_listed()
    ensures { (S : Setup) (own : Owner) (parts p t : ℕ) (z : Counts) → IsSoundSetup S → IsConsistentSetup S → IsOwner own parts
        → IsFitSetup z S → HasThem S own p t }
{}

/// The end of the day of a person belongs to a partition that has him, or that sent him in a parcel which is not absorbed, and to no other.
pub fn some_end_with_a_partition()
    ensures { (S : Setup) (own : Owner) (parts p i : ℕ) → IsOwner own parts → EndsSo S own parts p i }
{}
