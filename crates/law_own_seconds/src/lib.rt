//! In the course of a second of its own world a partition knows what its code goes by: how the places of the links are taken that begin in
//! it, how many vehicles leave each of its links, and that nobody is on the links of others before its nodes let vehicles pass. Each law is
//! the contract of a call that does nothing.
#![tactic(auto)]

ghost use Rattle.std.specs.Prelude.{ℕ};
ghost use Rattle.traffic.specs.Setup.{Setup};
ghost use Rattle.parts.specs.Owners.{Owner};
ghost use Rattle.law_in_range.specs.{Rows.Counts, Setups.IsFitSetup};
ghost use Rattle.law_sound_setups.specs.{Consistent.IsConsistentSetup, Setups.IsSoundSetup};
ghost use Rattle.law_partitions.specs.Laws.{IsOwner};
ghost use Rattle.law_own_seconds.specs.{Leaving.LeaveHoles, Others.OthersAreEmpty, Places.PlacesAreKnown};

/// As many places of the links that begin in a partition are taken in its own world as it knows by what it holds.
pub fn own_places_are_known()
    ensures { (S : Setup) (own : Owner) (parts p t : ℕ) (z : Counts) → IsSoundSetup S → IsConsistentSetup S → IsOwner own parts
        → IsFitSetup z S → PlacesAreKnown S own p t }
{}

/// As many vehicles leave the queue of a link in its own world as leave a hole there, and as a partition tells where that link begins.
pub fn vehicles_leave_own_links()
    ensures { (S : Setup) (own : Owner) (parts p t : ℕ) (z : Counts) → IsSoundSetup S → IsConsistentSetup S → IsOwner own parts
        → IsFitSetup z S → LeaveHoles S own p t }
{}

/// Before its nodes let vehicles pass nobody is on the links of other partitions in its own world: whoever sets out does so on its own.
pub fn other_links_are_empty()
    ensures { (S : Setup) (own : Owner) (parts p t : ℕ) (z : Counts) → IsSoundSetup S → IsConsistentSetup S → IsOwner own parts
        → IsFitSetup z S → OthersAreEmpty S own p t }
{}
