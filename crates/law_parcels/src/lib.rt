//! What partitions of a day send to one another, said as a program makes it: a parcel out of the own world of a partition once its second
//! is over, and what absorbing parcels one after the other makes of what it holds. Each law is the contract of a call that does nothing.
#![tactic(auto)]

ghost use Rattle.std.specs.Prelude.{ℕ, List};
ghost use Rattle.traffic.specs.Setup.{Setup};
ghost use Rattle.law_in_range.specs.{Rows.Counts, Setups.IsFitSetup};
ghost use Rattle.law_sound_setups.specs.{Consistent.IsConsistentSetup, Setups.IsSoundSetup};
ghost use Rattle.parts.specs.Owners.{Owner};
ghost use Rattle.law_partitions.specs.Laws.{IsOwner};
ghost use Rattle.law_parcels.specs.Hearing.{HearsFrom, IsReadyBy, IsBetween};
ghost use Rattle.law_parcels.specs.{Sending.SendsParcels, Worlds.TakesIn, Worlds.LetsGo};

/// After its second a partition sends to each other one the vehicles on that one's links, as they stand in its own world with their riders,
/// the flights of those who set out to it, and the places that came to be left on links that begin there; and it has all whom its own world
/// has, but for the riders and for those who fly to others.
pub fn seconds_send_parcels()
    ensures { (S : Setup) (own : Owner) (parts p t : ℕ) (z : Counts) → IsSoundSetup S → IsConsistentSetup S
        → IsOwner own parts → IsFitSetup z S → SendsParcels S own p t }
{}

/// A partition that puts what the parcels of its neighbours bring to what it holds, one parcel after the other, has what it has to have
/// before its second.
pub fn parcels_make_ready()
    ensures ready { (S : Setup) (own : Owner) (parts p t : ℕ) (ns : List ℕ) → IsSoundSetup S → IsConsistentSetup S
        → IsOwner own parts → HearsFrom S own p ns → IsReadyBy S own p t ns }
    ensures between { (S : Setup) (own : Owner) (q p s : ℕ) → IsBetween S own q p s }
{}

/// So the own world of a partition goes on from one second to the next: by what absorbing puts to it, and by who goes from it when the
/// second is over; who waits at stops, and how many places are taken as far as it knows, stays as it is.
pub fn own_worlds_go_on()
    ensures takes_in { (S : Setup) (own : Owner) (parts p t : ℕ) (z : Counts) (ns : List ℕ) → IsSoundSetup S → IsConsistentSetup S
        → IsOwner own parts → IsFitSetup z S → HearsFrom S own p ns → TakesIn S own p t ns }
    ensures lets_go { (S : Setup) (own : Owner) (parts p t : ℕ) (z : Counts) → IsSoundSetup S → IsConsistentSetup S
        → IsOwner own parts → IsFitSetup z S → LetsGo S own p t }
{}
