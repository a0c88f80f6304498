//! What a partition holds is a world of its own, in which the persons that it lacks are nowhere; and what the partition does by itself in a
//! second are the turns of that world: of all persons, and of those departures, nodes and links that are its own. So what holds of any
//! world and of some of its nodes and links holds of a partition. Each law is the contract of a call that does nothing.
#![tactic(auto)]

ghost use Rattle.std.specs.Prelude.{ℕ, Bool, is_some};
ghost use Rattle.traffic.specs.{Rows.World, Setup.Setup};
ghost use Rattle.parts.specs.{Owners.Owner, Parts.Held, Parts.unheard};
ghost use Rattle.law_in_range.specs.{Rows.Counts, Rows.IsFitWorld, Setups.IsFitSetup};
ghost use Rattle.law_sound_setups.specs.{Consistent.IsConsistentSetup, Setups.IsSoundSetup};
ghost use Rattle.law_partitions.specs.Laws.{IsOwner};
ghost use Rattle.law_own_worlds.specs.{Days.FollowsTheDay, Days.StandsAsInTheDay, Making.IsKnown, Making.own_world};
ghost use Rattle.law_own_worlds.specs.OwnWorlds.{IsOwnWorld, IsSecondOf, StaysFit};

/// Before a second of a partition let a world have what it holds, with the places of the links that begin in it taken as it knows. Then its
/// turns of each phase are turns of that world, and after each phase the world that these make has what the partition holds; and it stays
/// fit.
pub fn own_worlds_do_their_seconds()
    ensures second { (S : Setup) (own : Owner) (p t : ℕ) (has : ℕ → Bool) (H : Held) (V : World) → IsOwnWorld S own p t has H V
        → IsSecondOf S own p t has H V }
    ensures fit { (z : Counts) (S : Setup) (own : Owner) (p t : ℕ) (V : World) → IsFitSetup z S → IsFitWorld z V
        → StaysFit z S own p t V }
{}

/// Whatever a partition holds, of persons and links that are there, is such a world. What it holds in a day is of such, whichever last
/// seconds of others it has not heard of: before a second and once it has absorbed what is due. Its world is fit where the day is.
pub fn parts_have_own_worlds()
    ensures made { (S : Setup) (own : Owner) (p t : ℕ) (H : Held) → IsKnown S own p H
        → IsOwnWorld S own p t (λ i. is_some (H.person i)) H (own_world S t H) }
    ensures known { (S : Setup) (own : Owner) (k : ℕ → ℕ → ℕ) (p t : ℕ) (z : Counts) → IsFitSetup z S
        → IsKnown S own p (unheard S own k p t) }
    ensures fit { (S : Setup) (own : Owner) (k : ℕ → ℕ → ℕ) (p t : ℕ) (z : Counts) → IsFitSetup z S
        → IsFitWorld z (own_world S t (unheard S own k p t)) }
{}

/// The second of its own world gives what the day says of a partition: what it holds next, what it tells, and what it sends to each. And in
/// the course of the second its own links have in that world what they have in the day, but for rows that are not due.
pub fn own_worlds_follow_the_day()
    ensures follows { (S : Setup) (own : Owner) (parts p t : ℕ) (z : Counts) → IsSoundSetup S → IsConsistentSetup S
        → IsOwner own parts → IsFitSetup z S → FollowsTheDay S own p t }
    ensures stands { (S : Setup) (own : Owner) (parts p t : ℕ) (z : Counts) → IsSoundSetup S → IsConsistentSetup S
        → IsOwner own parts → IsFitSetup z S → StandsAsInTheDay S own p t }
{}
