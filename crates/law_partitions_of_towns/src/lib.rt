//! The laws of a day in parts, of towns: they hold of every town, of every choice of plans that fit it,
//! and of every way to give its nodes to partitions.
#![tactic(auto)]

ghost use Rattle.std.specs.Prelude.{◌≡◌, ℕ, true, List, All, map};
ghost use Rattle.rows.specs.PlanRows.{PlanRows};
ghost use Rattle.town.specs.Rows.{TownRows, IsTown};
ghost use Rattle.town.specs.{Setups.setup_of, Views.setup, Views.ChosenFit, declared.day_input.DayInput.DayInput};
ghost use Rattle.law_in_range.specs.{Rows.IsFitWorld, Setups.IsPlanIn, Setups.counts_in};
ghost use Rattle.parts.specs.Owners.{Owner};
ghost use Rattle.traffic.specs.Lists.{below};
ghost use Rattle.law_partitions.specs.{Laws.IsOwner, Laws.GoesInParts, Whole.all_told};
ghost use Rattle.law_own_worlds.specs.Days.{FollowsTheDay, StandsAsInTheDay, world_before};
ghost use Rattle.event_merge.specs.Lists.{CanMerge};
ghost use Rattle.partition.specs.{Owned.owner_in, declared.owner.Owner.Owner as OwnerOfNodes};

/// The day of a town in parts: a partition's second is that of the day there; in whatever order the lags
/// allow partitions advance, each holds, has told and has sent what the day says, and each person is in
/// one part or in one parcel that is not absorbed; some may always advance, and all come to the end;
/// and what they tell, merged, is the day.
pub fn towns_go_in_parts()
    ensures rows { (T : TownRows) (chosen : List PlanRows) (k : ℕ) (own : Owner) (parts : ℕ) → IsTown T
        → All (IsPlanIn T) chosen → IsOwner own parts → GoesInParts (setup_of T chosen k) own parts }
    ensures towns { (day : DayInput) (own : Owner) (parts : ℕ)
        → ChosenFit day → IsOwner own parts
        → GoesInParts (setup day) own parts }
{}

/// The same of every list of the nodes' partitions, as a network cut by halves has one; and what its partitions tell can be merged.
pub fn divided_towns_go_in_parts()
    ensures parts { (day : DayInput) (owner : OwnerOfNodes) → ChosenFit day
        → GoesInParts (setup day) (owner_in owner.of_node) owner.parts }
    ensures lists { (day : DayInput) (owner : OwnerOfNodes) → ChosenFit day
        → CanMerge (map (all_told (setup day) (owner_in owner.of_node) owner.parts) (below owner.parts)) }
{}

/// The own world of each partition, before each second: what its second makes of it is what the day says of the partition, in the course of
/// the second its own links have there what they have in the day but for rows that are not due, and all in it is in range.
pub fn divided_towns_have_own_worlds()
    ensures follows { (day : DayInput) (owner : OwnerOfNodes) (p t : ℕ) → ChosenFit day
        → FollowsTheDay (setup day) (owner_in owner.of_node) p t }
    ensures stands { (day : DayInput) (owner : OwnerOfNodes) (p t : ℕ) → ChosenFit day
        → StandsAsInTheDay (setup day) (owner_in owner.of_node) p t }
    ensures fit { (day : DayInput) (owner : OwnerOfNodes) (p t : ℕ) → ChosenFit day
        → IsFitWorld (counts_in day) (world_before (setup day) (owner_in owner.of_node) p t) }
{}
