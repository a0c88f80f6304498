//! What holds of replanning in a town: plans that fit it are replanned to plans that fit it, and memories of it stay memories of it. Each
//! law is the contract of a call that does nothing.
#![tactic(auto)]

ghost use Rattle.std.specs.Prelude.{◌≡◌, ◌<◌, ◌≤◌, ℕ, List, length, true, All};
ghost use Rattle.limits.specs.declared.TheConstants.{LAST_SECOND, MAX_PLANS};
ghost use Rattle.draws.specs.Words.{Source};
ghost use Rattle.rows.specs.{Joined.ends_of, PlanRows.PlanRows};
ghost use Rattle.town.specs.{Fits.fits, Rows.TownRows, Rows.IsTown};
ghost use Rattle.walks.specs.{Arrivals.Arrivals, Arrivals.IsFifo, Walks.AreWithin};
ghost use Rattle.plan_memory.specs.Memories.{MemoryRows, first_memory, chosen_plan};
ghost use Rattle.replanning.specs.{Acts.mutated_plan, Legs.rerouted_plan, Persons.Basis, Persons.all_replanned};
ghost use Rattle.law_in_range.specs.Setups.{IsPlanIn};
ghost use Rattle.law_replanning.specs.{Memories.IsMemoryIn, Memories.all_hold_fitting, Towns.graph_in, Towns.IsBasisIn};

/// A copy of a plan that fits a town fits it too, with new routes by any travel times by which nobody overtakes, and with the ends of its
/// activities moved; and a day of the town can be made of it.
pub fn new_plans_fit()
    ensures rerouted { (T : TownRows) (arrive : Arrivals) (plan : PlanRows) → IsFifo arrive
        → AreWithin (length T.nodes) (ends_of T.links)
        → fits T plan ≡ true → fits T (rerouted_plan (graph_in T) arrive plan) ≡ true }
    ensures mutated { (T : TownRows) (range end : ℕ) (words : Source) (plan : PlanRows)
        → fits T plan ≡ true → fits T (mutated_plan range end words plan) ≡ true }
    ensures rerouted_in { (T : TownRows) (arrive : Arrivals) (plan : PlanRows) → IsFifo arrive
        → AreWithin (length T.nodes) (ends_of T.links)
        → IsPlanIn T plan → IsPlanIn T (rerouted_plan (graph_in T) arrive plan) }
    ensures mutated_in { (T : TownRows) (range end : ℕ) (words : Source) (plan : PlanRows) → end ≤ LAST_SECOND
        → IsPlanIn T plan → IsPlanIn T (mutated_plan range end words plan) }
{}

/// Persons of a town who have memories of it have such still when they have replanned, as many as before. At first each has one to five
/// plans, and the chosen plan is one of which a day of the town can be made.
pub fn memories_stay_in_their_town()
    ensures stay { (T : TownRows) (basis : Basis) (memories : List MemoryRows) → IsTown T → IsBasisIn T basis
        → All (IsMemoryIn T) memories → All (IsMemoryIn T) (all_replanned basis memories) }
    ensures fit { (T : TownRows) (basis : Basis) (memories : List MemoryRows) → IsTown T → IsBasisIn T basis
        → all_hold_fitting T memories ≡ true → all_hold_fitting T (all_replanned basis memories) ≡ true }
    ensures count { (basis : Basis) (memories : List MemoryRows) → length (all_replanned basis memories) ≡ length memories }
    ensures first { (T : TownRows) (plans : List PlanRows) → 1 ≤ length plans → length plans ≤ MAX_PLANS → All (IsPlanIn T) plans
        → IsMemoryIn T (first_memory plans) }
    ensures chosen { (T : TownRows) (m : MemoryRows) → IsMemoryIn T m → IsPlanIn T (chosen_plan m) }
{}
