//! How the steps of a core stand to the orders in which the partitions of a day may advance: they are the same orders, and what the day
//! says that each partition holds, has told and has sent is what the state has that such an order reaches. Each law is the contract of a
//! call that does nothing.
#![tactic(auto)]

ghost use Rattle.std.specs.Prelude.{◌≡◌, ◌≤◌, ℕ, List};
ghost use Rattle.events.specs.declared.event.Event.{Event};
ghost use Rattle.limits.specs.declared.TheConstants.{MAX_PARTITIONS, LAST_SECOND};
ghost use Rattle.traffic.specs.Setup.{Setup};
ghost use Rattle.law_sound_setups.specs.{Consistent.IsConsistentSetup, Setups.IsSoundSetup};
ghost use Rattle.parts.specs.{Core.Core, Core.Reaches, Owners.Owner, Parts.Held, Parts.Parcel};
ghost use Rattle.law_partitions.specs.{Laws.IsOwner, Whole.rule, Whole.start_of};
ghost use Rattle.step_core.specs.Nets.{IsNet, ComesTo};
ghost use Rattle.law_steps.specs.Steps.{net_of, IsReached, IsKept};

/// Neighbours and lags of a day's partitions are such as a core asks for.
pub fn days_are_nets()
    ensures { (S : Setup) (own : Owner) (parts end : ℕ) → IsSoundSetup S → IsConsistentSetup S → IsOwner own parts
        → parts ≤ MAX_PARTITIONS → end ≤ LAST_SECOND → IsNet (net_of S own parts end) }
{}

/// A list of allowed events that leads from the start to a state is an order in which the partitions may step, and they have then done as
/// many seconds as in that state. And an order in which they may step leads to a state in which they have done as many.
pub fn steps_are_interleavings()
    ensures there { (S : Setup) (own : Owner) (parts end : ℕ) (ps : List ℕ) (c : Core Held Parcel Event)
        → Reaches (rule S own parts) end ps (start_of S own) c → ComesTo (net_of S own parts end) ps (λ _. 0) c.done }
    ensures back { (S : Setup) (own : Owner) (parts end : ℕ) (ps : List ℕ) (d : ℕ → ℕ)
        → ComesTo (net_of S own parts end) ps (λ _. 0) d → IsReached S own parts end ps d }
{}

/// Whatever the order, that state has in each part what the day gives it at its own done seconds, in each box the parcels that were sent
/// and not absorbed, and what belongs to each partition is told.
pub fn orders_make_the_day()
    ensures { (S : Setup) (own : Owner) (parts end : ℕ) (ps : List ℕ) (d : ℕ → ℕ) → IsSoundSetup S → IsConsistentSetup S
        → IsOwner own parts → ComesTo (net_of S own parts end) ps (λ _. 0) d → IsKept S own parts end ps d }
{}
