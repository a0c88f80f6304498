//! What holds of every run. Each law is the contract of a call that does nothing.

ghost use Rattle.std.specs.Prelude.{◌≡◌, ◌≤◌, ◌++◌, ℕ, suc, List, length, All};
ghost use Rattle.edge_files.specs.{Keeping.kept_of, declared.effects.Effect.Effect};
ghost use Rattle.events.specs.declared.event.Event.{Event};
ghost use Rattle.keep.specs.{Fitting.AreRowsOf, Fitting.IsForeignAt, Kept.kept_rows};
ghost use Rattle.law_in_range.specs.Setups.{IsPlanIn};
ghost use Rattle.law_replanning.specs.Memories.{IsMemoryIn};
ghost use Rattle.learning.specs.Ranges.{AreInRange};
ghost use Rattle.plan_memory.specs.Memories.{MemoryRows};
ghost use Rattle.rows.specs.declared.network.LinkRow.{LinkRow};
ghost use Rattle.town.specs.Rows.{IsTown};
ghost use Rattle.walks.specs.Arrivals.{IsFifo};
ghost use Rattle.iterations.specs.{Acts.memories_at, Acts.iterations_effects, Acts.acts, Continued.continued, Continued.GoesOn};
ghost use Rattle.iterations.specs.Days.{followed_plans, events_of, memories_after, seen_arrivals};
ghost use Rattle.iterations.specs.Runs.{RunRows, until, IsRun};

/// In every iteration as many persons as at first have memories of the town, and a day of it can be made of the plans that they follow.
/// By the travel times that a day shows nobody overtakes.
pub fn memories_stay_in_their_town()
    ensures memories { (R : RunRows) (first : List MemoryRows) (k : ℕ) → IsTown R.town → AreInRange R.learning
        → All (IsMemoryIn R.town) first → All (IsMemoryIn R.town) (memories_at R first k) }
    ensures followed { (R : RunRows) (first : List MemoryRows) (k : ℕ) → IsTown R.town → AreInRange R.learning
        → All (IsMemoryIn R.town) first → All (IsPlanIn R.town) (followed_plans (memories_at R first k)) }
    ensures everybody { (R : RunRows) (first : List MemoryRows) (k : ℕ) → length (memories_at R first k) ≡ length first }
    ensures fifo { (links : List LinkRow) (events : List Event) → IsFifo (seen_arrivals links events) }
{}

/// A run does what it does up to an iteration, and then what a run does that goes on from what is remembered after it; and so it is where
/// it goes on to another last iteration. A score changes nothing of the day on which it was had.
pub fn runs_go_on_from_what_is_kept()
    ensures tail { (R : RunRows) (first : List MemoryRows) (k : ℕ) → k ≤ R.last_iteration
        → acts R first ≡ iterations_effects R 0 first (suc k) ++ continued R k (memories_after R k (memories_at R first k)) }
    ensures further { (R : RunRows) (last : ℕ) (first : List MemoryRows) (k : ℕ) → k ≤ last
        → acts (until R last) first
        ≡ iterations_effects R 0 first (suc k) ++ continued (until R last) k (memories_after R k (memories_at R first k)) }
    ensures again { (R : RunRows) (k : ℕ) (memories : List MemoryRows)
        → events_of R k (memories_after R k memories) ≡ events_of R k memories }
{}

/// What a run keeps after an iteration is read back, and never foreign to it: a run that goes on from it, to this last iteration or to
/// another one, does what is left of the run, and nothing else.
pub fn runs_resume_where_they_were_stopped()
    ensures resumed { (R : RunRows) (last : ℕ) (first : List MemoryRows) (k : ℕ) (effects : List Effect)
        → IsRun R first → k ≤ last
        → GoesOn (until R last) (kept_of k (kept_rows R.town.book (memories_after R k (memories_at R first k)))) effects
        → acts (until R last) first ≡ iterations_effects R 0 first (suc k) ++ effects }
    ensures read_back { (R : RunRows) (first : List MemoryRows) (k : ℕ) → IsRun R first
        → AreRowsOf R.town (kept_rows R.town.book (memories_after R k (memories_at R first k)))
        (memories_after R k (memories_at R first k)) }
    ensures never_foreign { (R : RunRows) (first : List MemoryRows) (k place : ℕ) → IsRun R first
        → IsForeignAt R.town (kept_rows R.town.book (memories_after R k (memories_at R first k))) place → ⊥ }
{}
