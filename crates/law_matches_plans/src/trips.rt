//! Laws of a person's day: the events of his trips come in turn and follow his plan, and there are at most eight events
//! of him for each leg; and no event is past the end. Each is the contract of a call that does nothing.
ghost use Rattle.std.specs.Prelude.{◌≡◌, ℕ, ◌*◌, ◌<◌, ◌≤◌, List, [], ◌∷◌, ◌++◌, length, All};
ghost use Rattle.events.specs.{Persons.own_events, declared.event.Event.Event, declared.event.Word.TheVariants.StuckAndAbort};
ghost use Rattle.traffic.specs.{Day.day, Setup.Setup};
ghost use Rattle.law_sound_setups.specs.{Consistent.IsConsistentSetup, Setups.IsSoundSetup};
ghost use Rattle.law_matches_plans.specs.Trips.{IsPlanned, InTurn, anywhere, at_activities, steps, legs};

/// Of each person a day tells trip after trip, as his plan has them: activity k ends and leg k departs by its mode; then it
/// arrives by the same mode and activity k + 1 starts, or the person is stuck. After that nothing more is told of him. Where the
/// setup is sound and consistent, all but the last name the links of these activities.
pub fn events_come_in_turn()
    ensures turn { (S : Setup) (i : ℕ) → IsPlanned S i → i < length S.persons
        → InTurn anywhere S i 0 (steps i (day S)) }
    ensures places { (S : Setup) (i : ℕ) → IsSoundSetup S → IsConsistentSetup S → i < length S.persons
        → InTurn (at_activities S i) S i 0 (steps i (day S)) }
    ensures last { (S : Setup) (i : ℕ) (before later : List Event) (e : Event) → IsPlanned S i → i < length S.persons
        → own_events i (day S) ≡ before ++ e ∷ later → e.word ≡ StuckAndAbort → later ≡ [] }
{}

/// The plans of a sound setup are such: no activity ends but one that a leg comes after.
pub fn sound_plans_are_planned()
    ensures { (S : Setup) (i : ℕ) → IsSoundSetup S → i < length S.persons → IsPlanned S i }
{}

/// At most eight events of a day name a person for each leg of his plan.
pub fn few_events()
    ensures { (S : Setup) (i : ℕ) → IsPlanned S i → i < length S.persons
        → length (own_events i (day S)) ≤ 8 * legs S i }
{}

/// No event of a day has a second past the day's end.
pub fn events_are_in_time()
    ensures { (S : Setup) → All (λ (e : Event). e.key.second ≤ S.settings.end_second) (day S) }
{}
