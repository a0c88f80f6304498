//! What holds of values, of scores and of the order of events: each the contract of a call that does
//! nothing.

ghost use Rattle.std.specs.{Prelude.◌∷◌, Prelude.◌++◌, Prelude.length, Prelude.true, Prelude.map, Prelude.filter, Prelude.All};
ghost use Rattle.std.specs.{Int.w64};
ghost use Rattle.std.specs.Prelude.{◌≡◌, ◌+◌, ◌*◌, ◌-◌, ◌<◌, ◌≤◌, ℕ, ℤ, pos, neg_ℤ, ◌+ℤ◌};
ghost use Rattle.std.specs.Prelude.{◌-ℤ◌, ◌*ℤ◌, ◌≤ℤ◌, ◌<ℤ◌, FitsSigned, List, []};
ghost use Rattle.events.specs.{Persons.is_step, declared.event.Event.Event};
ghost use Rattle.limits.specs.declared.TheConstants.{MAX_PERSONS};
ghost use Rattle.scoring.specs.{Points.Point, Points.are_rising, Points.are_climbing, Points.on_line, Points.value, Ranges.IsWithin};
ghost use Rattle.scoring.specs.{Score.total, Score.score, Tables.ScoringRows, Turns.InTurn, Worked.home, Worked.home_points};
ghost use Rattle.scoring.specs.Worked.{falling_points, no_tables, two_tables, strict_tables, walk, drive, passenger, left_behind, commute};
ghost use Rattle.scoring.specs.{Worked.to_work, Worked.stuck_in_the_evening, declared.TheConstants.MAX_SCORE};

/// The value at the second of a point is what is reached there; before the first point and behind
/// the last one it stays; and where no point is lower than the one before it, no later second has a
/// lower value.
pub fn values_follow_points()
    ensures exact { (before later : List Point) (p : Point) → are_rising (before ++ p ∷ later) ≡ true
        → value (before ++ p ∷ later) p.0 ≡ p.1 }
    ensures first { (p : Point) (later : List Point) (second : ℕ) → are_rising (p ∷ later) ≡ true
        → second ≤ p.0 → value (p ∷ later) second ≡ p.1 }
    ensures last { (before : List Point) (p : Point) (second : ℕ) → are_rising (before ++ p ∷ []) ≡ true
        → p.0 ≤ second → value (before ++ p ∷ []) second ≡ p.1 }
    ensures climbing { (points : List Point) (second later : ℕ) → are_rising points ≡ true
        → are_climbing points ≡ true → second ≤ later → value points second ≤ℤ value points later }
{}

/// Between two points the value is the height of the straight line from one to the other, rounded
/// down: no more than the line, and less than one below it.
pub fn values_round_down()
    ensures line { (before later : List Point) (a b : Point) (second : ℕ)
        → are_rising (before ++ a ∷ b ∷ later) ≡ true → a.0 ≤ second → second < b.0
        → value (before ++ a ∷ b ∷ later) second ≡ on_line a b second }
    ensures down { (a b : Point) (second : ℕ) → a.0 ≤ second → second < b.0
        → ((on_line a b second -ℤ a.1) *ℤ pos (b.0 - a.0)) ≤ℤ ((b.1 -ℤ a.1) *ℤ pos (second - a.0)) }
    ensures near { (a b : Point) (second : ℕ) → a.0 ≤ second → second < b.0
        → ((b.1 -ℤ a.1) *ℤ pos (second - a.0)) <ℤ ((on_line a b second -ℤ a.1 +ℤ pos 1) *ℤ pos (b.0 - a.0)) }
{}

/// A score goes by the five words alone, and a front of events in turn is in turn.
pub fn other_events_do_not_score()
    ensures scores { (tables : ScoringRows) (first : ℕ) (events : List Event)
        → score tables first events ≡ score tables first (filter (λ (e : Event). is_step e.word) events) }
    ensures fronts { (events later : List Event) → InTurn (events ++ later) → InTurn events }
{}

/// The scores of as many persons as there may be add up within 64 bits, and so does each front of
/// them.
pub fn sums_of_scores_fit()
    ensures { (persons : List ℤ) → length persons ≤ MAX_PERSONS → All (IsWithin MAX_SCORE) persons
        → FitsSigned w64 (total persons) }
{}

/// Worked values and scores, computed from the definitions alone: what a table gives at three seconds, and one whose points fall at
/// another; the scores of a walk, a drive, a passenger and one left behind, without tables; those of a day at home, of a commute, of one
/// stuck on the way home and of one who stays at work, by two tables; and that of the commute where work begins late behind a second.
pub fn worked_scores()
    ensures climbing { map (value home_points) (21600 ∷ 1 ∷ 90000 ∷ [])
        ≡ pos 20000000 ∷ neg_ℤ (pos 19998149) ∷ pos 80000000 ∷ [] }
    ensures falling { value falling_points 1 ≡ pos 6 }
    ensures without_tables { map (score no_tables home) (walk ∷ drive ∷ passenger ∷ left_behind ∷ [])
        ≡ neg_ℤ (pos 83300) ∷ neg_ℤ (pos 18326) ∷ neg_ℤ (pos 236572) ∷ neg_ℤ (pos 279761400) ∷ [] }
    ensures with_tables { map (score two_tables home) ([] ∷ commute ∷ stuck_in_the_evening ∷ to_work ∷ [])
        ≡ pos 80000000 ∷ pos 126594366 ∷ neg_ℤ (pos 90681949) ∷ pos 93315007 ∷ [] }
    ensures late { score strict_tables home commute ≡ pos 126539366 }
{}
