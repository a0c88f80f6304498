//! The laws. Each is the contract of a call that does nothing.

ghost use Rattle.std.specs.Prelude.{◌≡◌, ◌<◌, ◌≤◌, ◌+◌, ℕ, true, List, length, All};
ghost use Rattle.std.specs.List.{flat_map};
ghost use Rattle.limits.specs.declared.TheConstants.{LAST_SECOND, MAX_PERSONS};
ghost use Rattle.events.specs.{Lines.AreInBook, declared.event.Book.Book, declared.event.Phase.Phase};
ghost use Rattle.rows.specs.PlanRows.{PlanRows};
ghost use Rattle.town.specs.{Fits.fits, Rows.TownRows, Rows.IsTown, Setups.setup_of, Views.setup, Views.ChosenFit};
ghost use Rattle.town.specs.declared.day_input.DayInput.{DayInput};
ghost use Rattle.traffic.specs.Day.{turns_of, count_of, turns_in, moves_of, through, keyed, world_start, world_at, day};
ghost use Rattle.traffic.specs.{Moves.told, Moves.run, Nodes.next_link, Persons.stranded, Rows.World, Setup.Setup, Stops.next_call};
ghost use Rattle.traffic.specs.{Vehicles.VehicleState, Worlds.OnePlace, Worlds.Sound};
ghost use Rattle.traffic.specs.declared.{moves.Move.Move, stage.Stage.TheVariants.Buffer, world.Row.Row};
ghost use Rattle.law_in_range.specs.{Moves.AreFitMoves, Moves.IsBookOf, Rows.Counts, Rows.IsFitVehicle, Rows.IsFitRow, Rows.IsFitWorld};
ghost use Rattle.law_in_range.specs.Setups.{counts_of, counts_in, IsPlanIn, IsFitSetup, HasPlans, HasItsLinks};

/// The setup of a day in a town is fit, where each chosen plan fits the town; and the town's book names as many of each,
/// where it names the persons who have these plans.
pub fn towns_are_fit()
    ensures rows { (T : TownRows) (chosen : List PlanRows) (k : ℕ) → IsTown T → All (IsPlanIn T) chosen
        → IsFitSetup (counts_of T chosen) (setup_of T chosen k) }
    ensures setups { (day : DayInput) → ChosenFit day
        → IsFitSetup (counts_in day) (setup day) }
    ensures books { (day : DayInput) → length day.town.now.book.persons ≡ length day.chosen.now
        → IsBookOf (counts_in day) day.town.now.book }
{}

/// A fit vehicle has a next call within the limits; in a buffer it has a next link, which is there.
pub fn fit_rows_are_small()
    ensures calls { (z : Counts) (v : VehicleState) → IsFitVehicle z v → (next_call v).offset ≤ LAST_SECOND }
    ensures next { (z : Counts) (r : Row) → IsFitRow z r → r.stage ≡ Buffer
        → r.vehicle.place + 1 < length r.vehicle.route }
    ensures next_link { (z : Counts) (r : Row) → IsFitRow z r → r.stage ≡ Buffer
        → next_link r.vehicle < z.links }
{}

/// Every turn in a fit world makes fit moves: that of one person, departure, node or link, and those of a phase.
pub fn turns_are_fit()
    ensures one { (z : Counts) (S : Setup) (t n : ℕ) (p : Phase) (W : World) → IsFitSetup z S → IsFitWorld z W
        → n < count_of S p → AreFitMoves z (turns_of S t p n W) }
    ensures all { (z : Counts) (S : Setup) (t : ℕ) (p : Phase) (W : World) → IsFitSetup z S → IsFitWorld z W
        → AreFitMoves z (moves_of (turns_in S t p W)) }
{}

/// Fit moves keep a world fit.
pub fn moves_keep_fit()
    ensures { (z : Counts) (S : Setup) (t : ℕ) (moves : List Move) (W : World) → IsFitSetup z S → IsFitWorld z W
        → AreFitMoves z moves → IsFitWorld z (run S t moves W) }
{}

/// The world of a day is fit at its start, after any phases, and after any seconds.
pub fn days_stay_fit()
    ensures start { (z : Counts) (S : Setup) → IsFitSetup z S → IsFitWorld z (world_start S) }
    ensures phases { (z : Counts) (S : Setup) (t : ℕ) (ps : List Phase) (W : World) → IsFitSetup z S → IsFitWorld z W
        → IsFitWorld z (through S t ps W) }
    ensures seconds { (z : Counts) (S : Setup) (t : ℕ) → IsFitSetup z S → IsFitWorld z (world_at S t) }
{}

/// What fit moves tell, who is under way when a day ends, and so all events of a day have their names in a book.
pub fn days_are_named()
    ensures moves { (z : Counts) (book : Book) (t code n index : ℕ) (moves : List Move) → IsBookOf z book
        → AreFitMoves z moves → AreInBook (keyed t code n index (flat_map told moves)) book }
    ensures stranded { (z : Counts) (book : Book) (S : Setup) (t code i index : ℕ) (W : World) → IsBookOf z book
        → IsFitSetup z S → IsFitWorld z W → i < z.persons → AreInBook (keyed t code i index (stranded S W i)) book }
    ensures day { (z : Counts) (book : Book) (S : Setup) → IsBookOf z book → IsFitSetup z S → AreInBook (day S) book }
    ensures towns { (d : DayInput) → ChosenFit d
        → length d.town.now.book.persons ≡ length d.chosen.now → AreInBook (day (setup d)) d.town.now.book }
{}

/// A world in which each person is in one place, and every row fits the plans and the timetable, is fit: so what a day needs
/// of its worlds follows from these two.
pub fn sound_worlds_are_fit()
    ensures setups { (z : Counts) (S : Setup) (W : World) → IsFitSetup z S → HasPlans z S → z.persons ≤ MAX_PERSONS
        → HasItsLinks S W → OnePlace S W → Sound S W → IsFitWorld z W }
    ensures towns { (day : DayInput) (W : World)
        → ChosenFit day
        → length day.town.now.book.persons ≡ length day.chosen.now
        → HasItsLinks (setup day) W → OnePlace (setup day) W → Sound (setup day) W → IsFitWorld (counts_in day) W }
{}
