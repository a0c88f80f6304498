//! The laws of places: in every second of a day each person is in exactly one place. Who rides is
//! listed once, and that in the vehicle that his own row names; nobody else is listed anywhere. And
//! each transit vehicle is in one place.
#![tactic(auto)]

ghost use Rattle.std.specs.Prelude.{ℕ, ◌≤◌, length};
ghost use Rattle.events.specs.declared.event.VehicleId.TheVariants.{Transit};
ghost use Rattle.traffic.specs.{Day.second, Day.world_start, Day.world_at, Rows.World, Setup.Setup, Worlds.OnePlace, Worlds.rows_of};

/// Each person is in exactly one place, in every second of every day.
pub fn days_keep_one_place()
    ensures start { (S : Setup) → OnePlace S (world_start S) }
    ensures kept { (S : Setup) (t : ℕ) (W : World) → OnePlace S W → OnePlace S (second S t W) }
    ensures always { (S : Setup) (t : ℕ) → OnePlace S (world_at S t) }
{}

/// No transit vehicle stands in two rows, in every second of every day.
pub fn transit_vehicles_stand_once()
    ensures { (S : Setup) (t d : ℕ) → length (rows_of (Transit d) (world_at S t).rows) ≤ 1 }
{}
