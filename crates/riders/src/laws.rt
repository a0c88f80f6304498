//! What the service of a stop has to do with those who wait elsewhere on the link. The function does nothing: its contract is the law.

ghost use Rattle.std.specs.Prelude.{◌≡◌, ◌≢◌, ℕ, List};
ghost use Rattle.rows.specs.declared.settings.Dwelling.{Dwelling};
ghost use Rattle.traffic.specs.Stops.{next_call, boarding, left_behind, served_row};
ghost use Rattle.traffic.specs.{Vehicles.VehicleState, declared.world.Waiter.Waiter};
ghost use Rattle.riders.specs.Waiting.{AreWaiting, AreOnce, at_stop};

/// Of all who wait on a link, those at the stop that is served are all that matters there, and nobody else is changed: so each stop may
/// have a list of its own.
pub fn stops_keep_apart()
    ensures waiting { (s : ℕ) (ws : List Waiter) → AreOnce ws → AreWaiting (at_stop s ws) }
    ensures boarding { (v : VehicleState) (ws : List Waiter) → AreOnce ws → boarding v (at_stop (next_call v).stop ws)
        ≡ boarding v ws }
    ensures row { (D : Dwelling) (t l : ℕ) (v : VehicleState) (ws : List Waiter) → AreOnce ws
        → served_row D t l (at_stop (next_call v).stop ws) v ≡ served_row D t l ws v }
    ensures left { (v : VehicleState) (ws : List Waiter) → AreOnce ws
        → at_stop (next_call v).stop (left_behind v ws) ≡ left_behind v (at_stop (next_call v).stop ws) }
    ensures elsewhere { (v : VehicleState) (ws : List Waiter) (s : ℕ) → AreOnce ws → s ≢ (next_call v).stop
        → at_stop s (left_behind v ws) ≡ at_stop s ws }
    ensures once { (v : VehicleState) (ws : List Waiter) → AreOnce ws → AreOnce (left_behind v ws) }
{}
