//! Where a vehicle is on its route.

ghost use Rattle.std.specs.Prelude.{◌≡◌};
ghost use Rattle.traffic.specs.{Links.is_last, Nodes.next_link};

use traffic::Vehicle;

/// Whether a vehicle is at the last place of its route.
pub fn is_last(vehicle: &Vehicle) -> bool
    ensures { result ≡ is_last vehicle.now }
{
    vehicle.place as usize + 1 == vehicle.route.len()
}

/// The link after the one where the vehicle is.
pub fn next_link(vehicle: &Vehicle) -> u32
    ensures { result ≡ next_link vehicle.now }
{
    let place = vehicle.place as usize + 1;
    if place < vehicle.route.len() {
        return vehicle.route.rows[place];
    }
    0
}
