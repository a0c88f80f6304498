//! Who is under way when the day ends.

ghost use Rattle.std.specs.{Option.option_to_list, Prelude.◌≡◌, Prelude.◌<◌, Prelude.length};
ghost use Rattle.town.specs.Views.{setup};
ghost use Rattle.traffic.specs.Persons.{same_vehicle, link_of_vehicle, stuck_at, stranded};

use events::{Mode, More, VehicleId, Word};
use person_moves::{World, link_of_stop, mode_in, person_of};
use rows::{Act, act_in};
use town::{DayInput, chosen_plan};
use traffic::{Occurrence, Place, Row};
use vehicles::of_person;

/// Whether two numbers are those of one vehicle.
fn same_vehicle(a: VehicleId, b: VehicleId) -> bool
    ensures { result ≡ same_vehicle a b }
{
    match a {
        VehicleId::Car(i) => match b {
            VehicleId::Car(j) => i == j,
            VehicleId::Transit(_) => false,
        },
        VehicleId::Transit(d) => match b {
            VehicleId::Car(_) => false,
            VehicleId::Transit(e) => d == e,
        },
    }
}

/// The link of the first row of a vehicle, which is 0 where there is none.
#[tactic(auto, unfolding(traffic::specs::Persons::link_of_vehicle))]
fn link_of_vehicle(vehicle: VehicleId, rows: &[Row]) -> u32
    ensures { result ≡ link_of_vehicle vehicle rows.now }
{
    let mut rest = rows;
    while let [row, later @ ..] = rest {
        if same_vehicle(row.vehicle.id, vehicle) {
            return row.link;
        }
        rest = later;
    }
    0
}

/// The link of a vehicle in a world, which is 0 where it has no row.
fn link_in(vehicle: VehicleId, world: &World) -> u32
    ensures { result ≡ link_of_vehicle vehicle world.now.rows }
{
    link_of_vehicle(vehicle, &world.rows)
}

/// The link on which a person at this place is stuck, where he is under way.
fn stuck_at(
    day: &DayInput,
    world: &World,
    i: u32,
    here: Act,
    mode: Mode,
    place: Place,
) -> Option<Occurrence>
    ensures { option_to_list result ≡ stuck_at (setup day.now) world.now i here mode place }
{
    let link = match place {
        Place::At { .. } => return None,
        Place::Teleporting { .. } => here.link,
        Place::Waiting { stop, .. } => link_of_stop(day, stop),
        Place::Riding { vehicle } => link_in(vehicle, world),
        Place::Aborted { .. } => return None,
    };
    Some(of_person(Word::StuckAndAbort, i, link, More::Mode(mode)))
}

/// What the end of the day tells of a person: that he is stuck, where he is under way.
pub fn stranded(day: &DayInput, i: u32, world: &World) -> Option<Occurrence>
    requires there { i < length day.now.chosen.now }
    requires persons { length world.now.persons ≡ length day.now.chosen.now }
    ensures { option_to_list result ≡ stranded (setup day.now) world.now i }
{
    let plan = chosen_plan(day, i);
    let person = person_of(world, i);
    let here = act_in(plan, person.element);
    let mode = mode_in(plan, person.element);
    stuck_at(day, world, i, here, mode, person.place)
}
