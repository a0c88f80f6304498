//! What came to a partition before its second.

ghost use Rattle.std.specs.Prelude.{◌≡◌, ◌<◌, ◌++◌, [], ◌∷◌, Some, length, map, get_or, IfOk, OnOk};
ghost use Rattle.std.specs.List.{flat_map};
ghost use Rattle.law_partitions.specs.Alone.{person_in, riding};
ghost use Rattle.town.specs.Views.{setup};
ghost use Rattle.traffic.specs.declared.world.Place.TheVariants as place;
ghost use Rattle.part_seconds.specs.Contents.{parcel_of, freed_row};
ghost use Rattle.part_seconds.specs.Arriving.{Come, entering_by, entered, if_is, teleporting_in, all_riding};

use crate::contents::{Contents, FreedList, Moved, MovedList, TeleportedList};
use events::VehicleId;
use node_move::Entering;
use part_persons::Persons;
use std::alloc::AllocError;
use town::DayInput;
use traffic::{Person, Place, Rider, Vehicle};

/// A person of a parcel comes to the partition, if there is one of this number.
fn bring(
    day: &DayInput,
    person: u32,
    state: Person,
    persons: &mut Persons,
) -> Result<(), AllocError>
    requires plans { length persons.old.world.persons ≡ length day.now.chosen.now }
    requires wakes { length persons.old.wakes ≡ length persons.old.world.persons }
    ensures { OnOk result (Come day.now (λ i. if_is person i state) persons.old persons.new) }
{
    if (person as usize) < persons.world.persons.len() {
        persons.take_in(day, person, state)?;
    }
    Ok(())
}

/// The riders of a vehicle come with their elements.
fn bring_riders(
    day: &DayInput,
    vehicle: VehicleId,
    riders: &[Rider],
    elements: &[u32],
    persons: &mut Persons,
) -> Result<(), AllocError>
    requires plans { length persons.old.world.persons ≡ length day.now.chosen.now }
    requires wakes { length persons.old.wakes ≡ length persons.old.world.persons }
    ensures { OnOk result (Come day.now (λ i. riding i vehicle riders.now elements.now) persons.old persons.new) }
{
    for place in 0..riders.len().min(elements.len()) {
        let person = Person {
            element: elements[place],
            place: Place::Riding { vehicle },
        };
        bring(day, riders[place].person, person, persons)?;
    }
    Ok(())
}

/// The same of a vehicle.
fn bring_riders_of(
    day: &DayInput,
    vehicle: &Vehicle,
    elements: &[u32],
    persons: &mut Persons,
) -> Result<(), AllocError>
    requires plans { length persons.old.world.persons ≡ length day.now.chosen.now }
    requires wakes { length persons.old.wakes ≡ length persons.old.world.persons }
    ensures { OnOk result (Come day.now (λ i. riding i vehicle.now.id vehicle.now.riders elements.now) persons.old persons.new) }
{
    bring_riders(day, vehicle.id, &vehicle.riders.rows, elements, persons)
}

/// The link of a vehicle: that of its place on its route.
pub fn link_of(vehicle: &Vehicle) -> u32
    ensures { result ≡ get_or vehicle.now.route vehicle.now.place 0 }
{
    let place = vehicle.place as usize;
    if place < vehicle.route.rows.len() {
        return vehicle.route.rows[place];
    }
    0
}

/// A vehicle comes to its link, with its riders.
fn bring_vehicle(
    day: &DayInput,
    moved: Moved,
    persons: &mut Persons,
    entering: &mut Vec<Entering>,
) -> Result<(), AllocError>
    requires plans { length persons.old.world.persons ≡ length day.now.chosen.now }
    requires wakes { length persons.old.wakes ≡ length persons.old.world.persons }
    ensures persons { OnOk result (Come day.now
        (λ i. riding i moved.vehicle.id moved.vehicle.riders moved.elements) persons.old persons.new) }
    ensures entering { OnOk result (entering.new.items ≡ entering.old.items ++ entering_by moved ∷ []) }
{
    let Moved { vehicle, elements } = moved;
    bring_riders_of(day, &vehicle, &elements.rows, persons)?;
    let link = link_of(&vehicle);
    entering.push(Entering { link, vehicle })?;
    Ok(())
}

/// So do all of these.
fn bring_vehicles(
    day: &DayInput,
    vehicles: MovedList,
    persons: &mut Persons,
    entering: &mut Vec<Entering>,
) -> Result<(), AllocError>
    requires plans { length persons.old.world.persons ≡ length day.now.chosen.now }
    requires wakes { length persons.old.wakes ≡ length persons.old.world.persons }
    ensures persons { OnOk result (Come day.now (λ i. all_riding i vehicles) persons.old persons.new) }
    ensures entering { OnOk result (entering.new.items ≡ entering.old.items ++ map entering_by vehicles) }
{
    for moved in vehicles.rows {
        bring_vehicle(day, moved, persons, entering)?;
    }
    Ok(())
}

/// Those come who set out in this second.
fn bring_teleported(
    day: &DayInput,
    second: u32,
    teleported: TeleportedList,
    persons: &mut Persons,
) -> Result<(), AllocError>
    requires plans { length persons.old.world.persons ≡ length day.now.chosen.now }
    requires wakes { length persons.old.wakes ≡ length persons.old.world.persons }
    ensures { OnOk result (Come day.now (λ i. flat_map (teleporting_in i second) teleported) persons.old persons.new) }
{
    for sent in teleported.rows {
        let person = Person {
            element: sent.element,
            place: Place::Teleporting { start: second },
        };
        bring(day, sent.person, person, persons)?;
    }
    Ok(())
}

/// What was in a parcel of this second comes: persons to the partition, and to `entering` the vehicles that come to its links, in
/// order. Answers how many vehicles left the queues of links that begin here.
///
/// # Errors
///
/// `AllocError`: there is no memory for the persons or the vehicles. They are then of no use.
pub fn arrive(
    day: &DayInput,
    second: u32,
    contents: Contents,
    persons: &mut Persons,
    entering: &mut Vec<Entering>,
) -> Result<FreedList, AllocError>
    requires plans { length persons.old.world.persons ≡ length day.now.chosen.now }
    requires wakes { length persons.old.wakes ≡ length persons.old.world.persons }
    ensures persons { OnOk result (Come day.now
        (λ i. person_in i second (Some (parcel_of (setup day.now) second contents))) persons.old persons.new) }
    ensures entering { OnOk result (entering.new.items
        ≡ entering.old.items ++ map entered (parcel_of (setup day.now) second contents).vehicles) }
    ensures freed { IfOk result (λ freed. map freed_row freed ≡ (parcel_of (setup day.now) second contents).freed) }
{
    let Contents {
        vehicles,
        teleported,
        freed,
    } = contents;
    bring_vehicles(day, vehicles, persons, entering)?;
    bring_teleported(day, second, teleported, persons)?;
    Ok(freed)
}
