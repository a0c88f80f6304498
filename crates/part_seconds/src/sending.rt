//! To whom vehicles, teleported persons and freed places go.

ghost use Rattle.std.specs.Prelude.{◌≡◌, ◌<◌, ◌++◌, [], ◌∷◌, length, map, get_or, OnOk, IfOk};
ghost use Rattle.std.specs.List.{flat_map};
ghost use Rattle.parts.specs.Owners.{begins_in};
ghost use Rattle.partition.specs.Owned.{owner_in};
ghost use Rattle.step_core.specs.Exchanges.{Ascend};
ghost use Rattle.town.specs.Views.{setup};
ghost use Rattle.traffic.specs.{Rows.nobody, Setup.row_at};
ghost use Rattle.part_seconds.specs.Sending.{changed_at, with_vehicles, with_teleported, with_freed, with_item, element_of, number_of};
ghost use Rattle.part_seconds.specs.Sending.{riders_of, moved_of, teleports_to, teleported_of, if_teleports, vehicle_place};
ghost use Rattle.part_seconds.specs.Sending.{teleported_place, freed_place, AreMore, more_vehicles, more_teleported, more_freed};

use crate::borders::place_of;
use crate::contents::{FreedPlaces, Moved, ParcelItem, Teleported};
use crate::mailbox::Mailbox;
use events::Rows;
use lists::push_with_room;
use node_move::Entering;
use partition::{Owner, owner_of_link, owner_of_node};
use rows::{LinkList, act_after};
use std::alloc::{AllocError, Global};
use step_core::Border;
use town::{DayInput, chosen_plan};
use traffic::{Person, Place, Rider, Vehicle};

/// Which partition sends in a day, and to whom.
#[derive(Clone, Copy)]
pub struct Exits<'a> {
    /// The town and the chosen plans of the day.
    pub day: &'a DayInput<'a>,
    /// To which partition each node belongs.
    pub owner: &'a Owner,
    /// The partition that sends.
    pub partition: u32,
    /// Its neighbours, ascending.
    pub borders: &'a [Border],
    pub ghost ascend: { Ascend borders.now },
}

/// The node at which a link begins; a number that is no link begins at node 0.
fn begin_node(links: &LinkList, link: u32) -> u32
    ensures { result ≡ (row_at links.now link).from }
{
    let place = link as usize;
    if place < links.rows.len() {
        return links.rows[place].from;
    }
    0
}

/// The partition in which a link begins.
#[tactic(auto, unfolding(town::specs::Setups::setup_of))]
fn begins_in(day: &DayInput, owner: &Owner, link: u32) -> u32
    ensures { result ≡ begins_in (setup day.now) (owner_in owner.now.of_node) link }
{
    let node = begin_node(&day.town.network.links, link);
    owner_of_node(&owner.of_node, node)
}

/// Puts one thing into the parcel at a place, if there is one.
#[tactic(auto, using(std::proofs::lemmas::List::set_past))]
fn put(
    alloc: Global,
    place: Option<usize>,
    item: ParcelItem,
    parcels: &mut Mailbox,
) -> Result<(), AllocError>
    ensures { OnOk result (parcels.new ≡ changed_at place (with_item item) parcels.old) }
{
    let Some(place) = place else {
        return Ok(());
    };
    if place < parcels.len() {
        parcels.add(alloc, place, item)?;
    }
    Ok(())
}

/// The element of a person.
fn element_of(persons: &[Person], person: u32) -> u32
    ensures { result ≡ (get_or persons.now person nobody).element }
{
    let place = person as usize;
    if place < persons.len() {
        return persons[place].element;
    }
    0
}

/// The elements of riders.
fn elements_of(alloc: Global, persons: &[Person], riders: &[Rider]) -> Result<Rows<u32>, AllocError>
    ensures { IfOk result (λ elements. elements ≡ map (element_of persons.now) riders.now) }
{
    let mut rows = Vec::with_capacity(alloc, riders.len())?;
    let mut rest = riders;
    while let [rider, later @ ..] = rest {
        rows.push(element_of(persons, rider.person))?;
        rest = later;
    }
    Ok(Rows { rows })
}

/// Appends the numbers of riders.
fn add_riders(riders: &[Rider], gone: &mut Vec<u32>) -> Result<(), AllocError>
    ensures { OnOk result (gone.new.items ≡ gone.old.items ++ map number_of riders.now) }
{
    let mut rest = riders;
    while let [rider, later @ ..] = rest {
        push_with_room(gone, rider.person)?;
        rest = later;
    }
    Ok(())
}

/// The elements of the riders of a vehicle; their numbers are appended.
fn with_riders(
    alloc: Global,
    persons: &[Person],
    vehicle: &Vehicle,
    gone: &mut Vec<u32>,
) -> Result<Rows<u32>, AllocError>
    ensures elements { IfOk result (λ elements. elements ≡ map (element_of persons.now) vehicle.now.riders) }
    ensures gone { OnOk result (gone.new.items ≡ gone.old.items ++ map number_of vehicle.now.riders) }
{
    add_riders(&vehicle.riders.rows, gone)?;
    elements_of(alloc, persons, &vehicle.riders.rows)
}

/// A vehicle goes to the partition of its link, and its riders with it.
fn send_vehicle(
    alloc: Global,
    exits: &Exits,
    persons: &[Person],
    entering: Entering,
    parcels: &mut Mailbox,
    gone: &mut Vec<u32>,
) -> Result<(), AllocError>
    ensures parcels { OnOk result (parcels.new
        ≡ changed_at (vehicle_place (setup exits.now.day.now) (owner_in exits.now.owner.now.of_node) exits.now.borders.now entering)
        (with_vehicles (moved_of persons.now entering ∷ [])) parcels.old) }
    ensures gone { OnOk result (gone.new.items ≡ gone.old.items ++ riders_of entering) }
{
    let Entering { link, vehicle } = entering;
    let partition = owner_of_link(exits.day, exits.owner, link);
    let place = place_of(exits.borders, partition);
    let elements = with_riders(alloc, persons, &vehicle, gone)?;
    let item = ParcelItem::Vehicle(Moved { vehicle, elements });
    put(alloc, place, item, parcels)
}

/// So do all of these.
pub(crate) fn send_vehicles(
    alloc: Global,
    exits: &Exits,
    persons: &[Person],
    entering: Vec<Entering>,
    parcels: &mut Mailbox,
    gone: &mut Vec<u32>,
) -> Result<(), AllocError>
    ensures parcels { let own = owner_in exits.now.owner.now.of_node in
        OnOk result (AreMore (more_vehicles (setup exits.now.day.now) own exits.now.borders.now persons.now entering.items)
        parcels.old parcels.new) }
    ensures gone { OnOk result (gone.new.items ≡ gone.old.items ++ flat_map riders_of entering.items) }
{
    for vehicle in entering {
        send_vehicle(alloc, exits, persons, vehicle, parcels, gone)?;
    }
    Ok(())
}

/// The partition to which a person sets out in this second, if he sets out to another one.
fn teleports_to(exits: &Exits, second: u32, person: u32, state: Person) -> Option<u32>
    requires { person < length exits.now.day.now.chosen.now }
    ensures { result ≡ teleports_to (setup exits.now.day.now) (owner_in exits.now.owner.now.of_node) exits.now.partition second person
        state.element state.place }
{
    match state.place {
        Place::At { .. } => None,
        Place::Teleporting { start } => {
            if start != second {
                return None;
            }
            let act = act_after(chosen_plan(exits.day, person), state.element);
            let partition = owner_of_link(exits.day, exits.owner, act.link);
            if partition == exits.partition {
                return None;
            }
            Some(partition)
        }
        Place::Waiting { .. } => None,
        Place::Riding { .. } => None,
        Place::Aborted { .. } => None,
    }
}

/// A person who sets out to another partition goes there.
fn send_teleported(
    alloc: Global,
    exits: &Exits,
    second: u32,
    persons: &[Person],
    person: u32,
    parcels: &mut Mailbox,
    gone: &mut Vec<u32>,
) -> Result<(), AllocError>
    requires plans { length persons.now ≡ length exits.now.day.now.chosen.now }
    ensures parcels { let own = owner_in exits.now.owner.now.of_node in
        OnOk result (parcels.new
        ≡ changed_at (teleported_place (setup exits.now.day.now) own exits.now.partition exits.now.borders.now second persons.now person)
        (with_teleported (teleported_of persons.now person ∷ [])) parcels.old) }
    ensures gone { OnOk result (gone.new.items ≡ gone.old.items
        ++ if_teleports (setup exits.now.day.now) (owner_in exits.now.owner.now.of_node) exits.now.partition second persons.now person) }
{
    let place = person as usize;
    if place >= persons.len() {
        return Ok(());
    }
    let state = persons[place];
    let Some(partition) = teleports_to(exits, second, person, state) else {
        return Ok(());
    };
    push_with_room(gone, person)?;
    let item = ParcelItem::Teleported(Teleported {
        person,
        element: state.element,
    });
    put(alloc, place_of(exits.borders, partition), item, parcels)
}

/// So do all of these who do.
pub(crate) fn send_all_teleported(
    alloc: Global,
    exits: &Exits,
    second: u32,
    persons: &[Person],
    looked: Vec<u32>,
    parcels: &mut Mailbox,
    gone: &mut Vec<u32>,
) -> Result<(), AllocError>
    requires plans { length persons.now ≡ length exits.now.day.now.chosen.now }
    ensures parcels { let own = owner_in exits.now.owner.now.of_node in
        OnOk result (AreMore (more_teleported (setup exits.now.day.now) own exits.now.partition exits.now.borders.now second persons.now
        looked.items) parcels.old parcels.new) }
    ensures gone { let own = owner_in exits.now.owner.now.of_node in
        OnOk result (gone.new.items ≡ gone.old.items
        ++ flat_map (if_teleports (setup exits.now.day.now) own exits.now.partition second persons.now) looked.items) }
{
    for person in looked {
        send_teleported(alloc, exits, second, persons, person, parcels, gone)?;
    }
    Ok(())
}

/// It is told how many vehicles left the queue of a link to the partition in which that begins.
fn send_freed(
    alloc: Global,
    exits: &Exits,
    freed: FreedPlaces,
    parcels: &mut Mailbox,
) -> Result<(), AllocError>
    ensures { OnOk result (parcels.new
        ≡ changed_at (freed_place (setup exits.now.day.now) (owner_in exits.now.owner.now.of_node) exits.now.borders.now freed)
        (with_freed (freed ∷ [])) parcels.old) }
{
    let partition = begins_in(exits.day, exits.owner, freed.link);
    let item = ParcelItem::Freed(freed);
    put(alloc, place_of(exits.borders, partition), item, parcels)
}

/// So with all of these.
pub(crate) fn send_all_freed(
    alloc: Global,
    exits: &Exits,
    freed: Vec<FreedPlaces>,
    parcels: &mut Mailbox,
) -> Result<(), AllocError>
    ensures { let own = owner_in exits.now.owner.now.of_node in
        OnOk result (AreMore (more_freed (setup exits.now.day.now) own exits.now.borders.now freed.items) parcels.old parcels.new) }
{
    for freed_places in freed {
        send_freed(alloc, exits, freed_places, parcels)?;
    }
    Ok(())
}
