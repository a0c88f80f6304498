//! Who is on the way to another partition when the day ends.

ghost use Rattle.std.specs.Prelude.{◌≡◌, ℕ, ◌<◌, ◌+◌, ◌++◌, [], true, length, map, set, get_or, OnOk};
ghost use Rattle.std.specs.List.{flat_map};
ghost use Rattle.divided_day.specs.Borders.{borders_of};
ghost use Rattle.part_seconds.specs.{Contents.parcel_of, Sending.parcel_at};
ghost use Rattle.partition.specs.Owned.{owner_in};
ghost use Rattle.parts.specs.{Owners.near, Parts.out};
ghost use Rattle.step_core.specs.Nets.{border_at};
ghost use Rattle.town.specs.Views.{setup};
ghost use Rattle.traffic.specs.Setup.{Setup};
ghost use Rattle.parted_day.specs.Strays.{stray_riders, moved_strays, teleported_stray, strays_in, strays_to, strays_over, comes_too_late};
ghost use Rattle.parted_day.specs.{Strays.lag_among, Strays.AreStrays, Tables.with_states, Tables.with_links};

use crate::neighbours::neighbours_of;
use events::VehicleId;
use limits::MAX_LAG;
use part_seconds::{Contents, Moved, Parcel, Run, Teleported, borders_at, link_of};
use std::alloc::AllocError;
use step_core::{Border, BorderList};
use traffic::{Person, Place, Rider, Vehicle};

/// Somebody in a parcel that its receiver would absorb only when its day is over.
#[derive(Clone, Copy, Debug, PartialEq, Eq)]
pub(crate) struct Stray {
    /// The number of the person.
    pub person: u32,
    /// The number of the link on which the person rides; 0: the person teleports.
    pub link: u32,
    /// At which element of the plan, and where: as the person was sent.
    pub state: Person,
}

/// Appends the riders of a vehicle on a link, with their elements.
fn push_riders(
    link: u32,
    vehicle: VehicleId,
    riders: &[Rider],
    elements: &[u32],
    strays: &mut Vec<Stray>,
) -> Result<(), AllocError>
    ensures { OnOk result (strays.new.items ≡ strays.old.items ++ stray_riders link vehicle riders.now elements.now) }
{
    for place in 0..riders.len().min(elements.len()) {
        let state = Person {
            element: elements[place],
            place: Place::Riding { vehicle },
        };
        strays.push(Stray {
            person: riders[place].person,
            link,
            state,
        })?;
    }
    Ok(())
}

/// Appends the riders of a vehicle, with these elements.
fn push_riders_of(
    vehicle: &Vehicle,
    elements: &[u32],
    strays: &mut Vec<Stray>,
) -> Result<(), AllocError>
    ensures { OnOk result (strays.new.items ≡ strays.old.items
        ++ stray_riders (get_or vehicle.now.route vehicle.now.place 0) vehicle.now.id vehicle.now.riders elements.now) }
{
    let link = link_of(vehicle);
    push_riders(link, vehicle.id, &vehicle.riders.rows, elements, strays)
}

/// Appends the riders of a vehicle that is sent.
fn push_moved(moved: &Moved, strays: &mut Vec<Stray>) -> Result<(), AllocError>
    ensures { OnOk result (strays.new.items ≡ strays.old.items ++ moved_strays moved.now) }
{
    push_riders_of(&moved.vehicle, &moved.elements.rows, strays)
}

/// Appends the riders of all these vehicles.
fn push_vehicles(vehicles: &[Moved], strays: &mut Vec<Stray>) -> Result<(), AllocError>
    ensures { OnOk result (strays.new.items ≡ strays.old.items ++ flat_map moved_strays vehicles.now) }
{
    for moved in vehicles {
        push_moved(moved, strays)?;
    }
    Ok(())
}

/// Appends those who set out in this second.
fn push_teleported(
    second: u32,
    teleported: &[Teleported],
    strays: &mut Vec<Stray>,
) -> Result<(), AllocError>
    ensures { OnOk result (strays.new.items ≡ strays.old.items ++ map (teleported_stray second) teleported.now) }
{
    for sent in teleported {
        let state = Person {
            element: sent.element,
            place: Place::Teleporting { start: second },
        };
        strays.push(Stray {
            person: sent.person,
            link: 0,
            state,
        })?;
    }
    Ok(())
}

/// Appends all who go with what was sent in this second.
fn push_contents(
    second: u32,
    contents: &Contents,
    strays: &mut Vec<Stray>,
) -> Result<(), AllocError>
    ensures { (S : Setup) → OnOk result (strays.new.items ≡ strays.old.items ++ strays_in second (parcel_of S second contents.now)) }
{
    push_vehicles(&contents.vehicles.rows, strays)?;
    push_teleported(second, &contents.teleported.rows, strays)?;
    Ok(())
}

/// Appends all who are in a parcel of this second.
fn push_parcel(second: u32, parcel: &Parcel, strays: &mut Vec<Stray>) -> Result<(), AllocError>
    ensures { (S : Setup) → OnOk result (strays.new.items ≡ strays.old.items ++ strays_in second (parcel_of S second parcel.now)) }
{
    let Some(contents) = parcel.contents() else {
        return Ok(());
    };
    push_contents(second, contents, strays)?;
    Ok(())
}

/// The lag from this partition, as it stands among the neighbours of another one.
fn lag_among(partition: u32, borders: &[Border]) -> u32
    ensures { result ≡ lag_among partition borders.now }
{
    let mut rest = borders;
    while let [border, later @ ..] = rest {
        if border.neighbour == partition {
            return border.lag;
        }
        rest = later;
    }
    0
}

/// The lag from this partition to another one.
fn lag_to(partition: u32, receiver: u32, borders: &[BorderList]) -> u32
    ensures { result ≡ lag_among partition (get_or borders.now receiver []) }
{
    lag_among(partition, borders_at(borders, receiver))
}

/// Whether a neighbour would absorb what the partition sends to it in a second only when its day is over.
fn comes_too_late(run: &Run, partition: u32, second: u32, receiver: u32) -> bool
    requires { near (setup run.now.day.now) (owner_in run.now.owner.now.of_node) partition receiver ≡ true }
    ensures { result ≡ comes_too_late (setup run.now.day.now) (owner_in run.now.owner.now.of_node) partition receiver second }
{
    let left = run.day.town.settings.end_second.saturating_sub(second);
    left <= lag_to(partition, receiver, run.borders)
}

/// Keeps all who are in the parcel of a second for a neighbour, where that comes too late.
fn keep_parcel(
    run: &Run,
    partition: u32,
    second: u32,
    receiver: u32,
    parcel: &Parcel,
    strays: &mut Vec<Stray>,
) -> Result<(), AllocError>
    requires near { near (setup run.now.day.now) (owner_in run.now.owner.now.of_node) partition receiver ≡ true }
    requires right { let S = setup run.now.day.now in
        parcel_of S second parcel.now ≡ out S (owner_in run.now.owner.now.of_node) partition receiver second }
    ensures { OnOk result (strays.new.items ≡ strays.old.items
        ++ strays_to (setup run.now.day.now) (owner_in run.now.owner.now.of_node) partition second receiver) }
{
    if comes_too_late(run, partition, second, receiver) {
        push_parcel(second, parcel, strays)?;
    }
    Ok(())
}

/// The same of the parcels for all neighbours.
fn keep_parcels(
    run: &Run,
    partition: u32,
    second: u32,
    borders: &[Border],
    parcels: &[Parcel],
    strays: &mut Vec<Stray>,
) -> Result<(), AllocError>
    requires count { length parcels.now ≡ length borders.now }
    requires borders { borders.now
        ≡ borders_of (setup run.now.day.now) (owner_in run.now.owner.now.of_node) run.now.owner.now.parts partition }
    requires right { let own = owner_in run.now.owner.now.of_node in let S = setup run.now.day.now in
        (k : ℕ) → k < length borders.now
        → parcel_of S second (parcel_at parcels.now k) ≡ out S own partition (border_at borders.now k).neighbour second }
    ensures { OnOk result (strays.new.items ≡ strays.old.items
        ++ strays_over (setup run.now.day.now) (owner_in run.now.owner.now.of_node) partition second borders.now) }
{
    for (place, parcel) in parcels.iter().enumerate() {
        keep_parcel(
            run,
            partition,
            second,
            borders[place].neighbour,
            parcel,
            strays,
        )?;
    }
    Ok(())
}

/// Keeps all who are in the parcels of a second, one for each neighbour, where the neighbour's day ends before it absorbs them. In the
/// last `MAX_LAG` seconds of a day alone anybody is kept.
///
/// # Errors
///
/// `AllocError`: there is no memory for them. The list is then of no use.
pub(crate) fn keep_strays(
    run: &Run,
    partition: u32,
    second: u32,
    parcels: &[Parcel],
    strays: &mut Vec<Stray>,
) -> Result<(), AllocError>
    requires there { partition < run.now.owner.now.parts }
    requires count { length parcels.now
        ≡ length (borders_of (setup run.now.day.now) (owner_in run.now.owner.now.of_node) run.now.owner.now.parts partition) }
    requires right { let own = owner_in run.now.owner.now.of_node in let S = setup run.now.day.now in
        let borders = borders_of S own run.now.owner.now.parts partition in
        (k : ℕ) → k < length borders
        → parcel_of S second (parcel_at parcels.now k) ≡ out S own partition (border_at borders k).neighbour second }
    requires before { AreStrays (setup run.now.day.now) (owner_in run.now.owner.now.of_node) run.now.owner.now.parts partition second
        strays.old.items }
    ensures { OnOk result (AreStrays (setup run.now.day.now) (owner_in run.now.owner.now.of_node) run.now.owner.now.parts partition
        (second + 1) strays.new.items) }
{
    let left = run.day.town.settings.end_second.saturating_sub(second);
    if left > MAX_LAG {
        return Ok(());
    }
    let borders = neighbours_of(run, partition);
    keep_parcels(run, partition, second, borders, parcels, strays)?;
    Ok(())
}

/// A person is in the state and on the link in which he was sent.
#[tactic(auto, using(std::proofs::lemmas::List::set_past))]
fn put_stray(stray: Stray, persons: &mut [Person], links: &mut [u32])
    ensures persons { persons.new ≡ set persons.old stray.person stray.state }
    ensures links { links.new ≡ set links.old stray.person stray.link }
{
    let place = stray.person as usize;
    if place < persons.len() {
        persons[place] = stray.state;
    }
    if place < links.len() {
        links[place] = stray.link;
    }
}

/// So are all of these.
#[tactic(auto, unfolding(crate::specs::Tables::with_each))]
pub(crate) fn put_strays(strays: &[Stray], persons: &mut [Person], links: &mut [u32])
    ensures persons { persons.new ≡ with_states strays.now persons.old }
    ensures links { links.new ≡ with_links strays.now links.old }
{
    let mut rest = strays;
    while let [stray, later @ ..] = rest {
        put_stray(*stray, persons, links);
        rest = later;
    }
}
