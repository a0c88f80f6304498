//! What leaves a partition once its second is over.

ghost use Rattle.std.specs.Prelude.{◌≡◌, ℕ, ◌<◌, false, ◌++◌, ◌==◌, [], length, map, filter, OnOk};
ghost use Rattle.std.specs.List.{flat_map};
ghost use Rattle.law_in_range.specs.Setups.{HaveFittingPlans};
ghost use Rattle.law_own_seconds.specs.Seconds.{world_driven};
ghost use Rattle.law_own_worlds.specs.{Days.world_before, OwnWorlds.set_out};
ghost use Rattle.law_parcels.specs.Sending.{sent_rows, freed_over};
ghost use Rattle.node_seconds.specs.Networks.{is_among};
ghost use Rattle.part_nodes.specs.Phase.{entering_of};
ghost use Rattle.partition.specs.Owned.{owner_in};
ghost use Rattle.parts.specs.Parts.{out};
ghost use Rattle.step_core.specs.Nets.{border_at};
ghost use Rattle.town.specs.Views.{setup};
ghost use Rattle.traffic.specs.{Lists.below, Rows.person_of};
ghost use Rattle.part_seconds.specs.Contents.{freed_row, parcel_of};
ghost use Rattle.part_seconds.specs.{Leaving.AreWithout, Leaving.AreOthers, Leaving.HaveGone, Parcels.HasNothing, Sending.parcel_at};
ghost use Rattle.part_seconds.specs.Sending.{parcel_for, all_gone, riders_of, if_teleports, AreMore, more_vehicles, more_teleported};

use crate::contents::FreedPlaces;
use crate::mailbox::Mailbox;
use crate::sending::{Exits, send_all_freed, send_all_teleported, send_vehicles};
use node_move::Entering;
use part_persons::Persons;
use person_moves::World;
use std::alloc::{AllocError, Global};

/// What leaves a partition, or may leave it, in a second.
#[derive(Drop)]
pub struct Leaving {
    /// The vehicles that enter links of others, in order.
    pub entering: Vec<Entering>,
    /// The persons who landed or left, by number: nobody else may have set out.
    pub looked: Vec<u32>,
    /// How many vehicles left the queues of those of its links that begin elsewhere, by link.
    pub freed: Vec<FreedPlaces>,
}

/// The vehicles go.
fn fill_vehicles(
    alloc: Global,
    exits: &Exits,
    world: &World,
    entering: Vec<Entering>,
    parcels: &mut Mailbox,
    gone: &mut Vec<u32>,
) -> Result<(), AllocError>
    ensures parcels { let own = owner_in exits.now.owner.now.of_node in
        OnOk result (AreMore (more_vehicles (setup exits.now.day.now) own exits.now.borders.now world.now.persons entering.items)
        parcels.old parcels.new) }
    ensures gone { OnOk result (gone.new.items ≡ gone.old.items ++ flat_map riders_of entering.items) }
{
    send_vehicles(alloc, exits, &world.persons, entering, parcels, gone)
}

/// The teleported persons go.
fn fill_teleported(
    alloc: Global,
    exits: &Exits,
    second: u32,
    world: &World,
    looked: Vec<u32>,
    parcels: &mut Mailbox,
    gone: &mut Vec<u32>,
) -> Result<(), AllocError>
    requires plans { length world.now.persons ≡ length exits.now.day.now.chosen.now }
    ensures parcels { let own = owner_in exits.now.owner.now.of_node in
        OnOk result (AreMore (more_teleported (setup exits.now.day.now) own exits.now.partition exits.now.borders.now second
        world.now.persons looked.items) parcels.old parcels.new) }
    ensures gone { let own = owner_in exits.now.owner.now.of_node in
        OnOk result (gone.new.items ≡ gone.old.items
        ++ flat_map (if_teleports (setup exits.now.day.now) own exits.now.partition second world.now.persons) looked.items) }
{
    send_all_teleported(alloc, exits, second, &world.persons, looked, parcels, gone)
}

/// Puts all that leaves into parcels, and tells the numbers of those who go with it.
fn fill(
    alloc: Global,
    exits: &Exits,
    second: u32,
    world: &World,
    leaving: Leaving,
    parcels: &mut Mailbox,
    gone: &mut Vec<u32>,
) -> Result<(), AllocError>
    requires plans { length world.now.persons ≡ length exits.now.day.now.chosen.now }
    requires none { HasNothing parcels.old }
    requires empty { gone.old.items ≡ [] }
    ensures count { OnOk result (length parcels.new ≡ length parcels.old) }
    ensures each { let own = owner_in exits.now.owner.now.of_node in
        OnOk result ((k : ℕ) → k < length parcels.old → parcel_at parcels.new k
        ≡ parcel_for (setup exits.now.day.now) own exits.now.partition exits.now.borders.now second world.now.persons
        leaving.entering.items leaving.looked.items leaving.freed.items k) }
    ensures gone { let own = owner_in exits.now.owner.now.of_node in
        OnOk result (gone.new.items ≡ all_gone (setup exits.now.day.now) own exits.now.partition second world.now.persons
        leaving.entering.items leaving.looked.items) }
{
    let Leaving {
        entering,
        looked,
        freed,
    } = leaving;
    fill_vehicles(alloc, exits, world, entering, parcels, gone)?;
    fill_teleported(alloc, exits, second, world, looked, parcels, gone)?;
    send_all_freed(alloc, exits, freed, parcels)?;
    Ok(())
}

/// A person goes to another partition.
fn let_go(persons: &mut Persons, person: u32)
    ensures { AreWithout (λ i. person == i) persons.old persons.new }
{
    if (person as usize) < persons.world.persons.len() {
        let _row = persons.give_out(person);
    }
}

/// So do all of these.
fn let_all_go(persons: &mut Persons, gone: Vec<u32>)
    ensures { AreWithout (λ i. is_among i gone.items) persons.old persons.new }
{
    for person in gone {
        let_go(persons, person);
    }
}

/// Makes the parcels of a second, one for each neighbour, out of parcels with nothing in them, and lets all go who are in one of them.
/// Where nothing leaves, nothing is touched.
///
/// # Errors
///
/// `AllocError`: there is no memory for the parcels. They and the persons are then of no use.
pub fn send(
    alloc: Global,
    exits: &Exits,
    second: u32,
    leaving: Leaving,
    persons: &mut Persons,
    parcels: &mut Mailbox,
) -> Result<(), AllocError>
    requires given { HaveFittingPlans exits.now.day.now }
    requires plans { length persons.old.world.persons ≡ length exits.now.day.now.chosen.now }
    requires others { AreOthers exits.now.partition exits.now.borders.now }
    requires persons { persons.old.world.persons
        ≡ (world_driven (setup exits.now.day.now) (owner_in exits.now.owner.now.of_node) exits.now.partition second).persons }
    requires entering { leaving.entering.items
        ≡ map entering_of (sent_rows (setup exits.now.day.now) (owner_in exits.now.owner.now.of_node) exits.now.partition second) }
    requires looked { leaving.looked.items
        ≡ filter (λ i. is_among i leaving.looked.items) (below (length (setup exits.now.day.now).persons)) }
    requires same { let own = owner_in exits.now.owner.now.of_node in let S = setup exits.now.day.now in
        let V = world_before S own exits.now.partition second in
        (i : ℕ) → is_among i leaving.looked.items ≡ false
        → person_of i (set_out S own exits.now.partition second V) ≡ person_of i V }
    requires freed { map freed_row leaving.freed.items
        ≡ freed_over (setup exits.now.day.now) (owner_in exits.now.owner.now.of_node) exits.now.partition second }
    requires count { length parcels.old ≡ length exits.now.borders.now }
    requires none { HasNothing parcels.old }
    ensures count { OnOk result (length parcels.new ≡ length exits.now.borders.now) }
    ensures parcels { let own = owner_in exits.now.owner.now.of_node in let S = setup exits.now.day.now in
        OnOk result ((k : ℕ) → k < length exits.now.borders.now → parcel_of S second (parcel_at parcels.new k)
        ≡ out S own exits.now.partition (border_at exits.now.borders.now k).neighbour second) }
    ensures persons { OnOk result (HaveGone (setup exits.now.day.now) (owner_in exits.now.owner.now.of_node) exits.now.partition second
        persons.old persons.new) }
{
    let mut gone = Vec::new(alloc);
    fill(
        alloc,
        exits,
        second,
        &persons.world,
        leaving,
        parcels,
        &mut gone,
    )?;
    let_all_go(persons, gone);
    Ok(())
}
