//! The second of a partition: what its neighbours sent comes to it, all have their turns, and what goes to neighbours leaves it.

ghost use Rattle.std.specs.Prelude.{◌≡◌, ◌<◌, ◌+◌, ◌++◌, [], length, if◌then◌else◌, IfOk, OnOk};
ghost use Rattle.limits.specs.declared.TheConstants.{LAST_SECOND};
ghost use Rattle.divided_day.specs.Days.{borders_in};
ghost use Rattle.law_own_seconds.specs.Seconds.{held_driven, world_driven};
ghost use Rattle.law_parcels.specs.Worlds.{world_held};
ghost use Rattle.partition.specs.Owned.{owner_in};
ghost use Rattle.part_seconds.specs.{Parcels.nothing, Stands.AreaStands};
ghost use Rattle.parts.specs.Parts.{held};
ghost use Rattle.parted_day.specs.{Absorbed.IsRight, Strays.AreStrays, Turns.turns_told, Turns.IsLeaving};
ghost use Rattle.step_core.specs.Views.{AreEmpty, HasHeard, HasSent};
ghost use Rattle.town.specs.Views.{setup};

use crate::absorbing::absorb;
use crate::neighbours::neighbours_of;
use crate::straying::{Stray, keep_strays};
use law_parcels::own_worlds_go_on;
use part_links::Told;
use part_seconds::{Area, Exits, Leaving, Mailbox, Run, send};
use std::alloc::AllocError;

/// Where the events of each second are taken as the day goes on, those are forgotten that were told so far.
pub(crate) fn forget_told(run: &Run, told: &mut Told)
    ensures events { told.new.events.items ≡ (if run.now.streams then [] else told.old.events.items) }
    ensures said { told.new.said.items ≡ told.old.said.items }
{
    if run.streams {
        told.events.clear();
    }
}

/// What neighbours sent comes to a partition, and then all have their turns of a second: persons and departures set out, nodes let vehicles
/// pass, links move. Appends what they tell, and answers what leaves the partition, or may leave it.
pub(crate) fn take_turns(
    run: &Run,
    partition: u32,
    second: u32,
    area: &mut Area,
    inbox: &mut Mailbox,
    told: &mut Told,
) -> Result<Leaving, AllocError>
    requires second_in { second < LAST_SECOND }
    requires in_day { second < run.now.day.now.town.now.settings.end_second }
    requires there { partition < run.now.owner.now.parts }
    requires stands { let own = owner_in run.now.owner.now.of_node in let S = setup run.now.day.now in
        AreaStands run.now.day.now own partition second second second area.old (held S own partition second)
        (world_held S own partition second) }
    requires heard { let own = owner_in run.now.owner.now.of_node in
        HasHeard nothing (IsRight (setup run.now.day.now) own) partition second
        (borders_in run.now.day.now run.now.owner.now partition) inbox.old }
    requires places { length inbox.old ≡ length (borders_in run.now.day.now run.now.owner.now partition) }
    requires silent { told.old.said.items ≡ [] }
    ensures stands { let own = owner_in run.now.owner.now.of_node in let S = setup run.now.day.now in
        OnOk result (AreaStands run.now.day.now own partition (second + 1) (second + 1) (second + 1) area.new
        (held_driven S own partition second) (world_driven S own partition second)) }
    ensures empty { OnOk result (AreEmpty nothing (length inbox.old) inbox.new) }
    ensures events { let own = owner_in run.now.owner.now.of_node in let S = setup run.now.day.now in
        OnOk result (told.new.events.items ≡ told.old.events.items ++ turns_told S own partition second) }
    ensures leaving { IfOk result (IsLeaving (setup run.now.day.now) (owner_in run.now.owner.now.of_node) partition second) }
    ensures said { OnOk result (told.new.said.items ≡ []) }
{
    absorb(area, run, partition, second, inbox)?;
    let mut entering = Vec::new(run.alloc);
    let looked = area.set_out(run, partition, second, &mut told.events)?;
    area.cross(run, partition, second, told, &mut entering)?;
    let freed = area.drive(run, partition, second, told)?;
    Ok(Leaving {
        entering,
        looked,
        freed,
    })
}

/// What leaves the partition once the turns of a second are over goes into parcels, one for each neighbour, and with them all who are in
/// one of them. To `strays` come those in parcels that come when the day is over.
pub(crate) fn send_parcels(
    run: &Run,
    partition: u32,
    second: u32,
    leaving: Leaving,
    area: &mut Area,
    outbox: &mut Mailbox,
    strays: &mut Vec<Stray>,
) -> Result<(), AllocError>
    requires there { partition < run.now.owner.now.parts }
    requires stands { let own = owner_in run.now.owner.now.of_node in let S = setup run.now.day.now in
        AreaStands run.now.day.now own partition (second + 1) (second + 1) (second + 1) area.old (held_driven S own partition second)
        (world_driven S own partition second) }
    requires leaving { IsLeaving (setup run.now.day.now) (owner_in run.now.owner.now.of_node) partition second leaving }
    requires gone { AreEmpty nothing (length (borders_in run.now.day.now run.now.owner.now partition)) outbox.old }
    requires strays { AreStrays (setup run.now.day.now) (owner_in run.now.owner.now.of_node) run.now.owner.now.parts partition second
        strays.old.items }
    ensures stands { let own = owner_in run.now.owner.now.of_node in let S = setup run.now.day.now in
        OnOk result (AreaStands run.now.day.now own partition (second + 1) (second + 1) (second + 1) area.new
        (held S own partition (second + 1)) (world_held S own partition (second + 1))) }
    ensures places { OnOk result (length outbox.new ≡ length (borders_in run.now.day.now run.now.owner.now partition)) }
    ensures sent { let own = owner_in run.now.owner.now.of_node in
        OnOk result (HasSent nothing (IsRight (setup run.now.day.now) own) partition second
        (borders_in run.now.day.now run.now.owner.now partition) outbox.new) }
    ensures strays { OnOk result (AreStrays (setup run.now.day.now) (owner_in run.now.owner.now.of_node) run.now.owner.now.parts partition
        (second + 1) strays.new.items) }
{
    own_worlds_go_on();
    let borders = neighbours_of(run, partition);
    let exits = Exits {
        day: run.day,
        owner: run.owner,
        partition,
        borders,
    };
    send(
        run.alloc,
        &exits,
        second,
        leaving,
        &mut area.persons,
        outbox,
    )?;
    keep_strays(run, partition, second, outbox.parcels(), strays)?;
    Ok(())
}
