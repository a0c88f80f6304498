//! Persons land and leave, departures start, and whoever sets out comes to a line or to a link.

ghost use Rattle.std.specs.Prelude.{◌≡◌, ◌<◌, ◌+◌, ◌++◌, ℕ, false, [], length, map, filter, get_or, OnOk, IfOk};
ghost use Rattle.part_lines.specs.Coming.{CanAllJoin, joined_lines};
ghost use Rattle.part_seconds.specs.{Slots.in_slot, Stands.AreaStands, Starting.all_started, Starting.woken_for_all};
ghost use Rattle.traffic.specs.{Day.turns_in, Day.events_in, Lists.below, Rows.person_of};
ghost use Rattle.limits.specs.declared.TheConstants.{LAST_SECOND};
ghost use Rattle.events.specs.declared.event.Phase.TheVariants as phase;
ghost use Rattle.law_own_worlds.specs.{Days.world_before, Days.run_turns, OwnWorlds.landed};
ghost use Rattle.node_seconds.specs.Networks.{is_among};
ghost use Rattle.partition.specs.Owned.{owner_in};
ghost use Rattle.parts.specs.Parts.{ready};
ghost use Rattle.town.specs.Views.{setup};
ghost use Rattle.law_own_seconds.specs.Seconds.{held_early, world_early};

use crate::area::Area;
use crate::runs::Run;
use crate::starting::start_all;
use calendar::Wakes;
use events::Event;
use part_lines::join_lines;
use person_moves::World;
use queue_link::LinkState;
use riders::Waiting;
use std::alloc::{AllocError, Global};
use std::mem::replace;
use town::DayInput;
use traffic::Row;

/// Takes the vehicles that persons and departures let in.
fn take_rows(alloc: Global, world: &mut World) -> Vec<Row>
    ensures rows { result.items ≡ world.old.rows }
    ensures left { world.new ≡ record world.old { rows = [] } }
{
    replace(&mut world.rows, Vec::new(alloc))
}

/// The slot of a link, by a table that has those of links by number; a link that it does not have is given the first one.
pub fn slot_of(slots: &[u32], link: u32) -> u32
    ensures { result ≡ get_or slots.now link 0 }
{
    let place = link as usize;
    if place < slots.len() {
        return slots[place];
    }
    0
}

/// A vehicle that names its link by the slot.
fn in_slot(slots: &[u32], row: Row) -> Row
    ensures { result ≡ in_slot slots.now row }
{
    let Row {
        vehicle,
        link,
        stage,
        second,
    } = row;
    Row {
        vehicle,
        link: slot_of(slots, link),
        stage,
        second,
    }
}

/// So do all of these.
fn in_slots(alloc: Global, slots: &[u32], rows: Vec<Row>) -> Result<Vec<Row>, AllocError>
    ensures { IfOk result (λ placed. placed.items ≡ map (in_slot slots.now) rows.items) }
{
    let mut placed = Vec::new(alloc);
    for row in rows {
        placed.push(in_slot(slots, row))?;
    }
    Ok(placed)
}

/// Of the persons of these numbers those who wait since this second come to the lines of their stops.
fn come_to_lines(
    day: &DayInput,
    second: u32,
    numbers: &[u32],
    world: &World,
    lines: &mut Vec<Waiting>,
) -> Result<(), AllocError>
    requires plans { length world.now.persons ≡ length day.now.chosen.now }
    requires can { CanAllJoin (setup day.now) second world.now.persons numbers.now lines.old.items }
    ensures { OnOk result (lines.new.items ≡ joined_lines (setup day.now) second world.now.persons numbers.now lines.old.items) }
{
    join_lines(day, second, numbers, &world.persons, lines)?;
    Ok(())
}

/// These vehicles come to the wait lists of the links in their slots, which are woken in this second.
fn come_to_links(
    second: u32,
    rows: Vec<Row>,
    links: &mut Vec<LinkState>,
    wakes: &mut Wakes,
) -> Result<(), AllocError>
    requires { length wakes.old ≡ length links.old.items }
    ensures links { OnOk result (links.new.items ≡ all_started rows.items links.old.items) }
    ensures wakes { OnOk result (wakes.new ≡ woken_for_all second rows.items wakes.old) }
{
    start_all(second, rows, links, wakes)?;
    Ok(())
}

impl Area {
    /// The phases of a second in which persons land, persons leave and departures start. Appends their events, and answers who was looked
    /// at, by number: nobody else changed.
    ///
    /// # Errors
    ///
    /// `AllocError`: there is no memory for a row or an event. The part is then of no use.
    pub fn set_out(
        &mut self,
        run: &Run,
        partition: u32,
        second: u32,
        events: &mut Vec<Event>,
    ) -> Result<Vec<u32>, AllocError>
        requires second_in { second < LAST_SECOND }
        requires in_day { second < run.now.day.now.town.now.settings.end_second }
        requires there { partition < run.now.owner.now.parts }
        requires stands { let own = owner_in run.now.owner.now.of_node in let S = setup run.now.day.now in
            AreaStands run.now.day.now own partition second second second self.old (ready S own partition second)
            (world_before S own partition second) }
        ensures stands { let own = owner_in run.now.owner.now.of_node in let S = setup run.now.day.now in
            OnOk result (AreaStands run.now.day.now own partition (second + 1) second second self.new (held_early S own partition second)
            (world_early S own partition second)) }
        ensures events { let own = owner_in run.now.owner.now.of_node in let S = setup run.now.day.now in
            let V = world_before S own partition second in
            OnOk result (events.new.items ≡ events.old.items ++ (events_in second phase.A (turns_in S second phase.A V)
            ++ (events_in second phase.B1 (turns_in S second phase.B1 (landed S second V))
            ++ events_in second phase.B2 (run_turns S own partition second)))) }
        ensures looked { IfOk result (λ numbers. numbers.items
            ≡ filter (λ i. is_among i numbers.items) (below (length (setup run.now.day.now).persons))) }
        ensures others { let own = owner_in run.now.owner.now.of_node in let S = setup run.now.day.now in
            IfOk result (λ numbers. (i : ℕ) → is_among i numbers.items ≡ false
            → person_of i (world_early S own partition second) ≡ person_of i (world_before S own partition second)) }
    {
        let persons = &mut self.persons;
        let numbers = persons.land_and_leave(run.alloc, run.day, second, events)?;
        persons.start_departures(run.alloc, run.day, second, &mut self.departures, events)?;
        come_to_lines(run.day, second, &numbers, &persons.world, &mut self.lines)?;
        let started = take_rows(run.alloc, &mut persons.world);
        let rows = in_slots(run.alloc, run.link_slots, started)?;
        let network = &mut self.network;
        come_to_links(second, rows, &mut network.links, &mut network.link_wakes)?;
        Ok(numbers)
    }
}
