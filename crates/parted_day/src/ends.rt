//! Who is under way when the day ends.

ghost use Rattle.std.specs.{List.flat_map, Option.option_to_list};
ghost use Rattle.std.specs.Prelude.{◌≡◌, ◌<◌, ◌++◌, length, replicate, OnOk, IfOk};
ghost use Rattle.events.specs.Keys.{phase_code};
ghost use Rattle.events.specs.declared.event.Phase.TheVariants as phase;
ghost use Rattle.law_in_range.specs.Setups.{HaveFittingPlans};
ghost use Rattle.town.specs.Views.{setup};
ghost use Rattle.traffic.specs.{Day.keyed, Lists.below, Persons.stuck_on};
ghost use Rattle.law_parcels.specs.Worlds.{world_held};
ghost use Rattle.law_parts_of_days.specs.Riding.{stranded_on, told_on, put_links};
ghost use Rattle.partition.specs.Owned.{owner_in};
ghost use Rattle.parts.specs.Parts.{held, own_end_events};
ghost use Rattle.part_seconds.specs.Stands.{AreaStands};
ghost use Rattle.parted_day.specs.{Strays.AreStrays, Tables.with_states, Tables.with_links};

use crate::riding::rider_links;
use crate::straying::{Stray, put_strays};
use events::{Event, Mode, More, Phase, Word};
use part_persons::Persons;
use part_seconds::{Area, Run};
use person_moves::{World, link_of_stop, mode_in, push_keyed};
use queue_link::LinkState;
use rows::{Act, act_in};
use std::alloc::AllocError;
use town::{DayInput, chosen_plan};
use traffic::{Occurrence, Person, Place};
use vehicles::of_person;

/// What is told at the end of the day of a person at this place, who rides on this link if he rides: that he is stuck, where he is under
/// way.
fn stuck_on(
    day: &DayInput,
    link: u32,
    person: u32,
    here: Act,
    mode: Mode,
    place: Place,
) -> Option<Occurrence>
    ensures { option_to_list result ≡ stuck_on (setup day.now) link person here mode place }
{
    let link = match place {
        Place::At { .. } => return None,
        Place::Teleporting { .. } => here.link,
        Place::Waiting { stop, .. } => link_of_stop(day, stop),
        Place::Riding { .. } => link,
        Place::Aborted { .. } => return None,
    };
    Some(of_person(Word::StuckAndAbort, person, link, More::Mode(mode)))
}

/// The same of this person of the town, who is under way.
fn stranded_under_way(day: &DayInput, link: u32, person: u32, state: Person) -> Option<Occurrence>
    requires { person < length day.now.chosen.now }
    ensures { option_to_list result ≡ stranded_on (setup day.now) link person state }
{
    let plan = chosen_plan(day, person);
    let here = act_in(plan, state.element);
    let mode = mode_in(plan, state.element);
    stuck_on(day, link, person, here, mode, state.place)
}

/// The same of this person of the town. The plan of one who is at an activity, or was taken out of the day, is not looked at: each part has
/// a place for each person, in most of which nobody is.
fn stranded_on(day: &DayInput, link: u32, person: u32, state: Person) -> Option<Occurrence>
    requires { person < length day.now.chosen.now }
    ensures { option_to_list result ≡ stranded_on (setup day.now) link person state }
{
    match state.place {
        Place::At { .. } => None,
        Place::Aborted { .. } => None,
        _ => stranded_under_way(day, link, person, state),
    }
}

/// Appends what the end of the day tells of a person.
fn push_stranded(
    day: &DayInput,
    link: u32,
    person: u32,
    state: Person,
    events: &mut Vec<Event>,
) -> Result<(), AllocError>
    requires { person < length day.now.chosen.now }
    ensures { OnOk result (events.new.items ≡ events.old.items ++ keyed day.now.town.now.settings.end_second (phase_code phase.E)
        person 0 (stranded_on (setup day.now) link person state)) }
{
    let end = day.town.settings.end_second;
    match stranded_on(day, link, person, state) {
        Some(said) => push_keyed(end, Phase::E, person, &[said], events),
        None => Ok(()),
    }
}

/// Who of these persons is under way is stuck on the link on which he is, by number: who rides on that of this table. Appends what that
/// tells.
///
/// # Errors
///
/// `AllocError`: there is no memory for an event.
fn push_ends(
    day: &DayInput,
    persons: &[Person],
    links: &[u32],
    events: &mut Vec<Event>,
) -> Result<(), AllocError>
    requires given { HaveFittingPlans day.now }
    requires persons { length persons.now ≡ length day.now.chosen.now }
    requires links { length links.now ≡ length persons.now }
    ensures { OnOk result (events.new.items ≡ events.old.items
        ++ flat_map (told_on (setup day.now) day.now.town.now.settings.end_second links.now persons.now) (below (length persons.now))) }
{
    for person in 0..day.town.book.persons.len() {
        let place = person as usize;
        push_stranded(day, links[place], person, persons[place], events)?;
    }
    Ok(())
}

/// The events of the end of the day of the persons in this table and on these links, where the strays stand in it.
fn tell_ends(
    run: &Run,
    mut states: Vec<Person>,
    links: &[LinkState],
    strays: &[Stray],
) -> Result<Vec<Event>, AllocError>
    requires { length states.items ≡ length run.now.day.now.chosen.now }
    ensures { IfOk result (λ events. events.items ≡ flat_map
        (told_on (setup run.now.day.now) run.now.day.now.town.now.settings.end_second
        (with_links strays.now (put_links links.now (replicate (length states.items) 0))) (with_states strays.now states.items))
        (below (length states.items))) }
{
    let mut ridden = rider_links(run.alloc, states.len(), links)?;
    put_strays(strays, &mut states, &mut ridden);
    let mut events = Vec::new(run.alloc);
    push_ends(run.day, &states, &ridden, &mut events)?;
    Ok(events)
}

/// The events of the end of the day that belong to a partition: whoever is under way is stuck, by number, of those whom its part has and of
/// its strays.
///
/// # Errors
///
/// `AllocError`: there is no memory for them.
pub(crate) fn end_events(
    run: &Run,
    partition: u32,
    area: Area,
    strays: Vec<Stray>,
) -> Result<Vec<Event>, AllocError>
    requires there { partition < run.now.owner.now.parts }
    requires stands { let own = owner_in run.now.owner.now.of_node in let S = setup run.now.day.now in
        let end = run.now.day.now.town.now.settings.end_second in
        AreaStands run.now.day.now own partition end end end area (held S own partition end) (world_held S own partition end) }
    requires strays { AreStrays (setup run.now.day.now) (owner_in run.now.owner.now.of_node) run.now.owner.now.parts partition
        run.now.day.now.town.now.settings.end_second strays.items }
    ensures { IfOk result (λ events. events.items
        ≡ own_end_events (setup run.now.day.now) (owner_in run.now.owner.now.of_node) run.now.owner.now.parts partition) }
{
    let Area {
        persons,
        departures: _departures,
        lines: _lines,
        network,
        queues: _queues,
    } = area;
    let Persons {
        world,
        wakes: _wakes,
    } = persons;
    let World {
        rows: _rows,
        persons: states,
        credits: _credits,
        holes: _holes,
    } = world;
    let events = tell_ends(run, states, &network.links, &strays)?;
    Ok(events)
}
