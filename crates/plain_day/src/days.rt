//! A second, and a day.

ghost use Rattle.std.specs.Prelude.{◌≡◌, ◌<◌, ◌++◌, length, [], OnOk, IfOk};
ghost use Rattle.limits.specs.declared.TheConstants.{LAST_SECOND};
ghost use Rattle.events.specs.{Keys.phase_code, Lines.AreInBook};
ghost use Rattle.law_in_range.specs.{Rows.IsFitWorld, Setups.counts_in, Setups.HasItsLinks, Setups.HaveFittingPlans};
ghost use Rattle.traffic.specs.Day.{second, second_events, world_start, world_from, events_from, keyed, end_events};
ghost use Rattle.traffic.specs.{Persons.stranded, Worlds.OnePlace, Worlds.Sound};
ghost use Rattle.town.specs.Views.{setup};
ghost use Rattle.traffic.specs.Day as traffic_day;
ghost use Rattle.events.specs.declared.event.Phase.TheVariants as phase;

use crate::ends::stranded;
use crate::phases::do_phase;
use events::{Event, Phase};
use person_moves::{World, push_keyed, start};
use std::alloc::{AllocError, Global};
use town::DayInput;

/// A second of a day in a fit world: persons land, persons leave, departures start, nodes hand over, links move.
/// Appends its events. After an error the world is of no use.
///
/// That a world is fit is what each turn needs and no more: all that it names is there.
///
/// # Errors
///
/// `AllocError`: there is no memory for a row, a hole or an event.
#[tactic(auto, using(law_in_range::proofs::Phasing::second_world, law_in_range::proofs::Phasing::second_told))]
pub fn fit_second(
    alloc: Global,
    day: &DayInput,
    t: u32,
    world: &mut World,
    out: &mut Vec<Event>,
) -> Result<(), AllocError>
    requires second_in { t < LAST_SECOND }
    requires given { HaveFittingPlans day.now }
    requires fit { IsFitWorld (counts_in day.now) world.old }
    ensures world { OnOk result (world.new ≡ second (setup day.now) t world.old) }
    ensures events { OnOk result (out.new.items ≡ out.old.items ++ second_events (setup day.now) t world.old) }
    ensures fit { OnOk result (IsFitWorld (counts_in day.now) world.new) }
{
    do_phase(alloc, day, t, Phase::A, world, out)?;
    do_phase(alloc, day, t, Phase::B1, world, out)?;
    do_phase(alloc, day, t, Phase::B2, world, out)?;
    do_phase(alloc, day, t, Phase::C, world, out)?;
    do_phase(alloc, day, t, Phase::D, world, out)?;
    Ok(())
}

/// A second of a day in a world where each person is in exactly one place, and every row fits the plans and the timetable;
/// it has a credit for each link, and no hole of another. Such a world is fit.
///
/// # Errors
///
/// `AllocError`: there is no memory for a row, a hole or an event.
pub fn plain_second(
    alloc: Global,
    day: &DayInput,
    t: u32,
    world: &mut World,
    out: &mut Vec<Event>,
) -> Result<(), AllocError>
    requires second_in { t < LAST_SECOND }
    requires given { HaveFittingPlans day.now }
    requires links { HasItsLinks (setup day.now) world.old }
    requires one_place { OnePlace (setup day.now) world.old }
    requires sound { Sound (setup day.now) world.old }
    ensures world { OnOk result (world.new ≡ second (setup day.now) t world.old) }
    ensures events { OnOk result (out.new.items ≡ out.old.items ++ second_events (setup day.now) t world.old) }
{
    fit_second(alloc, day, t, world, out)?;
    Ok(())
}

/// The world at the start, which is fit.
fn fit_start(alloc: Global, day: &DayInput) -> Result<World, AllocError>
    requires { HaveFittingPlans day.now }
    ensures world { IfOk result (λ world. world ≡ world_start (setup day.now)) }
    ensures fit { IfOk result (λ world. IsFitWorld (counts_in day.now) world) }
{
    let world = start(alloc, day)?;
    Ok(world)
}

/// The seconds of the day, whose events are appended to none.
fn all_seconds(alloc: Global, day: &DayInput, world: &mut World) -> Result<Vec<Event>, AllocError>
    requires given { HaveFittingPlans day.now }
    requires fit { IsFitWorld (counts_in day.now) world.old }
    ensures world { OnOk result (world.new ≡ world_from (setup day.now) world.old day.now.town.now.settings.end_second) }
    ensures events { IfOk result (λ events. events.items ≡ events_from (setup day.now) world.old day.now.town.now.settings.end_second) }
    ensures fit { OnOk result (IsFitWorld (counts_in day.now) world.new) }
{
    let mut events = Vec::new(alloc);
    for t in 0..day.town.settings.end_second {
        fit_second(alloc, day, t, world, &mut events)?;
    }
    Ok(events)
}

/// Appends what the end of the day tells of a person.
fn push_stranded(
    day: &DayInput,
    i: u32,
    world: &World,
    out: &mut Vec<Event>,
) -> Result<(), AllocError>
    requires there { i < length day.now.chosen.now }
    requires persons { length world.now.persons ≡ length day.now.chosen.now }
    ensures { OnOk result (out.new.items ≡ out.old.items
        ++ keyed day.now.town.now.settings.end_second (phase_code phase.E) i 0 (stranded (setup day.now) world.now i)) }
{
    match stranded(day, i, world) {
        Some(said) => push_keyed(day.town.settings.end_second, Phase::E, i, &[said], out),
        None => push_keyed(day.town.settings.end_second, Phase::E, i, &[], out),
    }
}

/// Phase E: who is under way is stuck.
fn push_ends(day: &DayInput, world: &World, out: &mut Vec<Event>) -> Result<(), AllocError>
    requires given { HaveFittingPlans day.now }
    requires persons { length world.now.persons ≡ length day.now.chosen.now }
    ensures { OnOk result (out.new.items ≡ out.old.items ++ end_events (setup day.now) day.now.town.now.settings.end_second world.now) }
{
    for i in 0..day.town.book.persons.len() {
        push_stranded(day, i, world, out)?;
    }
    Ok(())
}

/// The events of a day of a town on which each person follows the chosen plan, in the order of their keys.
///
/// # Errors
///
/// `AllocError`: there is no memory for the day.
#[tactic(auto, unfolding(traffic::specs::Day::day))]
pub fn plain_day(alloc: Global, day: &DayInput) -> Result<Vec<Event>, AllocError>
    requires { HaveFittingPlans day.now }
    ensures events { IfOk result (λ events. events.items ≡ traffic_day.day (setup day.now)) }
    ensures named { IfOk result (λ events. AreInBook events.items day.now.town.now.book) }
{
    let mut world = fit_start(alloc, day)?;
    let mut events = all_seconds(alloc, day, &mut world)?;
    push_ends(day, &world, &mut events)?;
    Ok(events)
}
