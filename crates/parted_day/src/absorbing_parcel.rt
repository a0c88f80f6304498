//! One parcel comes to a part.

ghost use Rattle.std.specs.Prelude.{◌≡◌, ℕ, ◌<◌, Bool, length, OnOk, IfOk};
ghost use Rattle.limits.specs.declared.TheConstants.{LAST_SECOND};
ghost use Rattle.node_seconds.specs.Networks.{slot_in, accepted_all, wakes_after_all};
ghost use Rattle.part_seconds.specs.Freed.{heard_all, CanHearAll};
ghost use Rattle.part_places.specs.Taking.{Taking, AreTakenOf};
ghost use Rattle.town.specs.Views.{setup};
ghost use Rattle.parted_day.specs.Absorbed.{entered_slots, HasAbsorbedParcel};

use calendar::Wakes;
use node_move::Entering;
use node_seconds::enter_links;
use part_places::Places;
use part_seconds::{
    Area, Contents, FreedList, Parcel, Run, arrive, hear_freed, put_queues, slot_of,
};
use queue_link::LinkState;
use std::alloc::{AllocError, Global};
use town::DayInput;

/// The slots of the links of these vehicles, in order.
fn entered_slots(
    alloc: Global,
    link_slots: &[u32],
    entering: &[Entering],
) -> Result<Vec<u32>, AllocError>
    ensures { IfOk result (λ slots. slots.items ≡ entered_slots link_slots.now entering.now) }
{
    let mut slots = Vec::with_capacity(alloc, entering.len())?;
    for vehicle in entering {
        slots.push(slot_of(link_slots, vehicle.link))?;
    }
    Ok(slots)
}

/// Vehicles come to the queues of their links, in order, in this second. One whose link stands in no slot is not kept; in the parcel of a
/// neighbour there is none.
fn enter(
    run: &Run,
    second: u32,
    entering: Vec<Entering>,
    links: &mut Vec<LinkState>,
    wakes: &mut Wakes,
) -> Result<(), AllocError>
    requires second_in { second < LAST_SECOND }
    requires count { length wakes.old ≡ length links.old.items }
    ensures links { OnOk result (links.new.items
        ≡ accepted_all (slot_in run.now.link_slots.now links.old.items) second entering.items links.old.items) }
    ensures wakes { OnOk result (wakes.new ≡ wakes_after_all (slot_in run.now.link_slots.now links.old.items)
        run.now.day.now.town.now.settings.end_second second entering.items links.old.items wakes.old) }
{
    let end = run.day.town.settings.end_second;
    let mut lost = Vec::new(run.alloc);
    enter_links(
        end,
        second,
        entering,
        run.link_slots,
        links,
        wakes,
        &mut lost,
    )?;
    Ok(())
}

/// In this second vehicles left the queues of these links, which begin here.
fn hear(
    day: &DayInput,
    second: u32,
    freed: FreedList,
    places: &mut Places,
) -> Result<(), AllocError>
    ensures { (begins : ℕ → Bool) (u : ℕ) (T : Taking) → CanHearAll (setup day.now) begins u second freed T
        → AreTakenOf begins (length (setup day.now).links) day.now.town.now.settings.end_second u T places.old
        → OnOk result (AreTakenOf begins (length (setup day.now).links) day.now.town.now.settings.end_second u
        (heard_all (setup day.now) second freed T) places.new) }
{
    hear_freed(day, second, freed.rows, places)?;
    Ok(())
}

/// What was in a parcel that was sent in this second comes to a part.
fn absorb_contents(
    area: &mut Area,
    run: &Run,
    second: u32,
    contents: Contents,
) -> Result<(), AllocError>
    requires second_in { second < LAST_SECOND }
    requires plans { length area.old.persons.world.persons ≡ length run.now.day.now.chosen.now }
    requires looks { length area.old.persons.wakes ≡ length area.old.persons.world.persons }
    requires wakes { length area.old.network.link_wakes ≡ length area.old.network.links.items }
    ensures { OnOk result (HasAbsorbedParcel run.now.day.now run.now.link_slots.now second contents area.old area.new) }
{
    let mut entering = Vec::with_capacity(run.alloc, contents.vehicles.rows.len())?;
    let freed = arrive(run.day, second, contents, &mut area.persons, &mut entering)?;
    let slots = entered_slots(run.alloc, run.link_slots, &entering)?;
    let network = &mut area.network;
    enter(
        run,
        second,
        entering,
        &mut network.links,
        &mut network.link_wakes,
    )?;
    put_queues(&slots, &network.links, &mut area.queues);
    hear(run.day, second, freed, &mut network.places)?;
    Ok(())
}

/// A part absorbs a parcel that was sent in this second. One with nothing in it leaves the part as it is.
pub(crate) fn absorb_parcel(
    area: &mut Area,
    run: &Run,
    second: u32,
    parcel: Parcel,
) -> Result<(), AllocError>
    requires second_in { second < LAST_SECOND }
    requires plans { length area.old.persons.world.persons ≡ length run.now.day.now.chosen.now }
    requires looks { length area.old.persons.wakes ≡ length area.old.persons.world.persons }
    requires wakes { length area.old.network.link_wakes ≡ length area.old.network.links.items }
    ensures { OnOk result (HasAbsorbedParcel run.now.day.now run.now.link_slots.now second parcel area.old area.new) }
{
    let Some(contents) = parcel.into_contents() else {
        return Ok(());
    };
    absorb_contents(area, run, second, contents)?;
    Ok(())
}
