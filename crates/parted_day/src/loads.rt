//! How much there is to do in each partition of a day.

use partition::{Owner, owner_of_link};
use rows::{Leg, Plan};
use std::alloc::{AllocError, Global};
use town::DayInput;

/// How many events a car tells of a link of its route: that it enters the link, and that it leaves it.
const EVENTS_OF_A_LINK: usize = 2;

/// How many events at most are told of a person for each leg.
const EVENTS_OF_A_LEG: usize = 8;

/// So many events more are told on a link.
fn add_events(day: &DayInput, owner: &Owner, link: u32, events: usize, loads: &mut [usize]) {
    let partition = owner_of_link(day, owner, link) as usize;
    if partition < loads.len() {
        loads[partition] = loads[partition].saturating_add(events);
    }
}

/// Adds what so many plans like this one tell: of each leg where it begins, and of its car on the links of its route.
fn add_plans(day: &DayInput, owner: &Owner, plan: &Plan, plans: usize, loads: &mut [usize]) {
    let of_leg = plans.saturating_mul(EVENTS_OF_A_LEG);
    let of_link = plans.saturating_mul(EVENTS_OF_A_LINK);
    for (place, leg) in plan.legs.rows.iter().enumerate() {
        add_events(day, owner, plan.acts.rows[place].link, of_leg, loads);
        if let Leg::Car { route } = leg {
            for link in &route.rows {
                add_events(day, owner, *link, of_link, loads);
            }
        }
    }
}

/// At most so many plans are looked at to tell how much there is to do, and half as many at least where there are more: one in so many, by
/// number. Where persons are listed with that period the sample is one-sided, and partitions are dealt less evenly.
const SAMPLE: usize = 4096;

/// By partition about how many events of persons and their cars were told there, were all chosen plans carried out; those of departures are
/// not counted. Where there are many plans it goes by a sample of them. What a day costs goes by its events. It decides which worker gets
/// which partitions, and for how many events a part gets room as it starts, and nothing else.
///
/// # Errors
///
/// `AllocError`: there is no memory for a number for each partition.
pub(crate) fn loads_of(
    alloc: Global,
    day: &DayInput,
    owner: &Owner,
) -> Result<Vec<usize>, AllocError> {
    let mut loads = vec![in alloc; 0; owner.parts as usize]?;
    let every = day.chosen.len() / SAMPLE + 1;
    for (place, plan) in day.chosen.iter().enumerate() {
        if place % every == 0 {
            add_plans(day, owner, plan, every, &mut loads);
        }
    }
    Ok(loads)
}
