//! Places that came free elsewhere.

ghost use Rattle.std.specs.Prelude.{◌≡◌, ℕ, Bool, length, OnOk};
ghost use Rattle.part_places.specs.Taking.{Taking, AreTakenOf};
ghost use Rattle.town.specs.Views.{setup};
ghost use Rattle.part_seconds.specs.Freed.{heard, heard_all, CanHear, CanHearAll};

use crate::contents::FreedPlaces;
use part_places::{FreedLater, Places};
use person_moves::hole_of;
use rows::LinkList;
use std::alloc::AllocError;
use town::DayInput;

/// How many links there are.
fn count_of(links: &LinkList) -> usize
    ensures { result ≡ length links.now }
{
    links.rows.len()
}

/// Vehicles left the queue of a link in a second.
#[tactic(auto, unfolding(town::specs::Setups::setup_of))]
fn hear(
    day: &DayInput,
    second: u32,
    freed: FreedPlaces,
    places: &mut Places,
) -> Result<(), AllocError>
    ensures { (begins : ℕ → Bool) (t : ℕ) (T : Taking) → CanHear (setup day.now) begins t second freed T
        → AreTakenOf begins (length (setup day.now).links) day.now.town.now.settings.end_second t T places.old
        → OnOk result (AreTakenOf begins (length (setup day.now).links) day.now.town.now.settings.end_second t
        (heard (setup day.now) second freed T) places.new) }
{
    if freed.link as usize >= count_of(&day.town.network.links) {
        return Ok(());
    }
    let freed_later = FreedLater {
        second,
        link: freed.link,
        count: freed.count as u64,
        hole_seconds: hole_of(day, freed.link),
    };
    places.free_later(day.town.settings.end_second, freed_later)?;
    Ok(())
}

/// In this second vehicles left the queues of these links, which begin here. A place that one left is free once a hole has travelled along
/// its link.
///
/// # Errors
///
/// `AllocError`: there is no memory for a place. The places are then of no use.
pub fn hear_freed(
    day: &DayInput,
    second: u32,
    freed: Vec<FreedPlaces>,
    places: &mut Places,
) -> Result<(), AllocError>
    ensures { (begins : ℕ → Bool) (t : ℕ) (T : Taking) → CanHearAll (setup day.now) begins t second freed.items T
        → AreTakenOf begins (length (setup day.now).links) day.now.town.now.settings.end_second t T places.old
        → OnOk result (AreTakenOf begins (length (setup day.now).links) day.now.town.now.settings.end_second t
        (heard_all (setup day.now) second freed.items T) places.new) }
{
    for freed_places in freed {
        hear(day, second, freed_places, places)?;
    }
    Ok(())
}
