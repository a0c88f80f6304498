//! On which links persons ride.

ghost use Rattle.std.specs.Prelude.{◌≡◌, ◌<◌, length, set, get_or, replicate, OnOk, IfOk};
ghost use Rattle.queue_link.specs.Links.{all_rows};
ghost use Rattle.law_parts_of_days.specs.Riding.{put_riders, put_rows, put_links};

use queue_link::LinkState;
use std::alloc::{AllocError, Global};
use traffic::{Rider, Vehicle};

/// A person rides on this link.
#[tactic(auto, using(std::proofs::lemmas::List::set_past))]
fn put_rider(link: u32, person: u32, table: &mut [u32])
    ensures { table.new ≡ set table.old person link }
{
    let place = person as usize;
    if place < table.len() {
        table[place] = link;
    }
}

/// These persons ride on this link.
#[tactic(auto, unfolding(law_parts_of_days::specs::Riding::put_riders))]
fn put_riders(link: u32, riders: &[Rider], table: &mut [u32])
    ensures { table.new ≡ put_riders link riders.now table.old }
{
    let mut rest = riders;
    while let [rider, later @ ..] = rest {
        put_rider(link, rider.person, table);
        rest = later;
    }
}

/// The riders of a vehicle are on this link.
fn put_vehicle(link: u32, vehicle: &Vehicle, table: &mut [u32])
    ensures { table.new ≡ put_riders link vehicle.now.riders table.old }
{
    put_riders(link, &vehicle.riders.rows, table)
}

/// The riders of each vehicle on a link are on that link.
fn put_vehicles(link: &LinkState, table: &mut [u32]) -> Result<(), AllocError>
    ensures { OnOk result (table.new ≡ put_rows link.now.numbers.link (all_rows link.now.lists) table.old) }
{
    let number = link.numbers().link;
    for place in 0..usize::MAX {
        let Some(vehicle) = link.at(place) else {
            return Ok(());
        };
        put_vehicle(number, vehicle, table);
    }
    Err(AllocError)
}

/// The riders of each vehicle on these links are on its link.
#[tactic(auto, unfolding(law_parts_of_days::specs::Riding::put_links))]
fn put_links(links: &[LinkState], table: &mut [u32]) -> Result<(), AllocError>
    ensures { OnOk result (table.new ≡ put_links links.now table.old) }
{
    for link in links {
        put_vehicles(link, table)?;
    }
    Ok(())
}

/// The link of each of so many persons who rides on one of these links, by number, and 0 of everybody else.
///
/// # Errors
///
/// `AllocError`: there is no memory for the table.
pub(crate) fn rider_links(
    alloc: Global,
    persons: usize,
    links: &[LinkState],
) -> Result<Vec<u32>, AllocError>
    ensures { IfOk result (λ table. table.items ≡ put_links links.now (replicate persons 0)) }
{
    let mut table = Vec::new(alloc);
    table.resize(persons, 0u32)?;
    put_links(links, &mut table)?;
    Ok(table)
}
