//! A town is divided among partitions.

ghost use Rattle.std.specs.Prelude.{◌≡◌, ◌≤◌, ◌<◌, ℕ, [], length, get_or, IfOk};
ghost use Rattle.limits.specs.declared.TheConstants.{MAX_PARTITIONS};
ghost use Rattle.divided_day.specs.{Borders.border_of, Borders.borders_among, Divisions.AreBordersOf, Divisions.IsDivided};

use crate::homes::homes_of;
use crate::listing::{NumberList, links_that_begin, links_that_end};
use crate::slots::link_slots;
use events::Rows;
use partition::{LagPair, Owner, Pair, halve, lags, neighbours};
use std::alloc::{AllocError, Global};
use step_core::{Border, BorderList};
use town::DayInput;

/// A town, divided among partitions.
#[derive(Drop)]
pub struct Division {
    /// Which partition has which node.
    pub owner: Owner,
    /// By partition its neighbours, ascending, with the lags from them, in seconds.
    pub borders: Vec<BorderList>,
    /// By link which of the links that end in its partition it is, by number.
    pub link_slots: Vec<u32>,
    /// By partition the links that end there.
    pub ends: Vec<NumberList>,
    /// By partition the links that begin there.
    pub starts: Vec<NumberList>,
    /// By person the partition that has the link of the first activity of the chosen plan.
    pub homes: Vec<u32>,
}

/// The border of a partition that a pair of neighbours makes: with the lag there for the greater of the two, and with the lag back for the
/// lesser one.
fn border_of(partition: u32, pair: Pair, lags: LagPair) -> Option<Border>
    ensures { result ≡ border_of partition pair lags }
{
    if pair.greater == partition {
        Some(Border {
            neighbour: pair.lesser,
            lag: lags.there,
        })
    } else if pair.lesser == partition {
        Some(Border {
            neighbour: pair.greater,
            lag: lags.back,
        })
    } else {
        None
    }
}

/// The neighbours of a partition, out of all pairs of neighbours with their lags. Pairs that ascend give neighbours that ascend: those in
/// which the partition is the greater one come first.
fn borders_among(
    alloc: Global,
    partition: u32,
    pairs: &[Pair],
    lags: &[LagPair],
) -> Result<BorderList, AllocError>
    requires { length lags.now ≡ length pairs.now }
    ensures { IfOk result (λ rows. rows ≡ borders_among partition pairs.now lags.now) }
{
    let mut rows = Vec::new(alloc);
    for place in 0..pairs.len() {
        match border_of(partition, pairs[place], lags[place]) {
            Some(border) => rows.push(border)?,
            None => {}
        }
    }
    Ok(Rows { rows })
}

/// The same of so many partitions.
fn all_borders_among(
    alloc: Global,
    parts: u32,
    pairs: &[Pair],
    lags: &[LagPair],
) -> Result<Vec<BorderList>, AllocError>
    requires { length lags.now ≡ length pairs.now }
    ensures count { IfOk result (λ lists. length lists.items ≡ parts) }
    ensures each { IfOk result (λ lists. (p : ℕ) → p < parts → get_or lists.items p [] ≡ borders_among p pairs.now lags.now) }
{
    let mut lists = Vec::new(alloc);
    for partition in 0..parts {
        lists.push(borders_among(alloc, partition, pairs, lags)?)?;
    }
    Ok(lists)
}

/// The neighbours of each partition, ascending, with the lags from them.
fn all_borders(alloc: Global, day: &DayInput, owner: &Owner) -> Result<Vec<BorderList>, AllocError>
    ensures { IfOk result (λ lists. AreBordersOf day.now owner.now lists.items) }
{
    let pairs = neighbours(alloc, day, owner)?;
    let between = lags(alloc, day, owner, &pairs)?;
    let lists = all_borders_among(alloc, owner.parts, &pairs, &between)?;
    Ok(lists)
}

/// Divides the town of a day among so many partitions, by halves. Two of them are neighbours where a link or a teleported leg of a chosen
/// plan leads from the one to the other.
///
/// # Errors
///
/// `AllocError`: there is no memory for a number for each node and each person and three for each link, or for tables of all pairs of
/// partitions.
pub fn divide(alloc: Global, day: &DayInput, parts: u32) -> Result<Division, AllocError>
    requires some { 1 ≤ parts }
    requires few { parts ≤ MAX_PARTITIONS }
    ensures { IfOk result (λ division. IsDivided day.now parts division) }
{
    let owner = halve(alloc, &day.town.network, parts)?;
    let borders = all_borders(alloc, day, &owner)?;
    let link_slots = link_slots(alloc, day, &owner)?;
    let ends = links_that_end(alloc, day, &owner)?;
    let starts = links_that_begin(alloc, day, &owner)?;
    let homes = homes_of(alloc, day, &owner)?;
    Ok(Division {
        owner,
        borders,
        link_slots,
        ends,
        starts,
        homes,
    })
}
