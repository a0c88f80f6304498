//! The run of a day in partitions.

ghost use Rattle.std.specs.Prelude.{◌≡◌, ◌≤◌, IfOk};
ghost use Rattle.limits.specs.declared.TheConstants.{MAX_PARTITIONS};
ghost use Rattle.law_in_range.specs.Setups.{HaveFittingPlans};
ghost use Rattle.parted_day.specs.Sharing.{IsShared};

use crate::loads::loads_of;
use divided_day::{Division, divide};
use part_nodes::{InLinks, SteadyLights};
use part_seconds::Run;
use std::alloc::{AllocError, Global};
use town::DayInput;

/// How the town of a day is divided, of each node the slots of the links into it, which links are always green, and how much there is to do
/// in each partition.
#[derive(Drop)]
pub struct Shared {
    /// How the network is divided.
    pub division: Division,
    /// Of each node the slots of the links into it, ascending by link, in the part that has the node.
    pub in_links: InLinks,
    /// Which links are always green.
    pub steady: SteadyLights,
    /// By partition about how many events are told there, as plans have it.
    pub loads: Vec<usize>,
}

/// What so many partitions of a day share.
///
/// # Errors
///
/// `AllocError`: there is no memory for it.
pub fn share(alloc: Global, day: &DayInput, partitions: u32) -> Result<Shared, AllocError>
    requires some { 1 ≤ partitions }
    requires few { partitions ≤ MAX_PARTITIONS }
    ensures shared { IfOk result (λ shared. IsShared day.now shared) }
    ensures partitions { IfOk result (λ shared. shared.division.owner.parts ≡ partitions) }
{
    let division = divide(alloc, day, partitions)?;
    let in_links = InLinks::new(alloc, day, &division.link_slots)?;
    let steady = SteadyLights::new(alloc, &day.town.greens)?;
    let loads = loads_of(alloc, day, &division.owner)?;
    Ok(Shared {
        division,
        in_links,
        steady,
        loads,
    })
}

/// The run of a day over what its partitions share. Its events are taken while the day goes on, where it `streams`, or at the end.
pub fn run_of<'a>(
    alloc: Global,
    day: &'a DayInput<'a>,
    shared: &'a Shared,
    streams: bool,
) -> Run<'a>
    requires given { HaveFittingPlans day.now }
    requires shared { IsShared day.now shared.now }
    ensures day { result.day.now ≡ day.now }
    ensures owner { result.owner.now ≡ shared.now.division.owner }
    ensures borders { result.borders.now ≡ shared.now.division.borders.items }
    ensures streams { result.streams ≡ streams }
{
    Run {
        alloc,
        day,
        owner: &shared.division.owner,
        in_links: &shared.in_links,
        steady: &shared.steady,
        link_slots: &shared.division.link_slots,
        borders: &shared.division.borders,
        ends: &shared.division.ends,
        starts: &shared.division.starts,
        homes: &shared.division.homes,
        loads: &shared.loads,
        streams,
    }
}
