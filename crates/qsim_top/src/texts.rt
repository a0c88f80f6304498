ghost use Rattle.std.specs.Prelude.{◌≡◌, ◌≤◌, IfOk};
ghost use Rattle.scenario.specs.Views.{scenario_view};
ghost use Rattle.workload.specs.declared.TheConstants.{LEAST_SIZE, MOST_SIZE};
ghost use Rattle.qsim_top.specs.Texts.{foreign_line, grid_counts, grid_line, no_way_line, nothing_kept_line};
ghost use Rattle.qsim_top.specs.Texts.{refused_line, valid_counts, valid_line};

use scenario::{Scenario, ScenarioFault};
use std::alloc::{AllocError, Global};
use workload::PERSONS_PER_NODE;

/// The report of a refused scenario.
#[tactic(auto, unfolding(crate::specs::Texts::refused_line))]
pub fn refused_line(alloc: Global, fault: ScenarioFault) -> Result<Vec<u8>, AllocError>
    ensures { IfOk result (λ line. line.items ≡ refused_line fault) }
{
    let file = fault.file.name();
    let row = fault.row;
    let number = fault.reason.number();
    let reason = fault.reason.name();
    let line = format!(in alloc; "refused,{file},{row},{number},{reason}\n")?;
    Ok(line.into_bytes())
}

/// The report of a route that does not exist.
pub fn no_way_line(alloc: Global) -> Result<Vec<u8>, AllocError>
    ensures { IfOk result (λ line. line.items ≡ no_way_line) }
{
    let line = Vec::from_slice(alloc, b"no way\n")?;
    Ok(line)
}

/// The report that nothing is kept from which a run could go on.
pub fn nothing_kept_line(alloc: Global) -> Result<Vec<u8>, AllocError>
    ensures { IfOk result (λ line. line.items ≡ nothing_kept_line) }
{
    let line = Vec::from_slice(alloc, b"nothing kept\n")?;
    Ok(line)
}

/// The report of kept rows that do not fit, by the place of the first one with which it shows.
#[tactic(auto, unfolding(crate::specs::Texts::foreign_line))]
pub fn foreign_line(alloc: Global, place: u32) -> Result<Vec<u8>, AllocError>
    ensures { IfOk result (λ line. line.items ≡ foreign_line place) }
{
    let line = format!(in alloc; "foreign,{place}\n")?;
    Ok(line.into_bytes())
}

/// The first line of the report of a grid, by its size and seed, and the numbers of its nodes, links and persons.
#[tactic(auto, unfolding(crate::specs::Texts::grid_counts))]
fn grid_counts(
    alloc: Global,
    size: u32,
    seed: u64,
    nodes: u32,
    links: u32,
    persons: u32,
) -> Result<Vec<u8>, AllocError>
    ensures { IfOk result (λ line. line.items ≡ grid_counts size seed nodes links persons) }
{
    let line = format!(in alloc; "grid,{size},{seed},{nodes},{links},{persons}\n")?;
    Ok(line.into_bytes())
}

/// The first line of the report of a grid of this size and seed.
pub fn grid_line(alloc: Global, size: u32, seed: u64) -> Result<Vec<u8>, AllocError>
    requires least { LEAST_SIZE ≤ size }
    requires most { size ≤ MOST_SIZE }
    ensures { IfOk result (λ line. line.items ≡ grid_line size seed) }
{
    let nodes = size * size;
    let links = 4 * size * (size - 1);
    let persons = PERSONS_PER_NODE * size * size;
    let line = grid_counts(alloc, size, seed, nodes, links, persons)?;
    Ok(line)
}

/// The report of a valid scenario, by the numbers of its rows.
#[tactic(auto, unfolding(crate::specs::Texts::valid_counts))]
fn valid_counts(
    alloc: Global,
    nodes: usize,
    links: usize,
    persons: u32,
    stops: usize,
    routes: usize,
    departures: usize,
) -> Result<Vec<u8>, AllocError>
    ensures { IfOk result (λ line. line.items ≡ valid_counts nodes links persons stops routes departures) }
{
    let line = format!(in alloc;
        "valid,{nodes},{links},{persons},{stops},{routes},{departures}\n"
    )?;
    Ok(line.into_bytes())
}

/// The report of a valid scenario.
pub fn valid_line(alloc: Global, scenario: &Scenario) -> Result<Vec<u8>, AllocError>
    ensures { IfOk result (λ line. line.items ≡ valid_line (scenario_view scenario.now)) }
{
    let town = &scenario.town;
    valid_counts(
        alloc,
        town.network.nodes.len(),
        town.network.links.len(),
        town.book.persons.len(),
        town.stops.rows.len(),
        town.routes.rows.len(),
        town.departures.rows.len(),
    )
}
