//! What links and nodes see of a world.

ghost use Rattle.std.specs.Prelude.{◌≡◌, ◌<◌, ◌≤◌, length, map, filter, IfOk};
ghost use Rattle.std.specs.List.{list_any};
ghost use Rattle.limits.specs.declared.TheConstants.{LAST_SECOND, MAX_LENGTH};
ghost use Rattle.traffic.specs.{Links.link_state, Lists.below, Nodes.in_link, Nodes.out_link, Nodes.taken_at, Rows.on, Rows.credit_of};
ghost use Rattle.traffic.specs.Setup.{link_row, hole_of, into};
ghost use Rattle.traffic.specs.declared.stage.Stage.TheVariants.{Queue, Buffer, Wait, Bay};
ghost use Rattle.traffic.specs.declared.world.Hole.{Hole};
ghost use Rattle.law_in_range.specs.{Rows.IsFitWorld, Setups.counts_in};
ghost use Rattle.town.specs.Views.{setup};
ghost use Rattle.plain_turns.specs.{LinkState.link_state_of, OutLinks.AreNear, OutLinks.IsInLink, OutLinks.AreInLinks};
ghost use Rattle.plain_day.specs.Views.{stays_on, out_link_row, is_in, is_out, is_in_force};

use crate::links::{seconds_of, storage_of};
use person_moves::{World, hole_of, is_on, link_row};
use plain_turns::{LinkVehicles, OutLinkRow};
use rows::green_in;
use std::alloc::{AllocError, Global};
use town::DayInput;
use traffic::{Hole, InLink, OutLink, Row, RowList, Stage};

/// The rows of a link at a stage.
fn rows_at(alloc: Global, link: u32, stage: Stage, rows: &[Row]) -> Result<Vec<Row>, AllocError>
    ensures { IfOk result (λ there. there.items ≡ filter (on link stage) rows.now) }
{
    let mut there = Vec::new(alloc);
    let mut rest = rows;
    while let [row, later @ ..] = rest {
        if is_on(link, stage, row) {
            let same = row.try_clone()?;
            there.push(same)?;
        }
        rest = later;
    }
    Ok(there)
}

/// The rows of a link.
pub(crate) fn link_vehicles(
    alloc: Global,
    link: u32,
    world: &World,
) -> Result<LinkVehicles, AllocError>
    ensures { IfOk result (λ lists. link_state_of lists (credit_of link world.now) ≡ link_state link world.now) }
{
    let queue = rows_at(alloc, link, Stage::Queue, &world.rows)?;
    let buffer = rows_at(alloc, link, Stage::Buffer, &world.rows)?;
    let wait = rows_at(alloc, link, Stage::Wait, &world.rows)?;
    let bay = rows_at(alloc, link, Stage::Bay, &world.rows)?;
    Ok(LinkVehicles {
        queue,
        buffer,
        wait,
        bay,
    })
}

/// The credit of a link.
pub(crate) fn credit_of(link: u32, world: &World) -> u32
    ensures { result ≡ credit_of link world.now }
{
    world.credits.credit(link)
}

/// Whether a row stands on the link and not in its buffer.
fn stays_on(link: u32, row: &Row) -> bool
    ensures { result ≡ stays_on link row.now }
{
    row.link == link && row.stage != Stage::Buffer
}

/// Whether some row stands on the link and not in its buffer.
pub(crate) fn is_used(link: u32, rows: &[Row]) -> bool
    ensures { result ≡ list_any (stays_on link) rows.now }
{
    rows.iter().any(|row| stays_on(link, row))
}

/// How many rows a link has at a stage.
fn count_at(link: u32, stage: Stage, rows: &[Row]) -> usize
    ensures { result ≡ length (filter (on link stage) rows.now) }
{
    rows.iter().filter(|row| is_on(link, stage, row)).count()
}

/// Whether a hole is on the link and still counts as a taken place in this second, where it does for `h` seconds.
fn is_in_force(link: u32, second: u32, h: u32, hole: &Hole) -> bool
    ensures { result ≡ is_in_force link second h hole.now }
{
    hole.link == link && u64::from(second) < u64::from(hole.second) + u64::from(h)
}

/// How many holes of a link count as taken places in this second.
fn count_in_force(link: u32, second: u32, h: u32, holes: &[Hole]) -> usize
    ensures { result ≡ length (filter (is_in_force link second h) holes.now) }
{
    holes
        .iter()
        .filter(|hole| is_in_force(link, second, h, hole))
        .count()
}

/// The taken places of a link in this second. Places are counted by rows and holes in memory: where no number counts
/// them, there is no memory for them.
fn taken_at(day: &DayInput, second: u32, link: u32, world: &World) -> Result<u64, AllocError>
    requires { link < length day.now.town.now.network.links }
    ensures { IfOk result (λ taken. taken ≡ taken_at (setup day.now) second link world.now) }
{
    let queue = count_at(link, Stage::Queue, &world.rows);
    let h = hole_of(day, link);
    let holes = count_in_force(link, second, h, &world.holes);
    let Some(taken) = (queue as u64).checked_add(holes as u64) else {
        return Err(AllocError);
    };
    Ok(taken)
}

/// A link as the nodes at its start see it.
fn out_link_row(
    day: &DayInput,
    second: u32,
    link: u32,
    world: &World,
) -> Result<OutLinkRow, AllocError>
    requires { link < length day.now.town.now.network.links }
    ensures value { IfOk result (λ row. row ≡ out_link_row (setup day.now) second world.now link) }
    ensures near { IfOk result (λ row. row.out_link.seconds ≤ MAX_LENGTH) }
{
    let taken = taken_at(day, second, link, world)?;
    let storage = storage_of(day, link);
    let seconds = seconds_of(day, link);
    Ok(OutLinkRow {
        link,
        out_link: OutLink {
            taken,
            storage,
            seconds,
        },
    })
}

/// Whether a link leads out of the node.
fn is_out(day: &DayInput, node: u32, link: u32) -> bool
    requires { link < length day.now.town.now.network.links }
    ensures { result ≡ is_out (setup day.now) node link }
{
    link_row(day, link).from == node
}

/// Whether a link leads into the node.
pub(crate) fn is_in(day: &DayInput, node: u32, link: u32) -> bool
    requires { link < length day.now.town.now.network.links }
    ensures { result ≡ is_in (setup day.now) node link }
{
    link_row(day, link).to == node
}

/// The links out of a node.
pub(crate) fn out_links(
    alloc: Global,
    day: &DayInput,
    second: u32,
    node: u32,
    world: &World,
) -> Result<Vec<OutLinkRow>, AllocError>
    ensures value { IfOk result (λ out_links. out_links.items
        ≡ map (out_link_row (setup day.now) second world.now)
        (filter (is_out (setup day.now) node) (below (length day.now.town.now.network.links)))) }
    ensures near { IfOk result (λ out_links. AreNear out_links.items) }
{
    let mut out_links = Vec::new(alloc);
    for link in 0..day.town.network.links.len() as u32 {
        if is_out(day, node, link) {
            let row = out_link_row(day, second, link, world)?;
            out_links.push(row)?;
        }
    }
    Ok(out_links)
}

/// A link as the node at its end sees it.
fn in_link(
    alloc: Global,
    day: &DayInput,
    second: u32,
    link: u32,
    world: &World,
) -> Result<InLink, AllocError>
    requires there { link < length day.now.town.now.network.links }
    requires second_in { second < LAST_SECOND }
    requires fit { IsFitWorld (counts_in day.now) world.now }
    ensures value { IfOk result (λ e. e ≡ in_link (setup day.now) second world.now link) }
    ensures fit_after { IfOk result (λ e. IsInLink e) }
{
    let rows = rows_at(alloc, link, Stage::Buffer, &world.rows)?;
    Ok(InLink {
        link,
        capacity: link_row(day, link).capacity,
        green: green_in(&day.town.greens, link, second),
        rows: RowList { rows },
    })
}

/// The links into a node.
pub(crate) fn in_links(
    alloc: Global,
    day: &DayInput,
    second: u32,
    node: u32,
    world: &World,
) -> Result<Vec<InLink>, AllocError>
    requires second_in { second < LAST_SECOND }
    requires fit { IsFitWorld (counts_in day.now) world.now }
    ensures value { IfOk result (λ in_links. in_links.items
        ≡ map (in_link (setup day.now) second world.now) (into (setup day.now) node)) }
    ensures fit_after { IfOk result (λ in_links. AreInLinks in_links.items) }
{
    let mut in_links = Vec::new(alloc);
    for link in 0..day.town.network.links.len() as u32 {
        if is_in(day, node, link) {
            let seen = in_link(alloc, day, second, link, world)?;
            in_links.push(seen)?;
        }
    }
    Ok(in_links)
}
