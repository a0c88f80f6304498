//! A part at the start of a day.

ghost use Rattle.std.specs.Prelude.{◌≡◌, [], replicate, IfOk};
ghost use Rattle.law_parcels.specs.Worlds.{world_held};
ghost use Rattle.partition.specs.Owned.{owner_in};
ghost use Rattle.parts.specs.Parts.{held};
ghost use Rattle.town.specs.Views.{setup};
ghost use Rattle.part_seconds.specs.Stands.{AreaStands, NetworkStands};

use crate::links::empty_links;
use calendar::Wakes;
use divided_day::numbers_at;
use part_nodes::NetworkState;
use part_persons::{Persons, departures_by_second};
use part_places::Places;
use part_seconds::{Area, Run};
use riders::Waiting;
use std::alloc::{AllocError, Global};

/// So many lines, in which nobody waits.
fn empty_lines(alloc: Global, count: usize) -> Result<Vec<Waiting>, AllocError>
    ensures { IfOk result (λ lines. lines.items ≡ replicate count []) }
{
    let mut lines = Vec::new(alloc);
    for _stop in 0..count {
        lines.push(Waiting::new(alloc))?;
    }
    Ok(lines)
}

/// So many links, in whose queues nobody is.
fn empty_queues(alloc: Global, count: usize) -> Result<Vec<usize>, AllocError>
    ensures { IfOk result (λ queues. queues.items ≡ replicate count 0) }
{
    let mut queues = Vec::new(alloc);
    queues.resize(count, 0usize)?;
    Ok(queues)
}

/// The network of a part, on which nobody is: no link and no node is woken.
fn empty_network(run: &Run, partition: u32) -> Result<NetworkState, AllocError>
    ensures { let own = owner_in run.now.owner.now.of_node in let S = setup run.now.day.now in
        IfOk result (λ network. NetworkStands run.now.day.now own partition 0 0 network (held S own partition 0)
        (world_held S own partition 0)) }
{
    let ends = numbers_at(run.ends, partition);
    let links = empty_links(run.alloc, run.day, ends)?;
    let starts = numbers_at(run.starts, partition);
    let places = Places::new(run.alloc, run.day, starts)?;
    let link_wakes = Wakes::new(run.alloc, links.len())?;
    let node_wakes = Wakes::new(run.alloc, run.day.town.network.nodes.len())?;
    Ok(NetworkState {
        links,
        places,
        link_wakes,
        node_wakes,
    })
}

/// The part of a partition at the start of a day: each person whose plan begins on one of its links is at the first activity, no vehicle is
/// on its links, and each of them has credit for one. Its links are those that end at its nodes, in slots, ascending by number.
///
/// Of the links it looks at those alone that end in the partition, for each of which it makes a row of some 200 bytes, and at those that
/// begin there, for the places of each; of the plans at those alone with which the day begins there (`divided_day: Division`, `homes`). It
/// goes once over the departures of the whole town, and fills tables by number for the whole of it: a row and a second of waking for each
/// person, a second of waking for each node, and a line for each stop. Of links it fills none: what is kept by the number of a link
/// stands in blocks of 16, and of each block up to that of its last link a number tells where it begins (`node_move: Space`).
///
/// # Errors
///
/// `AllocError`: there is no memory for the part.
pub fn begin(run: &Run, partition: u32) -> Result<Area, AllocError>
    ensures { let own = owner_in run.now.owner.now.of_node in let S = setup run.now.day.now in
        IfOk result (λ area. AreaStands run.now.day.now own partition 0 0 0 area (held S own partition 0) (world_held S own partition 0)) }
{
    let persons = Persons::new(run.alloc, run.day, run.homes, partition)?;
    let departures = departures_by_second(run.alloc, run.day, run.owner, partition)?;
    let lines = empty_lines(run.alloc, run.day.town.stops.rows.len())?;
    let network = empty_network(run, partition)?;
    let queues = empty_queues(run.alloc, network.links.len())?;
    Ok(Area {
        persons,
        departures,
        lines,
        network,
        queues,
    })
}
