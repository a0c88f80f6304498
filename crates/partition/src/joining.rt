//! Which partitions are neighbours.

ghost use Rattle.std.specs.Prelude.{◌≡◌, ◌≤◌, ◌<◌, ◌+◌, ◌++◌, length, map, filter, IfOk, OnOk};
ghost use Rattle.std.specs.List.{list_any, flat_map};
ghost use Rattle.limits.specs.declared.TheConstants.{MAX_PARTITIONS};
ghost use Rattle.rows.specs.PlanRows.{plan_rows};
ghost use Rattle.town.specs.Views.{setup};
ghost use Rattle.partition.specs.Neighbours.{AreJoined, AreNear, place_of, joined_in, is_either, is_over, is_hop_over, hops_in, pairs_from};
ghost use Rattle.partition.specs.{Neighbours.neighbours_of, Neighbours.is_joined, Owned.owner_in};

use crate::crossings::{hop_of, owners_of_hop};
use crate::owner::{Owner, owner_of_node};
use limits::MAX_PARTITIONS;
use rows::{LinkList, LinkRow, Plan};
use std::alloc::{AllocError, Global};
use town::DayInput;

/// Two partitions that are neighbours, the lesser one first.
#[derive(Clone, Copy, Debug, PartialEq, Eq)]
pub struct Pair {
    pub lesser: u32,
    pub greater: u32,
}

/// How many places a table of ordered pairs of partitions has.
pub(crate) const PLACES: usize = MAX_PARTITIONS as usize * MAX_PARTITIONS as usize;

/// The place of an ordered pair of partitions in a table.
pub(crate) fn place_of(from: u32, to: u32) -> usize
    requires from { from < MAX_PARTITIONS }
    requires to { to < MAX_PARTITIONS }
    ensures value { result ≡ place_of from to }
    ensures inside { result < PLACES }
{
    (from * MAX_PARTITIONS + to) as usize
}

/// Two partitions are joined, in both orders.
fn join(from: u32, to: u32, joined: &mut [bool])
    requires from { from < MAX_PARTITIONS }
    requires to { to < MAX_PARTITIONS }
    requires long { length joined.old ≡ PLACES }
    ensures { AreJoined (is_either from to) joined.old joined.new }
{
    joined[place_of(from, to)] = true;
    joined[place_of(to, from)] = true;
}

/// Those are joined between which a link leads.
fn join_by_links(owner: &Owner, links: &[LinkRow], joined: &mut [bool])
    requires { length joined.old ≡ PLACES }
    ensures { AreJoined (λ a b. list_any (is_over (owner_in owner.now.of_node) a b) links.now) joined.old joined.new }
{
    for link in links {
        let from = owner_of_node(&owner.of_node, link.from);
        let to = owner_of_node(&owner.of_node, link.to);
        join(from, to, joined);
    }
}

/// Those are joined between which a teleported leg of a plan leads.
fn join_by_plan(owner: &Owner, links: &LinkList, plan: &Plan, joined: &mut [bool])
    requires { length joined.old ≡ PLACES }
    ensures { AreJoined (λ a b. list_any (is_hop_over (owner_in owner.now.of_node) links.now a b) (hops_in (plan_rows plan.now)))
        joined.old joined.new }
{
    for leg in 0..plan.legs.rows.len() as u32 {
        if let Some(hop) = hop_of(plan, leg) {
            let (from, to) = owners_of_hop(owner, links, hop);
            join(from, to, joined);
        }
    }
}

/// The same of all plans.
fn join_by_plans(owner: &Owner, links: &LinkList, chosen: &[Plan], joined: &mut [bool])
    requires { length joined.old ≡ PLACES }
    ensures { AreJoined (λ a b. list_any (is_hop_over (owner_in owner.now.of_node) links.now a b)
        (flat_map hops_in (map plan_rows chosen.now))) joined.old joined.new }
{
    for plan in chosen {
        join_by_plan(owner, links, plan, joined);
    }
}

/// Which partitions a link or a teleported leg joins, in a table of all ordered pairs.
fn joined_by_day(alloc: Global, day: &DayInput, owner: &Owner) -> Result<Vec<bool>, AllocError>
    ensures { IfOk result (λ joined. (length joined.items ≡ PLACES)
        × AreNear (setup day.now) (owner_in owner.now.of_node) joined.items) }
{
    let mut joined = vec![in alloc; false; PLACES]?;
    let links = &day.town.network.links;
    join_by_links(owner, &links.rows, &mut joined);
    join_by_plans(owner, links, day.chosen, &mut joined);
    Ok(joined)
}

/// The pairs of a partition and a greater one that are joined.
fn push_pairs(
    joined: &[bool],
    parts: u32,
    lesser: u32,
    pairs: &mut Vec<Pair>,
) -> Result<(), AllocError>
    requires few { parts ≤ MAX_PARTITIONS }
    requires there { lesser < parts }
    requires long { length joined.now ≡ PLACES }
    ensures { OnOk result (pairs.new.items ≡ pairs.old.items ++ filter (is_joined joined.now) (pairs_from parts lesser)) }
{
    for greater in lesser + 1..parts {
        if joined[place_of(lesser, greater)] {
            pairs.push(Pair { lesser, greater })?;
        }
    }
    Ok(())
}

/// The pairs of partitions that are neighbours, ascending, the lesser one first: a link of the town joins nodes of the two, or a chosen
/// plan has a teleported leg between links of the two.
///
/// # Errors
///
/// `AllocError`: there is no memory for the pairs, or for a table of all pairs.
pub fn neighbours(alloc: Global, day: &DayInput, owner: &Owner) -> Result<Vec<Pair>, AllocError>
    ensures { IfOk result (λ pairs. pairs.items ≡ neighbours_of (setup day.now) (owner_in owner.now.of_node) owner.now.parts) }
{
    let joined = joined_by_day(alloc, day, owner)?;
    let mut pairs = Vec::new(alloc);
    for lesser in 0..owner.parts {
        push_pairs(&joined, owner.parts, lesser, &mut pairs)?;
    }
    Ok(pairs)
}
