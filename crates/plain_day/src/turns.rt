//! The turns of links and nodes in a world.

ghost use Rattle.std.specs.Prelude.{◌≡◌, ◌<◌, ◌∷◌, [], ℕ, List, length, true, IfOk, IfSome, IfNone};
ghost use Rattle.std.specs.List.{list_any};
ghost use Rattle.limits.specs.declared.TheConstants.{LAST_SECOND};
ghost use Rattle.law_in_range.specs.{Rows.IsFitWorld, Setups.counts_in};
ghost use Rattle.town.specs.Views.{setup};
ghost use Rattle.traffic.specs.{Day.link_turns, Day.node_turns, declared.moves.Move.TheVariants.Credit};
ghost use Rattle.plain_day.specs.Views.{stays_on, is_before};

use crate::links::{gain_of, rules};
use crate::views::{credit_of, in_links, is_in, is_used, link_vehicles, out_links};
use crate::waiters::waiters;
use draws::Draws;
use fixed_flow::raised_credit;
use person_moves::World;
use plain_turns::{link_moves, node_moves};
use std::alloc::{AllocError, Global};
use town::DayInput;
use traffic::{Move, Row, Stage};

/// Where a link has nothing to do in a second but to raise its credit: the credit after it.
pub fn idle_credit(day: &DayInput, link: u32, world: &World) -> Option<u32>
    requires { link < length day.now.town.now.network.links }
    ensures idle { IfSome result (λ credit. (t : ℕ) → link_turns (setup day.now) t link world.now ≡ Credit link credit ∷ []) }
    ensures busy { IfNone result (list_any (stays_on link) world.now.rows ≡ true) }
{
    if is_used(link, &world.rows) {
        return None;
    }
    let gain = gain_of(day, link);
    let before = credit_of(link, world);
    Some(raised_credit(gain, before))
}

/// The moves of a link that has more to do.
fn busy_turn(
    alloc: Global,
    day: &DayInput,
    second: u32,
    link: u32,
    world: &World,
) -> Result<Vec<Move>, AllocError>
    requires there { link < length day.now.town.now.network.links }
    requires second_in { second < LAST_SECOND }
    requires fit { IsFitWorld (counts_in day.now) world.now }
    ensures { IfOk result (λ moves. moves.items ≡ link_turns (setup day.now) second link world.now) }
{
    let rules = rules(day, link);
    let waiters = waiters(alloc, day, link, world)?;
    let link_state = link_vehicles(alloc, link, world)?;
    let credit = credit_of(link, world);
    let moves = link_moves(alloc, &rules, second, link, &waiters, &link_state, credit)?;
    Ok(moves)
}

/// The moves of a link in this second.
pub fn link_turn(
    alloc: Global,
    day: &DayInput,
    second: u32,
    link: u32,
    world: &World,
) -> Result<Vec<Move>, AllocError>
    requires there { link < length day.now.town.now.network.links }
    requires second_in { second < LAST_SECOND }
    requires fit { IsFitWorld (counts_in day.now) world.now }
    ensures { IfOk result (λ moves. moves.items ≡ link_turns (setup day.now) second link world.now) }
{
    match idle_credit(day, link, world) {
        None => busy_turn(alloc, day, second, link, world),
        Some(credit) => {
            let mut moves = Vec::new(alloc);
            moves.push(Move::Credit { link, credit })?;
            Ok(moves)
        }
    }
}

/// Whether a row stands in the buffer of a link into the node.
fn is_before(day: &DayInput, node: u32, row: &Row) -> bool
    ensures { result ≡ is_before (setup day.now) (length day.now.town.now.network.links) node row.now }
{
    row.stage == Stage::Buffer
        && (row.link as usize) < day.town.network.links.len()
        && is_in(day, node, row.link)
}

/// Whether some row stands in the buffer of a link into the node.
fn is_awaited(day: &DayInput, node: u32, rows: &[Row]) -> bool
    ensures { result ≡ list_any (is_before (setup day.now) (length day.now.town.now.network.links) node) rows.now }
{
    rows.iter().any(|row| is_before(day, node, row))
}

/// The moves of a node to which rows come.
fn awaited_turn(
    alloc: Global,
    day: &DayInput,
    second: u32,
    node: u32,
    world: &World,
) -> Result<Vec<Move>, AllocError>
    requires second_in { second < LAST_SECOND }
    requires fit { IsFitWorld (counts_in day.now) world.now }
    ensures { IfOk result (λ moves. moves.items ≡ node_turns (setup day.now) second node world.now) }
{
    let in_links = in_links(alloc, day, second, node, world)?;
    let out_links = out_links(alloc, day, second, node, world)?;
    let draws = Draws::of_node(day.town.seed, day.iteration, node);
    let moves = node_moves(
        alloc,
        &day.town.settings.stuck,
        second,
        &draws,
        in_links,
        out_links,
    )?;
    Ok(moves)
}

/// The moves of a node in this second. Where no row stands in the buffer of a link into it, nothing is allocated.
pub fn node_turn(
    alloc: Global,
    day: &DayInput,
    second: u32,
    node: u32,
    world: &World,
) -> Result<Vec<Move>, AllocError>
    requires second_in { second < LAST_SECOND }
    requires fit { IsFitWorld (counts_in day.now) world.now }
    ensures { IfOk result (λ moves. moves.items ≡ node_turns (setup day.now) second node world.now) }
{
    if !is_awaited(day, node, &world.rows) {
        return Ok(Vec::new(alloc));
    }
    let moves = awaited_turn(alloc, day, second, node, world)?;
    Ok(moves)
}
