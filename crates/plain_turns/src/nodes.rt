//! The turn of a node, as its moves.

ghost use Rattle.std.specs.Prelude.{◌≡◌, Some, ◌<◌, ◌≤◌, ◌+◌, ◌*◌, ◌-◌, ◌++◌, ◌∷◌, [], length, map};
ghost use Rattle.std.specs.Prelude.{filter, not, OnOk, IfOk, IfSome};
ghost use Rattle.limits.specs.declared.TheConstants.{LAST_SECOND, MAX_IN_LINKS, MAX_LENGTH};
ghost use Rattle.draws.specs.Words.{word};
ghost use Rattle.traffic.specs.{Lists.is_nil, Moves.at_second};
ghost use Rattle.traffic.specs.Nodes.{next_link, is_stuck, may_enter, has_room, seconds_along, one_more, entered, pass_node, since_of};
ghost use Rattle.traffic.specs.Nodes.{pass_node_all, draw, ready, red, candidates, mark, node_moves, out_links_after, HasNext, HaveNext};
ghost use Rattle.traffic.specs.declared.moves.Move.TheVariants.{Transfer, Remove, SetFrontSince};
ghost use Rattle.traffic.specs.declared.stage.Stage.TheVariants.{Queue, Buffer};
ghost use Rattle.plain_turns.specs.OutLinks.{out_links_in, AreNear, IsInLink, AreInLinks, is_green, node_view_of};

use crate::fronts::{push_removal, push_transfer};
use crate::out_links::{OutLinkRow, out_link_of, with_taken};
use crate::picks::{drawn, take_in_link};
use draws::Draws;
use rows::Stuck;
use std::alloc::{AllocError, Global};
use traffic::{InLink, Move, OutLink, Row, Stage, Vehicle};
use vehicles::{has_free_place, is_stuck, may_enter, next_link};

/// Whether the out-link has fewer taken places than its storage, and the seconds along it.
fn place_of(out_link: Option<OutLink>) -> (bool, u32)
    requires { IfSome out_link (λ e. e.seconds ≤ MAX_LENGTH) }
    ensures room { result.0 ≡ has_room out_link }
    ensures seconds { result.1 ≡ seconds_along out_link }
    ensures near { result.1 ≤ MAX_LENGTH }
{
    match out_link {
        None => (false, 0),
        Some(out_link) => (has_free_place(out_link), out_link.seconds),
    }
}

/// The row at the end of the queue of its next link.
fn entered(second: u32, out_link: Option<OutLink>, vehicle: &Vehicle) -> Result<Row, AllocError>
    requires second_in { second < LAST_SECOND }
    requires near { IfSome out_link (λ e. e.seconds ≤ MAX_LENGTH) }
    requires next { HasNext vehicle.now }
    ensures { IfOk result (λ row. row ≡ entered second out_link vehicle.now) }
{
    let (room, seconds) = place_of(out_link);
    let link = next_link(vehicle);
    let mut after = vehicle.try_clone()?;
    after.place += 1;
    after.pushed = !room;
    Ok(Row {
        vehicle: after,
        link,
        stage: Stage::Queue,
        second: second + seconds,
    })
}

/// The row as it stands with this second.
fn at_second(second: u32, row: &Row) -> Result<Row, AllocError>
    ensures { IfOk result (λ after. after ≡ at_second second row.now) }
{
    let mut after = row.try_clone()?;
    after.second = second;
    Ok(after)
}

/// The front of the buffer of link `a` enters its next link, and the one behind it is first.
fn push_entering(
    second: u32,
    a: u32,
    since: u32,
    out_link: Option<OutLink>,
    row: &Row,
    out: &mut Vec<Move>,
) -> Result<(), AllocError>
    requires second_in { second < LAST_SECOND }
    requires near { IfSome out_link (λ e. e.seconds ≤ MAX_LENGTH) }
    requires next { HasNext row.now.vehicle }
    ensures { OnOk result (out.new.items
        ≡ out.old.items ++ Transfer a Buffer 0 (at_second since row.now) (entered second out_link row.now.vehicle)
        ∷ SetFrontSince a second ∷ []) }
{
    let was = at_second(since, row)?;
    let now = entered(second, out_link, &row.vehicle)?;
    push_transfer(a, Stage::Buffer, was, now, out)?;
    out.push(Move::SetFrontSince { link: a, second })?;
    Ok(())
}

/// The front of the buffer of link `a` is removed, and the one behind it is first.
fn push_removed(
    second: u32,
    a: u32,
    since: u32,
    row: &Row,
    out: &mut Vec<Move>,
) -> Result<(), AllocError>
    ensures { OnOk result (out.new.items ≡ out.old.items ++ Remove a Buffer 0 (at_second since row.now)
        ∷ SetFrontSince a second ∷ []) }
{
    let was = at_second(since, row)?;
    push_removal(a, Stage::Buffer, was, out)?;
    out.push(Move::SetFrontSince { link: a, second })?;
    Ok(())
}

/// Whether the front of a buffer, first since this second, may enter its next link.
fn enters(stuck: &Stuck, second: u32, since: u32, out_links: &[OutLinkRow], row: &Row) -> bool
    requires { AreNear out_links.now }
    ensures { result ≡ may_enter stuck.now second since (out_links_in out_links.now (next_link row.now.vehicle)) }
{
    let out_link = out_link_of(out_links, next_link(&row.vehicle));
    may_enter(stuck, second, since, out_link)
}

/// A row enters its next link; answers the out-links after that.
fn push_enters(
    alloc: Global,
    second: u32,
    a: u32,
    out_links: &[OutLinkRow],
    since: u32,
    row: &Row,
    out: &mut Vec<Move>,
) -> Result<Vec<OutLinkRow>, AllocError>
    requires second_in { second < LAST_SECOND }
    requires near { AreNear out_links.now }
    requires next { HasNext row.now.vehicle }
    ensures moves { OnOk result (out.new.items ≡ out.old.items
        ++ Transfer a Buffer 0 (at_second since row.now)
        (entered second (out_links_in out_links.now (next_link row.now.vehicle)) row.now.vehicle)
        ∷ SetFrontSince a second ∷ []) }
    ensures out_links { IfOk result (λ after. out_links_in after.items
        ≡ one_more (next_link row.now.vehicle) (out_links_in out_links.now)) }
    ensures near_after { IfOk result (λ after. AreNear after.items) }
{
    let m = next_link(&row.vehicle);
    let out_link = out_link_of(out_links, m);
    push_entering(second, a, since, out_link, row, out)?;
    let after = with_taken(alloc, m, out_links)?;
    Ok(after)
}

/// The second in which nodes have their turns, and when a front is stuck in it.
#[derive(Clone, Copy)]
struct NodeSecond {
    second: u32,
    stuck: Stuck,
}

/// Link `a` hands over; answers the out-links after that.
#[tactic(auto, unfolding(traffic::specs::Nodes::pass_node))]
fn push_pass_node(
    alloc: Global,
    at: NodeSecond,
    a: u32,
    out_links: Vec<OutLinkRow>,
    since: u32,
    rows: &[Row],
    out: &mut Vec<Move>,
) -> Result<Vec<OutLinkRow>, AllocError>
    requires second_in { at.second < LAST_SECOND }
    requires near { AreNear out_links.items }
    requires next { HaveNext rows.now }
    ensures moves { OnOk result (out.new.items
        ≡ out.old.items ++ pass_node at.stuck at.second a (out_links_in out_links.items) since rows.now) }
    ensures out_links { IfOk result (λ after. out_links_in after.items
        ≡ out_links_after (pass_node at.stuck at.second a (out_links_in out_links.items) since rows.now) (out_links_in out_links.items)) }
    ensures near_after { IfOk result (λ after. AreNear after.items) }
{
    let mut out_links = out_links;
    let mut since = since;
    for row in rows {
        if enters(&at.stuck, at.second, since, &out_links, row) {
            out_links = push_enters(alloc, at.second, a, &out_links, since, row, out)?;
        } else if is_stuck(&at.stuck, at.second, since) {
            push_removed(at.second, a, since, row, out)?;
        } else {
            return Ok(out_links);
        }
        since = at.second;
    }
    Ok(out_links)
}

/// The second of the first row.
fn since_of(rows: &[Row]) -> u32
    ensures { result ≡ since_of rows.now }
{
    match rows {
        [] => 0,
        [row, ..] => row.second,
    }
}

/// A candidate hands over; answers the out-links after that.
fn push_pass_node_all(
    alloc: Global,
    at: NodeSecond,
    out_links: Vec<OutLinkRow>,
    in_link: &InLink,
    out: &mut Vec<Move>,
) -> Result<Vec<OutLinkRow>, AllocError>
    requires second_in { at.second < LAST_SECOND }
    requires near { AreNear out_links.items }
    requires in_link { IsInLink in_link.now }
    ensures moves { OnOk result (out.new.items
        ≡ out.old.items ++ pass_node_all at.stuck at.second (out_links_in out_links.items) in_link.now) }
    ensures out_links { IfOk result (λ after. out_links_in after.items
        ≡ out_links_after (pass_node_all at.stuck at.second (out_links_in out_links.items) in_link.now) (out_links_in out_links.items)) }
    ensures near_after { IfOk result (λ after. AreNear after.items) }
{
    let rows = in_link.rows.rows.as_slice();
    push_pass_node(
        alloc,
        at,
        in_link.link,
        out_links,
        since_of(rows),
        rows,
        out,
    )
}

/// Pick number `j`: the drawn candidate hands over and is no candidate any more; answers the out-links
/// after that.
fn push_pick(
    alloc: Global,
    at: NodeSecond,
    draws: &Draws,
    j: u32,
    in_links: &mut Vec<InLink>,
    out_links: Vec<OutLinkRow>,
    out: &mut Vec<Move>,
) -> Result<Vec<OutLinkRow>, AllocError>
    requires second_in { at.second < LAST_SECOND }
    requires near { AreNear out_links.items }
    requires in_links { AreInLinks in_links.old.items }
    requires some { 0 < length in_links.old.items }
    requires few { j + length in_links.old.items ≤ MAX_IN_LINKS }
    ensures step { IfOk result (λ after. out.new.items
        ++ draw at.stuck at.second (word draws.now) (length in_links.new.items) (j + 1) in_links.new.items (out_links_in after.items)
        ≡ out.old.items
        ++ draw at.stuck at.second (word draws.now) (length in_links.old.items) j in_links.old.items (out_links_in out_links.items)) }
    ensures near_after { IfOk result (λ after. AreNear after.items) }
    ensures in_links_after { OnOk result (AreInLinks in_links.new.items) }
    ensures count { OnOk result (length in_links.new.items + 1 ≡ length in_links.old.items) }
{
    let word = draws.word(16 * u64::from(at.second) + u64::from(j));
    let k = drawn(alloc, in_links, word)?;
    let in_link = take_in_link(in_links, k);
    let after = push_pass_node_all(alloc, at, out_links, &in_link, out)?;
    Ok(after)
}

/// The drawing: candidates are drawn until none is left.
#[tactic(auto, unfolding(traffic::specs::Nodes::draw))]
fn push_draw(
    alloc: Global,
    at: NodeSecond,
    draws: &Draws,
    in_links: Vec<InLink>,
    out_links: Vec<OutLinkRow>,
    out: &mut Vec<Move>,
) -> Result<(), AllocError>
    requires second_in { at.second < LAST_SECOND }
    requires near { AreNear out_links.items }
    requires in_links { AreInLinks in_links.items }
    requires few { length in_links.items ≤ MAX_IN_LINKS }
    ensures { OnOk result (out.new.items ≡ out.old.items
        ++ draw at.stuck at.second (word draws.now) (length in_links.items) 0 in_links.items (out_links_in out_links.items)) }
{
    let mut in_links = in_links;
    let mut out_links = out_links;
    let count = in_links.len() as u32;
    for j in 0..count {
        out_links = push_pick(alloc, at, draws, j, &mut in_links, out_links, out)?;
    }
    Ok(())
}

fn is_ready(in_link: &InLink) -> bool
    ensures { result ≡ not (is_nil in_link.now.rows) }
{
    !in_link.rows.rows.is_empty()
}

/// The fronts of red links are first since `t`.
fn push_red(second: u32, in_links: &[InLink], out: &mut Vec<Move>) -> Result<(), AllocError>
    ensures { OnOk result (out.new.items ≡ out.old.items ++ map (mark second) (red in_links.now)) }
{
    for in_link in in_links {
        if is_ready(in_link) && !in_link.green {
            out.push(Move::SetFrontSince {
                link: in_link.link,
                second,
            })?;
        }
    }
    Ok(())
}

fn keep_ready(in_links: &mut Vec<InLink>)
    ensures { in_links.new.items ≡ ready in_links.old.items }
{
    in_links.retain(|in_link| is_ready(in_link));
}

fn keep_green(in_links: &mut Vec<InLink>)
    ensures { in_links.new.items ≡ filter is_green in_links.old.items }
{
    in_links.retain(|in_link| in_link.green);
}

/// The green links with a nonempty buffer.
#[tactic(auto, using(crate::proofs::Drawing::are_candidates, crate::proofs::Drawing::few_candidates))]
fn candidates(in_links: Vec<InLink>) -> Vec<InLink>
    requires { AreInLinks in_links.items }
    ensures value { result.items ≡ candidates in_links.items }
    ensures are { AreInLinks result.items }
    ensures few { length result.items ≤ length in_links.items }
{
    let mut left = in_links;
    keep_ready(&mut left);
    keep_green(&mut left);
    left
}

/// The moves of a node in this second, by the links into it, in order, the links out of it, and its
/// words.
#[tactic(auto, unfolding(traffic::specs::Nodes::node_moves))]
pub fn node_moves(
    alloc: Global,
    stuck: &Stuck,
    second: u32,
    draws: &Draws,
    in_links: Vec<InLink>,
    out_links: Vec<OutLinkRow>,
) -> Result<Vec<Move>, AllocError>
    requires second_in { second < LAST_SECOND }
    requires near { AreNear out_links.items }
    requires in_links { AreInLinks in_links.items }
    requires few { length in_links.items ≤ MAX_IN_LINKS }
    ensures { IfOk result (λ moves. moves.items
        ≡ node_moves stuck.now second (word draws.now) (node_view_of in_links.items out_links.items)) }
{
    let mut moves = Vec::new(alloc);
    push_red(second, &in_links, &mut moves)?;
    let links = candidates(in_links);
    let at = NodeSecond {
        second,
        stuck: *stuck,
    };
    push_draw(alloc, at, draws, links, out_links, &mut moves)?;
    Ok(moves)
}
