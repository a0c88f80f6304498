//! The turn of a link, as its moves.

ghost use Rattle.std.specs.Prelude.{◌≡◌, ◌<◌, ◌≤◌, ◌+◌, ◌^◌, ◌++◌, ◌∷◌, [], length, true, map, filter};
ghost use Rattle.std.specs.Prelude.{OnOk, IfOk, nat_le};
ghost use Rattle.limits.specs.declared.TheConstants.{LAST_SECOND};
ghost use Rattle.traffic.specs.declared.world.Row.{Row};
ghost use Rattle.traffic.specs.Links.{waiting, leave_bay, is_last, buffered, may_pass, from_wait, from_queue, wait_after, link_moves};
ghost use Rattle.traffic.specs.declared.moves.Move.TheVariants.{Transfer, Remove, LeaveHole, Credit};
ghost use Rattle.traffic.specs.declared.stage.Stage.TheVariants.{Queue, Buffer, Wait, Bay};
ghost use Rattle.plain_turns.specs.{Limits.AreSmall, LinkState.link_state_of};
ghost use Rattle.rows.specs.Settings.{IsDwelling};

use crate::fronts::{push_removal, push_transfer};
use crate::lists::LinkVehicles;
use crate::stops::serve;
use fixed_flow::{VEHICLE_COST, raised_credit};
use std::alloc::{AllocError, Global};
use traffic::{Move, Row, Rules, Stage, Waiter};
use vehicles::{calls_on, is_last};

/// A row at the end of the wait list of link `l`.
fn waiting(l: u32, row: &Row) -> Result<Row, AllocError>
    ensures { IfOk result (λ after. after ≡ waiting l row.now) }
{
    let mut after = row.try_clone()?;
    after.link = l;
    after.stage = Stage::Wait;
    after.second = 0;
    Ok(after)
}

/// Step 1, from place `k` of the bay on.
#[tactic(auto, unfolding(traffic::specs::Links::leave_bay))]
fn push_leave_bay(
    second: u32,
    l: u32,
    k: usize,
    bay: &[Row],
    out: &mut Vec<Move>,
) -> Result<(), AllocError>
    requires { k + length bay.now < 2 ^ 64 }
    ensures { OnOk result (out.new.items ≡ out.old.items ++ leave_bay second l k bay.now) }
{
    let mut k = k;
    for row in bay {
        if row.second <= second {
            let was = row.try_clone()?;
            let now = waiting(l, row)?;
            out.push(Move::Transfer {
                link: l,
                stage: Stage::Bay,
                place: k,
                was,
                now,
            })?;
        } else {
            k += 1;
        }
    }
    Ok(())
}

/// The row at the end of a buffer of `b` rows.
fn buffered(second: u32, l: u32, b: usize, row: &Row) -> Result<Row, AllocError>
    ensures { IfOk result (λ after. after ≡ buffered second l b row.now) }
{
    let mut vehicle = row.vehicle.try_clone()?;
    vehicle.started = true;
    Ok(Row {
        vehicle,
        link: l,
        stage: Stage::Buffer,
        second: if b == 0 { second } else { 0 },
    })
}

fn may_pass(rules: &Rules, b: usize, credit: u32) -> bool
    ensures value { result ≡ may_pass rules.now b credit }
    ensures paid { result ≡ true → VEHICLE_COST ≤ credit }
    ensures room { result ≡ true → b < 4294967295 }
{
    let room = rules.room;
    b < room as usize && VEHICLE_COST <= credit
}

/// A row goes from the wait list into the bay or into the buffer.
fn push_from_wait_to(l: u32, row: &Row, now: Row, out: &mut Vec<Move>) -> Result<(), AllocError>
    ensures { OnOk result (out.new.items ≡ out.old.items ++ Transfer l Wait 0 row.now now ∷ []) }
{
    let was = row.try_clone()?;
    push_transfer(l, Stage::Wait, was, now, out)?;
    Ok(())
}

/// A row leaves the wait list for good.
fn push_gone_from_wait(l: u32, row: &Row, out: &mut Vec<Move>) -> Result<(), AllocError>
    ensures { OnOk result (out.new.items ≡ out.old.items ++ Remove l Wait 0 row.now ∷ []) }
{
    let was = row.try_clone()?;
    push_removal(l, Stage::Wait, was, out)?;
    Ok(())
}

/// A row goes from the queue into the bay or into the buffer, and leaves a place.
fn push_from_queue_to(
    second: u32,
    l: u32,
    row: &Row,
    now: Row,
    out: &mut Vec<Move>,
) -> Result<(), AllocError>
    ensures { OnOk result (out.new.items ≡ out.old.items ++ Transfer l Queue 0 row.now now ∷ LeaveHole l second ∷ []) }
{
    let was = row.try_clone()?;
    push_transfer(l, Stage::Queue, was, now, out)?;
    out.push(Move::LeaveHole { link: l, second })?;
    Ok(())
}

/// A row leaves the queue for good, and leaves a place.
fn push_gone_from_queue(
    second: u32,
    l: u32,
    row: &Row,
    out: &mut Vec<Move>,
) -> Result<(), AllocError>
    ensures { OnOk result (out.new.items ≡ out.old.items ++ Remove l Queue 0 row.now ∷ LeaveHole l second ∷ []) }
{
    let was = row.try_clone()?;
    push_removal(l, Stage::Queue, was, out)?;
    out.push(Move::LeaveHole { link: l, second })?;
    Ok(())
}

/// A row goes from the queue into the buffer, leaves a place, and pays.
fn push_passing(
    second: u32,
    l: u32,
    row: &Row,
    now: Row,
    paid: u32,
    out: &mut Vec<Move>,
) -> Result<(), AllocError>
    ensures { OnOk result (out.new.items ≡ out.old.items ++ Transfer l Queue 0 row.now now
        ∷ LeaveHole l second ∷ Credit l paid ∷ []) }
{
    push_from_queue_to(second, l, row, now, out)?;
    out.push(Move::Credit {
        link: l,
        credit: paid,
    })?;
    Ok(())
}

/// A row goes from the wait list into the buffer, and pays.
fn push_entering(
    l: u32,
    row: &Row,
    now: Row,
    paid: u32,
    out: &mut Vec<Move>,
) -> Result<(), AllocError>
    ensures { OnOk result (out.new.items ≡ out.old.items ++ Transfer l Wait 0 row.now now ∷ Credit l paid ∷ []) }
{
    push_from_wait_to(l, row, now, out)?;
    out.push(Move::Credit {
        link: l,
        credit: paid,
    })?;
    Ok(())
}

/// A link in a second: what does not change over its turn.
#[derive(Clone, Copy)]
struct LinkSecond {
    link: u32,
    second: u32,
    rules: Rules,
}

/// What changes over the turn: who waits at the link's stops, how many rows are in its buffer, and its credit.
#[derive(Drop)]
struct Passage {
    waiters: Vec<Waiter>,
    buffered: usize,
    credit: u32,
}

/// Step 4: the rows of the wait list leave it, from the front on.
#[tactic(auto, unfolding(traffic::specs::Links::from_wait))]
fn push_from_wait(
    alloc: Global,
    at: LinkSecond,
    passage: Passage,
    rows: &[Row],
    out: &mut Vec<Move>,
) -> Result<(), AllocError>
    requires dwell_in { IsDwelling at.rules.dwell }
    requires second_in { at.second < LAST_SECOND }
    requires small { AreSmall rows.now }
    ensures { OnOk result (out.new.items
        ≡ out.old.items
        ++ from_wait at.rules at.second at.link passage.waiters.items passage.buffered passage.credit rows.now) }
{
    let mut passage = passage;
    for row in rows {
        let vehicle = &row.vehicle;
        if calls_on(at.link, vehicle) {
            let service = serve(
                alloc,
                &at.rules.dwell,
                at.second,
                at.link,
                &passage.waiters,
                vehicle,
            )?;
            passage.waiters = service.left;
            push_from_wait_to(at.link, row, service.row, out)?;
        } else if is_last(vehicle) {
            push_gone_from_wait(at.link, row, out)?;
        } else if may_pass(&at.rules, passage.buffered, passage.credit) {
            let now = buffered(at.second, at.link, passage.buffered, row)?;
            passage.buffered += 1;
            passage.credit -= VEHICLE_COST;
            push_entering(at.link, row, now, passage.credit, out)?;
        } else {
            return Ok(());
        }
    }
    Ok(())
}

/// Step 3: the rows of the queue leave it, from the front on; and then step 4.
#[tactic(auto, unfolding(traffic::specs::Links::from_queue))]
fn push_from_queue(
    alloc: Global,
    at: LinkSecond,
    passage: Passage,
    rows: &[Row],
    wait: &[Row],
    out: &mut Vec<Move>,
) -> Result<(), AllocError>
    requires dwell_in { IsDwelling at.rules.dwell }
    requires second_in { at.second < LAST_SECOND }
    requires small { AreSmall rows.now }
    requires small_wait { AreSmall wait.now }
    ensures { OnOk result (out.new.items
        ≡ out.old.items
        ++ from_queue at.rules at.second at.link passage.waiters.items passage.buffered passage.credit rows.now wait.now) }
{
    let mut passage = passage;
    for row in rows {
        let vehicle = &row.vehicle;
        if at.second < row.second {
            return push_from_wait(alloc, at, passage, wait, out);
        }
        if calls_on(at.link, vehicle) {
            let service = serve(
                alloc,
                &at.rules.dwell,
                at.second,
                at.link,
                &passage.waiters,
                vehicle,
            )?;
            passage.waiters = service.left;
            push_from_queue_to(at.second, at.link, row, service.row, out)?;
        } else if is_last(vehicle) {
            push_gone_from_queue(at.second, at.link, row, out)?;
        } else if may_pass(&at.rules, passage.buffered, passage.credit) {
            let now = buffered(at.second, at.link, passage.buffered, row)?;
            passage.buffered += 1;
            passage.credit -= VEHICLE_COST;
            push_passing(at.second, at.link, row, now, passage.credit, out)?;
        } else {
            return push_from_wait(alloc, at, passage, wait, out);
        }
    }
    push_from_wait(alloc, at, passage, wait, out)
}

/// Appends the same rows.
fn push_rows(rows: &[Row], out: &mut Vec<Row>) -> Result<(), AllocError>
    ensures { OnOk result (out.new.items ≡ out.old.items ++ rows.now) }
{
    for row in rows {
        let same = row.try_clone()?;
        out.push(same)?;
    }
    Ok(())
}

/// Appends the rows of a bay whose second has come, as they stand on the wait list.
fn push_due(second: u32, l: u32, bay: &[Row], out: &mut Vec<Row>) -> Result<(), AllocError>
    ensures { OnOk result (out.new.items
        ≡ out.old.items ++ map (waiting l) (filter (λ (r : Row). nat_le r.second second) bay.now)) }
{
    for row in bay {
        if row.second <= second {
            let after = waiting(l, row)?;
            out.push(after)?;
        }
    }
    Ok(())
}

/// The wait list once the bay is left.
fn wait_after(
    alloc: Global,
    second: u32,
    l: u32,
    link_state: &LinkVehicles,
) -> Result<Vec<Row>, AllocError>
    ensures { IfOk result (λ after. after.items
        ≡ link_state.now.wait.items ++ map (waiting l) (filter (λ (r : Row). nat_le r.second second) link_state.now.bay.items)) }
{
    let mut wait = Vec::new(alloc);
    push_rows(&link_state.wait, &mut wait)?;
    push_due(second, l, &link_state.bay, &mut wait)?;
    Ok(wait)
}

/// The same, of rows that are small.
fn small_wait_after(
    alloc: Global,
    second: u32,
    l: u32,
    link_state: &LinkVehicles,
) -> Result<Vec<Row>, AllocError>
    requires wait { AreSmall link_state.now.wait.items }
    requires bay { AreSmall link_state.now.bay.items }
    ensures value { IfOk result (λ after. after.items
        ≡ link_state.now.wait.items ++ map (waiting l) (filter (λ (r : Row). nat_le r.second second) link_state.now.bay.items)) }
    ensures small { IfOk result (λ after. AreSmall after.items) }
{
    let after = wait_after(alloc, second, l, link_state)?;
    Ok(after)
}

/// The moves of link `l` in this second, by its lists, its credit and those who wait at its stops.
#[tactic(auto, unfolding(traffic::specs::Links::link_moves))]
pub fn link_moves(
    alloc: Global,
    rules: &Rules,
    second: u32,
    l: u32,
    waiters: &[Waiter],
    link_state: &LinkVehicles,
    credit: u32,
) -> Result<Vec<Move>, AllocError>
    requires dwell_in { IsDwelling rules.now.dwell }
    requires second_in { second < LAST_SECOND }
    requires small { AreSmall link_state.now.queue.items }
    requires small_wait { AreSmall link_state.now.wait.items }
    requires small_bay { AreSmall link_state.now.bay.items }
    ensures { IfOk result (λ moves. moves.items ≡ link_moves rules.now second l waiters.now (link_state_of link_state.now credit)) }
{
    let wait = small_wait_after(alloc, second, l, link_state)?;
    let credit = raised_credit(rules.gain, credit);
    let mut moves = Vec::new(alloc);
    push_leave_bay(second, l, 0, &link_state.bay, &mut moves)?;
    moves.push(Move::Credit { link: l, credit })?;
    let at = LinkSecond {
        link: l,
        second,
        rules: *rules,
    };
    let passage = Passage {
        waiters: Vec::from_slice(alloc, waiters)?,
        buffered: link_state.buffer.len(),
        credit,
    };
    push_from_queue(alloc, at, passage, &link_state.queue, &wait, &mut moves)?;
    Ok(moves)
}
