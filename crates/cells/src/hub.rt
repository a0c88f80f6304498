// How ports are split off and joined, and how a board ends.
ghost use Rattle.std.specs.Prelude.{◌≡◌, ℕ, ◌-◌, ◌<◌, true, false, [], ◌∷◌, IfOk, OnOk, OnErr};
ghost use Rattle.cells.specs.Ports.{IsHub, IsPort, had_port, joined, count_of, partition_of, done_of, degree, lag_from, handover};
ghost use Rattle.cells.specs.Ports.{is_awaited, looks, waits, still, taken_count};
ghost use Rattle.cells.specs.Rule.{contains, is_hub, hub_after, port_view};

use crate::ROOM_BEHIND;
use crate::board::{Board, Hub, Port};
use crate::borders::{all_awaited, find_borders, neighbours_over};
use crate::table::{Exchange, JoinBack, Known, SplitOff, View};
use atomic_table::Seat;
use std::alloc::{AllocError, Global};
use std::marker::Brand;

fn split_seat_at<J: Known, T: Exchange>(
    board: &Board<T>,
    seat: &mut Seat<Option<T::Parcel>, View<T::Run>>,
    p: u32,
) -> Seat<Option<T::Parcel>, View<T::Run>>
    requires table { seat.old.table_id ≡ board.now.table.shared.table_id }
    requires role { is_hub seat.old.me.0.role ≡ true }
    requires below { p < count_of board.now }
    requires without_port { contains seat.old.me.0.had_port p ≡ false }
    requires known { p ≡ J.partition }
    ensures same { (seat.new.table_id ≡ seat.old.table_id) × (seat.new.me ≡ (hub_after seat.old.me.0 p, seat.old.me.1)) }
    ensures new { (result.table_id ≡ seat.old.table_id) × (result.me ≡ (port_view seat.old.me.0.run p, [])) }
{
    board.table.shared.split_seat::<SplitOff<J>>(seat)
}

/// A seat for the port of `p`.
fn split_seat<T: Exchange>(
    board: &Board<T>,
    seat: &mut Seat<Option<T::Parcel>, View<T::Run>>,
    p: u32,
) -> Seat<Option<T::Parcel>, View<T::Run>>
    requires table { seat.old.table_id ≡ board.now.table.shared.table_id }
    requires role { is_hub seat.old.me.0.role ≡ true }
    requires below { p < count_of board.now }
    requires without_port { contains seat.old.me.0.had_port p ≡ false }
    ensures same { (seat.new.table_id ≡ seat.old.table_id) × (seat.new.me ≡ (hub_after seat.old.me.0 p, seat.old.me.1)) }
    ensures new { (result.table_id ≡ seat.old.table_id) × (result.me ≡ (port_view seat.old.me.0.run p, [])) }
{
    split_seat_at::<Brand, T>(board, seat, p)
}

impl<T: Exchange> Hub<T> {
    /// The port of partition `p`, which is below the board's count and has had none yet. Its neighbours and lags are those by the board's
    /// pairs. At a refusal, which is want of memory, the hub is as it was.
    pub fn split(&mut self, alloc: Global, board: &Board<T>, p: u32) -> Result<Port<T>, AllocError>
        requires hub { IsHub board.now self.old }
        requires below { p < count_of board.now }
        requires without_port { contains (had_port self.old) p ≡ false }
        ensures hub { IsHub board.now self.new }
        ensures port { IfOk result (λ q. IsPort T.right board.now q × (partition_of q ≡ p) × (done_of q ≡ 0)) }
        ensures awaited { IfOk result (λ q. (k : ℕ) → k < degree q → is_awaited (handover q k) ≡ true) }
        ensures counts { IfOk result (λ q. (looks q ≡ 0) × (waits q ≡ 0) × (still q ≡ 0)) }
        ensures taken { IfOk result (λ q. (k : ℕ) → k < degree q → taken_count q k ≡ 0) }
        ensures lists { OnOk result ((had_port self.new ≡ p ∷ had_port self.old) × (joined self.new ≡ joined self.old)) }
        ensures refused { OnErr result (self.new ≡ self.old) }
    {
        let borders = find_borders(alloc, board.channels.as_slice(), board.count, p)?;
        let neighbours = neighbours_over(alloc, borders.as_slice())?;
        let handovers = all_awaited(alloc, borders.as_slice())?;
        let order = Vec::with_capacity(alloc, borders.len() + ROOM_BEHIND)?;
        let seat = split_seat(board, &mut self.seat, p);
        Ok(Port {
            seat,
            partition: p,
            done: 0,
            neighbours,
            borders,
            handovers,
            order,
        })
    }

    /// Takes a port back, which holds no slot: no neighbour was ready since it last published. By then each parcel that a neighbour sent
    /// before second `done() - lag` was taken once.
    pub fn join(&mut self, board: &Board<T>, port: Port<T>)
        requires hub { IsHub board.now self.old }
        requires port { IsPort T.right board.now port }
        requires awaited { (k : ℕ) → k < degree port → is_awaited (handover port k) ≡ true }
        ensures hub { IsHub board.now self.new }
        ensures lists { (had_port self.new ≡ had_port self.old) × (joined self.new ≡ partition_of port ∷ joined self.old) }
        ensures taken { (k : ℕ) → k < degree port → taken_count port k ≡ done_of port - lag_from port k }
    {
        let Port {
            seat,
            partition: _,
            done: _,
            neighbours: _,
            borders: _,
            handovers: _,
            order: _,
        } = port;
        board
            .table
            .shared
            .join_seat::<JoinBack>(&mut self.seat, seat);
    }
}

impl<T: Exchange> Board<T> {
    /// Ends the board, once each port that was split off was joined. The parcels that lie in its slots, those of the last seconds, are
    /// dropped.
    pub fn close(self, hub: Hub<T>)
        requires hub { IsHub self hub }
        requires joined { (p : ℕ) → p < count_of self → contains (had_port hub) p ≡ true → contains (joined hub) p ≡ true }
    {
        drop(hub);
        drop(self);
    }
}
