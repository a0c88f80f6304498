// How a port looks at a neighbour.
ghost use Rattle.std.specs.Prelude.{◌≡◌, ◌<◌, true};
ghost use Rattle.cells.specs.Rule.{Looks, place, is_port};
ghost use Rattle.cells.specs.Ports.{IsBorder, IsPort, SameSecond, Reads, Answers, TakesNone, degree, channels_in};

use crate::WORDS_APART;
use crate::board::{Board, Handover, Look, Port};
use crate::slots::unload;
use crate::table::{Border, Exchange, Known, Looking, View};
use atomic_table::Seat;
use std::marker::Brand;

fn read_at<J: Known, T: Exchange>(
    board: &Board<T>,
    seat: &mut Seat<Option<T::Parcel>, View<T::Run>>,
    border: Border,
) -> u64
    requires table { seat.old.table_id ≡ board.now.table.shared.table_id }
    requires role { is_port seat.old.me.0.role ≡ true }
    requires border { IsBorder (channels_in board.now) seat.old.me.0.partition border }
    requires known { border ≡ J.border }
    ensures same { (seat.new.table_id ≡ seat.old.table_id) × (seat.new.id ≡ seat.old.id) }
    ensures looks { Looks T.right border (place border.from) seat.old.me result seat.new.me }
{
    board
        .table
        .shared
        .load::<Looking<T, J>>(seat, WORDS_APART * border.from as usize)
}

/// Reads the word of the neighbour over a border, and picks up two slots where it is far enough for the first time in this second.
fn read<T: Exchange>(
    board: &Board<T>,
    seat: &mut Seat<Option<T::Parcel>, View<T::Run>>,
    border: Border,
) -> u64
    requires table { seat.old.table_id ≡ board.now.table.shared.table_id }
    requires role { is_port seat.old.me.0.role ≡ true }
    requires border { IsBorder (channels_in board.now) seat.old.me.0.partition border }
    ensures same { (seat.new.table_id ≡ seat.old.table_id) × (seat.new.id ≡ seat.old.id) }
    ensures looks { Looks T.right border (place border.from) seat.old.me result seat.new.me }
{
    read_at::<Brand, T>(board, seat, border)
}

impl<T: Exchange> Port<T> {
    /// Looks at neighbour `k`: whether it is far enough for the second that this port is about to do. It is ready exactly where the word
    /// that this call reads (the seconds that the neighbour has published) plus the lag from it is more than `done()`; otherwise that word
    /// is answered. A neighbour that was ready stays so until this port publishes.
    pub fn look(&mut self, board: &Board<T>, k: usize) -> Look
        requires port { IsPort T.right board.now self.old }
        requires neighbour { k < degree self.old }
        ensures port { IsPort T.right board.now self.new }
        ensures same { SameSecond self.old self.new }
        ensures read { Reads self.old self.new k }
        ensures answer { Answers self.old self.new k result }
        ensures taken { TakesNone self.old self.new }
    {
        let border = self.borders[k];
        let t = self.done;
        let word = read(board, &mut self.seat, border);
        if border.lag <= t && word <= (t - border.lag) as u64 {
            return Look::NotYet {
                published: word as u32,
            };
        }
        if let Handover::Awaited = &self.handovers[k] {
            self.handovers[k] = unload(board, &mut self.seat, border, t);
            match self.order.push(k) {
                Ok(()) => {}
                Err(_) => unreachable!(),
            }
        }
        Look::Ready
    }
}
