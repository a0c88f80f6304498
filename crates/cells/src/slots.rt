// What a port does with the slots that it has out.
ghost use Rattle.std.specs.Prelude.{◌≡◌, ℕ, ◌-◌, ◌<◌, ◌≤◌, List, ◌∷◌, ◌++◌, Option};
ghost use Rattle.cells.specs.{Ports.slots_of, Ports.filled_slots_of, Rings.slot};

use crate::board::{Board, Handover};
use crate::table::{Border, Exchange, View};
use crate::{SLOTS, SLOTS_APART};
use atomic_table::Seat;

/// The slot of a channel for the parcel of a second.
fn slot_of(channel: u32, second: u32) -> usize
    ensures { result ≡ slot channel second }
{
    SLOTS_APART as usize * channel as usize + (second % SLOTS) as usize
}

/// Takes what lies in the in-slot that a look picked up, if it did. A slot with no parcel in it is read alone: it is not written, so that
/// no thread loses the line that it lies in.
pub(crate) fn unload<T: Exchange>(
    board: &Board<T>,
    seat: &mut Seat<Option<T::Parcel>, View<T::Run>>,
    border: Border,
    t: u32,
) -> Handover<T::Parcel>
    requires table { seat.old.table_id ≡ board.now.table.shared.table_id }
    requires there { border.lag ≤ t
        → (c : List (ℕ × Option T.Parcel)) × (x : Option T.Parcel)
        × (seat.old.me.1 ≡ (slot border.inward (t - border.lag), x) ∷ c) }
    ensures same { (seat.new.table_id ≡ seat.old.table_id) × (seat.new.id ≡ seat.old.id) × (seat.new.me.0 ≡ seat.old.me.0) }
    ensures parcel { border.lag ≤ t
        → (c : List (ℕ × Option T.Parcel)) (x : Option T.Parcel) → seat.old.me.1 ≡ (slot border.inward (t - border.lag), x) ∷ c
        → (result ≡ Handover.Arrived x) × (seat.new.me.1 ≡ (slot border.inward (t - border.lag), None) ∷ c) }
    ensures none { t < border.lag → (result ≡ Handover.Taken) × (seat.new.me.1 ≡ seat.old.me.1) }
{
    if border.lag > t {
        return Handover::Taken;
    }
    let slot = slot_of(border.inward, t - border.lag);
    if seat.slot_mut(&board.table.shared, slot).is_none() {
        return Handover::Arrived(None);
    }
    Handover::Arrived(board.table.shared.exchange(seat, slot, None))
}

/// Puts a parcel, if there is one, into the out-slot of a border, whose slots are ahead of the others, and turns them behind the others.
pub(crate) fn load_out<T: Exchange>(
    board: &Board<T>,
    seat: &mut Seat<Option<T::Parcel>, View<T::Run>>,
    border: Border,
    t: u32,
    parcel: Option<T::Parcel>,
)
    requires table { seat.old.table_id ≡ board.now.table.shared.table_id }
    requires there { (c : List (ℕ × Option T.Parcel)) × (seat.old.me.1 ≡ slots_of border t ++ c) }
    ensures same { (seat.new.table_id ≡ seat.old.table_id) × (seat.new.id ≡ seat.old.id) × (seat.new.me.0 ≡ seat.old.me.0) }
    ensures loaded { (c : List (ℕ × Option T.Parcel)) → seat.old.me.1 ≡ slots_of border t ++ c
        → seat.new.me.1 ≡ c ++ filled_slots_of border t parcel }
{
    if border.lag <= t {
        seat.turn();
    }
    if parcel.is_some() {
        board
            .table
            .shared
            .exchange(seat, slot_of(border.outward, t), parcel);
    }
    seat.turn();
}
