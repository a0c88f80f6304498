//! The handing over of one link.

ghost use Rattle.std.specs.Prelude.{◌≡◌, ℕ, ◌+◌, ◌<◌, [], ◌∷◌, ◌++◌, not, true, OnOk};
ghost use Rattle.events.specs.declared.event.{More.TheVariants.Nothing, Word.TheVariants.LeftLink, Word.TheVariants.EnteredLink};
ghost use Rattle.traffic.specs.{Nodes.has_room, Nodes.pass_node_all, Nodes.HasNext, Nodes.HaveNext, Telling.of_vehicle, Telling.aborts};
ghost use Rattle.node_move.specs.{NodeStates.node_state, NodeStates.node_run, NodeStates.in_link_of, Spaces.places_in, Spaces.holes_in};

use crate::space::Space;
use crate::turns::NodeTurn;
use events::{More, Word};
use queue_link::LinkState;
use std::alloc::AllocError;
use traffic::{Occurrence, OutLink, Row, Vehicle};
use vehicles::{has_free_place, is_stuck, may_enter, next_link, of_vehicle, push_aborts};

/// A vehicle that enters a link.
#[derive(Drop)]
pub struct Entering {
    pub link: u32,
    pub vehicle: Vehicle,
}

/// What leaves the links into a node: who enters other links, and who is removed, both in order.
#[derive(Drop)]
pub struct Crossings {
    pub entering: Vec<Entering>,
    pub removed: Vec<Vehicle>,
}

/// Whether these places have room.
pub(crate) fn has_room(places: Option<OutLink>) -> bool
    ensures { result ≡ has_room places }
{
    match places {
        None => false,
        Some(places) => has_free_place(places),
    }
}

/// The vehicle of a row that enters its next link, which it was pushed into where that had no room.
fn entered(row: Row, room: bool) -> Vehicle
    requires { HasNext row.vehicle }
    ensures { result ≡ record row.vehicle { place = row.vehicle.place + 1; pushed = not room } }
{
    let Row {
        vehicle,
        link: _link,
        stage: _stage,
        second: _second,
    } = row;
    let mut vehicle = vehicle;
    vehicle.place += 1;
    vehicle.pushed = !room;
    vehicle
}

impl Crossings {
    /// A row enters its next link.
    fn enter(
        &mut self,
        next: u32,
        room: bool,
        row: Row,
        said: &mut Vec<Occurrence>,
    ) -> Result<(), AllocError>
        requires { HasNext row.vehicle }
        ensures entering { OnOk result (self.new.entering.items ≡ self.old.entering.items
            ++ record { link = next; vehicle = record row.vehicle { place = row.vehicle.place + 1; pushed = not room } } ∷ []) }
        ensures removed { OnOk result (self.new.removed ≡ self.old.removed) }
        ensures told { OnOk result (said.new.items ≡ said.old.items
            ++ of_vehicle LeftLink row.vehicle.id row.link Nothing ∷ of_vehicle EnteredLink row.vehicle.id next Nothing ∷ []) }
    {
        let id = row.vehicle.id;
        said.push(of_vehicle(Word::LeftLink, id, row.link, More::Nothing))?;
        said.push(of_vehicle(Word::EnteredLink, id, next, More::Nothing))?;
        let vehicle = entered(row, room);
        self.entering.push(Entering {
            link: next,
            vehicle,
        })?;
        Ok(())
    }

    /// A row is removed with its riders.
    fn remove(&mut self, row: Row, said: &mut Vec<Occurrence>) -> Result<(), AllocError>
        ensures removed { OnOk result (self.new.removed.items ≡ self.old.removed.items ++ row.vehicle ∷ []) }
        ensures entering { OnOk result (self.new.entering ≡ self.old.entering) }
        ensures told { OnOk result (said.new.items ≡ said.old.items ++ aborts row) }
    {
        push_aborts(&row, said)?;
        let Row {
            vehicle,
            link: _link,
            stage: _stage,
            second: _second,
        } = row;
        self.removed.push(vehicle)?;
        Ok(())
    }
}

/// A link hands over: its front enters its next link, where that has room or the front is stuck and pushed in, or is removed where it is
/// stuck, and so do those behind it, until one can do neither.
pub(crate) fn pass_node(
    turn: &NodeTurn,
    in_link: &mut LinkState,
    space: &mut Space,
    crossings: &mut Crossings,
    said: &mut Vec<Occurrence>,
) -> Result<(), AllocError>
    requires ready { HaveNext in_link.old.lists.buffer }
    ensures ready { OnOk result (HaveNext in_link.new.lists.buffer) }
    ensures run { OnOk result (
        node_state (in_link.new ∷ []) (places_in space.new) crossings.new.entering.items crossings.new.removed.items said.new.items
        ≡ node_run (pass_node_all turn.now.stuck turn.now.second (places_in space.old) (in_link_of in_link.old true))
        (node_state (in_link.old ∷ []) (places_in space.old) crossings.old.entering.items crossings.old.removed.items said.old.items)) }
    ensures holes { OnOk result ((m : ℕ) → holes_in space.new m ≡ holes_in space.old m) }
{
    'fronts: loop {
        let Some(row) = in_link.front_row() else {
            return Ok(());
        };
        let next = next_link(&row.vehicle);
        let since = row.second;
        let places = space.places(next);
        if may_enter(&turn.stuck, turn.second, since, places) {
            let row = in_link.take_front(turn.second);
            crossings.enter(next, has_room(places), row, said)?;
            space.take_place(next)?;
        } else if is_stuck(&turn.stuck, turn.second, since) {
            let row = in_link.take_front(turn.second);
            crossings.remove(row, said)?;
        } else {
            return Ok(());
        }
    }
}
