//! The phase in which the nodes of a network let vehicles pass.

ghost use Rattle.std.specs.Prelude.{◌≡◌, ℕ, ◌+◌, ◌<◌, [], length, get_or, OnOk};
ghost use Rattle.limits.specs.declared.TheConstants.{LAST_SECOND};
ghost use Rattle.law_in_range.specs.Setups.{counts_in, HaveFittingPlans};
ghost use Rattle.town.specs.Views.{setup};
ghost use Rattle.traffic.specs.{Rows.World, Setup.into};
ghost use Rattle.node_seconds.specs.Networks.{AreOnce};
ghost use Rattle.calendar.specs.Due.{AreIn};
ghost use Rattle.part_nodes.specs.InLinks.{slots_of};
ghost use Rattle.part_nodes.specs.Phase.{Extent, HasLinks, AreMine, StandsForAt, Stands, AreAwaitedAt, AreTurned, IsPhaseAt};

use crate::in_link_rows::InLinks;
use crate::network::NetworkState;
use crate::node_turns::{NodePhase, turn_node};
use node_move::Entering;
use part_links::Told;
use std::alloc::AllocError;

/// The turns of the nodes of these numbers, one after the other.
fn turn_nodes(
    phase: &NodePhase,
    in_links: &InLinks,
    numbers: &[u32],
    network: &mut NetworkState,
    told: &mut Told,
    out: &mut Vec<Entering>,
) -> Result<(), AllocError>
    requires second_in { phase.now.second < LAST_SECOND }
    requires in_day { phase.now.second < phase.now.day.now.town.now.settings.end_second }
    requires given { HaveFittingPlans phase.now.day.now }
    requires nodes { length in_links.now ≡ (setup phase.now.day.now).nodes }
    requires into { (n : ℕ) → n < (setup phase.now.day.now).nodes
        → get_or in_links.now n [] ≡ slots_of phase.now.link_slots.now (into (setup phase.now.day.now) n) }
    requires there { AreIn (setup phase.now.day.now).nodes numbers.now }
    requires once { AreOnce numbers.now }
    requires stands { Stands (counts_in phase.now.day.now) (setup phase.now.day.now) phase.now.day.now.town.now.settings.end_second
        phase.now.second phase.now.link_slots.now numbers.now network.old }
    ensures { (E : Extent) (V : World) → HasLinks (setup phase.now.day.now) E phase.now.link_slots.now → AreMine E numbers.now
        → StandsForAt (counts_in phase.now.day.now) (setup phase.now.day.now) E
        phase.now.day.now.town.now.settings.end_second phase.now.second network.old V
        → OnOk result (AreTurned (counts_in phase.now.day.now) (setup phase.now.day.now) E
        phase.now.day.now.town.now.settings.end_second phase.now.second V numbers.now network.old network.new
        told.old.events.items told.new.events.items told.old.said.items told.new.said.items out.old.items out.new.items) }
{
    for number in numbers {
        let into = in_links.of_node(*number);
        turn_node(phase, *number, into, network, told, out)?;
    }
    Ok(())
}

/// The nodes of a network, all or those of a part, let vehicles pass in a second: those that are woken in it have their turns, by number,
/// and are woken again in the next second or, where the fronts of all links into them wait for places, when the first of these is stuck.
/// Appends what that tells, and to `out`, in order, who enters a link of another part. All links, places and events are then those of the
/// phase in which every one of these nodes has its turn, by whatever world the network stands for.
///
/// # Errors
///
/// `AllocError`: there is no memory for the numbers of the nodes, a vehicle or an event. The network is then of no use.
pub fn move_nodes(
    phase: &NodePhase,
    in_links: &InLinks,
    network: &mut NetworkState,
    told: &mut Told,
    out: &mut Vec<Entering>,
) -> Result<(), AllocError>
    requires second_in { phase.now.second < LAST_SECOND }
    requires in_day { phase.now.second < phase.now.day.now.town.now.settings.end_second }
    requires given { HaveFittingPlans phase.now.day.now }
    requires nodes { length in_links.now ≡ (setup phase.now.day.now).nodes }
    requires into { (n : ℕ) → n < (setup phase.now.day.now).nodes
        → get_or in_links.now n [] ≡ slots_of phase.now.link_slots.now (into (setup phase.now.day.now) n) }
    requires stands { Stands (counts_in phase.now.day.now) (setup phase.now.day.now) phase.now.day.now.town.now.settings.end_second
        phase.now.second phase.now.link_slots.now [] network.old }
    ensures { (E : Extent) (V : World) → HasLinks (setup phase.now.day.now) E phase.now.link_slots.now
        → StandsForAt (counts_in phase.now.day.now) (setup phase.now.day.now) E
        phase.now.day.now.town.now.settings.end_second phase.now.second network.old V
        → AreAwaitedAt E.mine (setup phase.now.day.now) phase.now.day.now.town.now.settings.end_second (phase.now.second + 1)
        phase.now.second network.old.node_wakes V
        → OnOk result (IsPhaseAt (counts_in phase.now.day.now) (setup phase.now.day.now) E
        phase.now.day.now.town.now.settings.end_second phase.now.second V network.old network.new
        told.old.events.items told.new.events.items told.old.said.items told.new.said.items out.old.items out.new.items) }
{
    let numbers = network.node_wakes.take(phase.second)?;
    turn_nodes(phase, in_links, &numbers, network, told, out)?;
    Ok(())
}
