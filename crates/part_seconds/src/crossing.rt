//! Nodes let vehicles pass.

ghost use Rattle.std.specs.Prelude.{◌≡◌, ◌<◌, ◌+◌, ◌++◌, [], map, OnOk};
ghost use Rattle.limits.specs.declared.TheConstants.{LAST_SECOND};
ghost use Rattle.events.specs.declared.event.Phase.TheVariants as phase;
ghost use Rattle.law_own_worlds.specs.Days.{my_node_turns};
ghost use Rattle.law_partitions.specs.Alone.{sent_out};
ghost use Rattle.partition.specs.Owned.{owner_in};
ghost use Rattle.town.specs.Views.{setup};
ghost use Rattle.traffic.specs.Day.{events_in, moves_of};
ghost use Rattle.part_nodes.specs.Phase.{entering_of};
ghost use Rattle.part_seconds.specs.Stands.{AreaStands};
ghost use Rattle.law_own_seconds.specs.Seconds.{held_early, held_crossed, world_early, world_crossed};

use crate::area::Area;
use crate::hearing::hear_told;
use crate::runs::Run;
use crate::settling::wake_starts;
use node_move::Entering;
use part_links::Told;
use part_nodes::{NodePhase, move_nodes};
use std::alloc::AllocError;

impl Area {
    /// The phase of a second in which nodes let vehicles pass. Appends its events, and to `out` the vehicles that enter links of others, in
    /// order.
    ///
    /// # Errors
    ///
    /// `AllocError`: there is no memory for a row or an event. The part is then of no use.
    pub fn cross(
        &mut self,
        run: &Run,
        partition: u32,
        second: u32,
        told: &mut Told,
        out: &mut Vec<Entering>,
    ) -> Result<(), AllocError>
        requires second_in { second < LAST_SECOND }
        requires in_day { second < run.now.day.now.town.now.settings.end_second }
        requires there { partition < run.now.owner.now.parts }
        requires stands { let own = owner_in run.now.owner.now.of_node in let S = setup run.now.day.now in
            AreaStands run.now.day.now own partition (second + 1) second second self.old (held_early S own partition second)
            (world_early S own partition second) }
        requires silent { told.old.said.items ≡ [] }
        ensures stands { let own = owner_in run.now.owner.now.of_node in let S = setup run.now.day.now in
            OnOk result (AreaStands run.now.day.now own partition (second + 1) (second + 1) second self.new
            (held_crossed S own partition second) (world_crossed S own partition second)) }
        ensures events { let own = owner_in run.now.owner.now.of_node in let S = setup run.now.day.now in
            OnOk result (told.new.events.items
            ≡ told.old.events.items ++ events_in second phase.C (my_node_turns S own partition second)) }
        ensures out { let own = owner_in run.now.owner.now.of_node in let S = setup run.now.day.now in
            OnOk result (out.new.items
            ≡ out.old.items ++ map entering_of (sent_out S own partition (moves_of (my_node_turns S own partition second)))) }
        ensures said { OnOk result (told.new.said.items ≡ []) }
    {
        let network = &mut self.network;
        let freed = network.places.free(second)?;
        wake_starts(run, partition, second, &freed, &mut network.node_wakes)?;
        let phase = NodePhase {
            day: run.day,
            second,
            link_slots: run.link_slots,
            steady: run.steady,
        };
        move_nodes(&phase, run.in_links, network, told, out)?;
        hear_told(run.day, second, told, &mut self.persons)?;
        Ok(())
    }
}
