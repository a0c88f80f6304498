//! Links move.

ghost use Rattle.std.specs.Prelude.{◌≡◌, ◌<◌, ◌+◌, ◌++◌, ℕ, false, [], length, map, OnOk, IfOk};
ghost use Rattle.limits.specs.declared.TheConstants.{LAST_SECOND};
ghost use Rattle.events.specs.declared.event.Phase.TheVariants as phase;
ghost use Rattle.rows.specs.Settings.{IsDwelling};
ghost use Rattle.calendar.specs.Waking.{woken};
ghost use Rattle.law_own_worlds.specs.Days.{my_link_turns};
ghost use Rattle.law_own_seconds.specs.Seconds.{held_crossed, held_driven, world_crossed, world_driven};
ghost use Rattle.link_seconds.specs.Seconds.{AreShort};
ghost use Rattle.node_seconds.specs.Networks.{lane, is_among};
ghost use Rattle.part_links.specs.Links.{AreNumbered, LinksStandAt, LinesStandAt, StopsThere, CanTurn, AreAsleep};
ghost use Rattle.part_links.specs.Phase.{IsPhaseAt};
ghost use Rattle.partition.specs.Owned.{owner_in};
ghost use Rattle.town.specs.Views.{setup};
ghost use Rattle.traffic.specs.{Day.events_in, Rows.World, Setup.Setup};
ghost use Rattle.law_parcels.specs.Sending.{freed_over};
ghost use Rattle.part_seconds.specs.{Contents.freed_row, Stands.AreaStands};

use crate::FreedPlaces;
use crate::area::Area;
use crate::hearing::hear_told;
use crate::runs::Run;
use crate::settling::{settle_links, take_freed};
use calendar::Wakes;
use part_links::{LinkPhase, Told, move_links};
use queue_link::LinkState;
use riders::Waiting;
use std::alloc::{AllocError, Global};

/// The links have their turns in a second, as far as they are woken; answers the slots of those that had one.
fn turn_links(
    alloc: Global,
    phase: &LinkPhase,
    links: &mut Vec<LinkState>,
    lines: &mut Vec<Waiting>,
    wakes: &mut Wakes,
    told: &mut Told,
) -> Result<Vec<u32>, AllocError>
    requires second_in { phase.now.second < LAST_SECOND }
    requires in_day { phase.now.second < phase.now.end }
    requires dwell_in { IsDwelling phase.now.dwell }
    requires count { length wakes.old ≡ length links.old.items }
    requires able { (k : ℕ) → k < length links.old.items
        → CanTurn (length lines.old.items) phase.now.second (lane links.old.items k) }
    requires short { AreShort lines.old.items }
    ensures phase { (number : ℕ → ℕ) (size : ℕ) (S : Setup) (V : World) → AreNumbered S size number
        → S.settings.dwell ≡ phase.now.dwell → LinksStandAt number size S phase.now.second links.old.items V
        → LinesStandAt number size S lines.old.items V
        → ((k : ℕ) → k < size → StopsThere S (number k) (lane links.old.items k))
        → AreAsleep phase.now.dwell phase.now.end phase.now.second links.old.items wakes.old
        → OnOk result (IsPhaseAt number size S phase.now.end phase.now.second V links.new.items lines.new.items wakes.new
        told.old.events.items told.new.events.items told.old.said.items told.new.said.items) }
    ensures slots { IfOk result (λ slots. slots.items ≡ woken phase.now.second wakes.old) }
    ensures others { IfOk result (λ slots. (k : ℕ) → is_among k slots.items ≡ false
        → lane links.new.items k ≡ lane links.old.items k) }
    ensures lines { OnOk result (length lines.new.items ≡ length lines.old.items) }
    ensures short { OnOk result (AreShort lines.new.items) }
{
    let slots = move_links(alloc, phase, links, lines, wakes, told)?;
    Ok(slots)
}

impl Area {
    /// The phase of a second in which links move. Appends its events, and answers which links that begin elsewhere vehicles left the queues
    /// of, by number.
    ///
    /// # Errors
    ///
    /// `AllocError`: there is no memory for a row or an event. The part is then of no use.
    pub fn drive(
        &mut self,
        run: &Run,
        partition: u32,
        second: u32,
        told: &mut Told,
    ) -> Result<Vec<FreedPlaces>, AllocError>
        requires second_in { second < LAST_SECOND }
        requires in_day { second < run.now.day.now.town.now.settings.end_second }
        requires there { partition < run.now.owner.now.parts }
        requires stands { let own = owner_in run.now.owner.now.of_node in let S = setup run.now.day.now in
            AreaStands run.now.day.now own partition (second + 1) (second + 1) second self.old (held_crossed S own partition second)
            (world_crossed S own partition second) }
        requires silent { told.old.said.items ≡ [] }
        ensures stands { let own = owner_in run.now.owner.now.of_node in let S = setup run.now.day.now in
            OnOk result (AreaStands run.now.day.now own partition (second + 1) (second + 1) (second + 1) self.new
            (held_driven S own partition second) (world_driven S own partition second)) }
        ensures events { let own = owner_in run.now.owner.now.of_node in let S = setup run.now.day.now in
            OnOk result (told.new.events.items
            ≡ told.old.events.items ++ events_in second phase.D (my_link_turns S own partition second)) }
        ensures freed { let own = owner_in run.now.owner.now.of_node in let S = setup run.now.day.now in
            IfOk result (λ freed. map freed_row freed.items ≡ freed_over S own partition second) }
        ensures said { OnOk result (told.new.said.items ≡ []) }
    {
        let phase = LinkPhase {
            second,
            end: run.day.town.settings.end_second,
            dwell: run.day.town.settings.dwell,
        };
        let network = &mut self.network;
        let slots = turn_links(
            run.alloc,
            &phase,
            &mut network.links,
            &mut self.lines,
            &mut network.link_wakes,
            told,
        )?;
        settle_links(
            run,
            partition,
            second,
            &slots,
            &network.links,
            &mut network.places,
            &mut network.node_wakes,
        )?;
        let freed = take_freed(run, partition, &slots, &network.links, &mut self.queues)?;
        hear_told(run.day, second, told, &mut self.persons)?;
        Ok(freed)
    }
}
