//! What the parts of a run are about.

ghost use Rattle.std.specs.Prelude.{◌≡◌, ℕ, ◌<◌, [], get_or};
ghost use Rattle.law_in_range.specs.Setups.{HaveFittingPlans};
ghost use Rattle.partition.specs.{Homes.homes_of, Owned.owner_in};
ghost use Rattle.town.specs.Views.{setup};
ghost use Rattle.law_partitions.specs.Alone.{my_links};
ghost use Rattle.divided_day.specs.{Borders.borders_of, Slots.AreSlots, Slots.my_starts};
ghost use Rattle.part_nodes.specs.Steady.{AreSteady};
ghost use Rattle.part_seconds.specs.Slots.{AreSlotsInto};

use divided_day::NumberList;
use part_nodes::{InLinks, SteadyLights};
use partition::Owner;
use std::alloc::Global;
use step_core::BorderList;
use town::DayInput;

/// A day of a town whose network is divided among partitions, and what all parts of it share.
#[derive(Drop)]
pub struct Run<'a> {
    /// From where the parts of the run take memory.
    pub alloc: Global,
    /// The town and the chosen plans of the day.
    pub day: &'a DayInput<'a>,
    /// To which partition each node belongs.
    pub owner: &'a Owner,
    /// Of each node the slots of the links into it, ascending by link, in the part that has the node.
    pub in_links: &'a InLinks,
    /// Which links are always green.
    pub steady: &'a SteadyLights,
    /// The slot of each link, in the part where it ends.
    pub link_slots: &'a [u32],
    /// The neighbours of each partition, ascending, with the lags from them.
    pub borders: &'a [BorderList],
    /// The links that end in each partition, ascending: its own, in the order of their slots.
    pub ends: &'a [NumberList],
    /// The links that begin in each partition, ascending.
    pub starts: &'a [NumberList],
    /// By person the partition that has the link of the first activity of the chosen plan.
    pub homes: &'a [u32],
    /// By partition about how many events are told there, as plans have it: partitions are dealt to workers by that, and a part may get
    /// room for as many as it starts (`parted_day: part.rt room_of`).
    pub loads: &'a [usize],
    /// Whether the events of each second are taken as the day goes on: a part keeps then those of the second that it did last alone.
    pub streams: bool,
    pub ghost given: { HaveFittingPlans day.now },
    pub ghost slots: { AreSlots (setup day.now) (owner_in owner.now.of_node) link_slots.now },
    pub ghost are_steady: { AreSteady day.now.town.now.greens steady.now },
    pub ghost into: { AreSlotsInto (setup day.now) link_slots.now in_links.now },
    pub ghost near: { (p : ℕ) → p < owner.now.parts
        → get_or borders.now p [] ≡ borders_of (setup day.now) (owner_in owner.now.of_node) owner.now.parts p },
    pub ghost own_ends: { (p : ℕ) → get_or ends.now p [] ≡ my_links (setup day.now) (owner_in owner.now.of_node) p },
    pub ghost own_starts: { (p : ℕ) → get_or starts.now p [] ≡ my_starts (setup day.now) (owner_in owner.now.of_node) p },
    pub ghost own_homes: { homes.now ≡ homes_of (setup day.now) (owner_in owner.now.of_node) },
}
