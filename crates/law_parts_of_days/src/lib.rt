//! The laws by which a part that holds a network makes the day of `traffic`: what the phases of a second change, so that the part looks
//! only at those whom they concern. Each is the contract of a call that does nothing.
#![tactic(auto)]

ghost use Rattle.std.specs.Prelude.{◌≡◌, ◌≢◌, ℕ, ◌+◌, ◌<◌, true, false, List, [], ◌∷◌, ◌++◌, length};
ghost use Rattle.std.specs.Prelude.{replicate, Option, Some};
ghost use Rattle.events.specs.declared.event.Event.{Event};
ghost use Rattle.events.specs.declared.event.Phase.TheVariants as phase;
ghost use Rattle.calendar.specs.Waking.{wake_of};
ghost use Rattle.law_sleeping.specs.Marks.{before_nodes, before_links};
ghost use Rattle.law_sound_setups.specs.{Consistent.IsConsistentSetup, Setups.IsSoundSetup};
ghost use Rattle.node_seconds.specs.Networks.{lane, is_among};
ghost use Rattle.queue_link.specs.Links.{LinkView};
ghost use Rattle.traffic.specs.Day.{turns_in, after, events_in, told_in, second, second_events, world_at};
ghost use Rattle.traffic.specs.{Persons.waiters, Rows.World, Rows.at, Rows.holes_at, Setup.Setup, Setup.link_row, Worlds.OnePlace};
ghost use Rattle.traffic.specs.declared.stage.Stage.TheVariants.{Queue};
ghost use Rattle.parts.specs.{Owners.Owner, Owners.near, Parts.part, Parts.held, Parts.ready};
ghost use Rattle.law_partitions.specs.Alone.{alone, tells_alone};
ghost use Rattle.law_parts_of_days.specs.{Settling.link_at, Settling.wake_ends, Settling.wake_starts, Sole.sole_owner};
ghost use Rattle.part_places.specs.Taking.{times};

/// A second has three steps: the phases of persons and departures, that of the nodes, and that of the links.
pub fn seconds_have_three_steps()
    ensures nodes { (S : Setup) (t : ℕ) (W : World)
        → before_links S t W ≡ after S t (turns_in S t phase.C (before_nodes S t W)) (before_nodes S t W) }
    ensures links { (S : Setup) (t : ℕ) (W : World)
        → second S t W ≡ after S t (turns_in S t phase.D (before_links S t W)) (before_links S t W) }
    ensures events { (S : Setup) (t : ℕ) (W : World) (old first mid out : List Event)
        → first ≡ old ++ told_in S t (phase.A ∷ phase.B1 ∷ phase.B2 ∷ []) W
        → mid ≡ first ++ events_in t phase.C (turns_in S t phase.C (before_nodes S t W))
        → out ≡ mid ++ events_in t phase.D (turns_in S t phase.D (before_links S t W)) → out ≡ old ++ second_events S t W }
{}

/// The nodes change nobody who waits at a stop, and leave no holes.
pub fn nodes_change_vehicles_alone()
    ensures waiters { (S : Setup) (t l : ℕ) (V : World) → OnePlace S V
        → waiters S l (after S t (turns_in S t phase.C V) V) ≡ waiters S l V }
    ensures holes { (S : Setup) (t m : ℕ) (V : World) → holes_at m (after S t (turns_in S t phase.C V) V) ≡ holes_at m V }
{}

/// In a second as many vehicles leave the queue of a link as leave a hole of that second.
pub fn links_leave_holes()
    ensures { (S : Setup) (t m : ℕ) (V : World) → m < length S.links
        → (count : ℕ) × (length (at m Queue (after S t (turns_in S t phase.D V) V)) + count ≡ length (at m Queue V))
        × (holes_at m (after S t (turns_in S t phase.D V) V) ≡ holes_at m V ++ replicate count t) }
{}

/// Once nodes were woken for the buffers of the links in some slots, a node that is not woken has nobody in those of them that lead into
/// it.
pub fn nodes_are_woken_for_vehicles()
    ensures { (S : Setup) (t m k : ℕ) (links : List LinkView) (ns : List ℕ) (wakes : List (Option ℕ)) → m < length wakes
        → wake_of (wake_ends S t links ns wakes) m ≢ Some (t + 1) → is_among k ns ≡ true → (link_row S (link_at links k)).to ≡ m
        → (lane links k).lists.buffer ≡ [] }
{}

/// Once the nodes of a partition were woken for places that came free on some links, none of these links begins at a node of it that is not
/// woken.
pub fn nodes_are_woken_for_places()
    ensures { (S : Setup) (own : Owner) (p t n m : ℕ) (ms : List ℕ) (wakes : List (Option ℕ)) → own n ≡ p → n < length wakes
        → m < length S.links → (link_row S m).from ≡ n → wake_of (wake_starts S own p t ms wakes) n ≢ Some t
        → times m ms ≡ 0 }
{}

/// The partition that has all nodes holds the whole world of each second of the day, and has heard of everything; what it does and tells in
/// a second by itself is what the day does and tells. It has no neighbours, so it absorbs and sends nothing.
pub fn one_partition_is_the_day()
    ensures held { (S : Setup) (t : ℕ) → held S sole_owner 0 t ≡ part S sole_owner 0 t (world_at S t) }
    ensures ready { (S : Setup) (t : ℕ) → ready S sole_owner 0 t ≡ part S sole_owner 0 t (world_at S t) }
    ensures next { (S : Setup) (t : ℕ) → IsSoundSetup S → IsConsistentSetup S
        → alone S sole_owner 0 t (ready S sole_owner 0 t) ≡ part S sole_owner 0 (t + 1) (world_at S (t + 1)) }
    ensures events { (S : Setup) (t : ℕ) → IsSoundSetup S → IsConsistentSetup S
        → tells_alone S sole_owner 0 t (ready S sole_owner 0 t) ≡ second_events S t (world_at S t) }
    ensures neighbours { (S : Setup) (q : ℕ) → IsSoundSetup S → IsConsistentSetup S → near S sole_owner 0 q ≡ false }
{}
