//! The laws of the day: what the crates above take from its definitions. Each is the contract of a
//! call that does nothing.

ghost use Rattle.std.specs.Prelude.{◌≡◌, ◌≢◌, ℕ, ◌+◌, ◌<◌, List, [], ◌∷◌, length, map, true, false, None, Some};
ghost use Rattle.std.specs.Prelude.{AllPairs, IsPermutation};
ghost use Rattle.events.specs.declared.event.{Mode.Mode, Phase.Phase, Word.TheVariants.EnteredLink, Word.TheVariants.Arrival};
ghost use Rattle.fixed_flow.specs.Flow.{raised};
ghost use Rattle.traffic.specs.{Links.LinkState, Links.link_state, Links.Rules, Links.link_moves, Lists.below, Nodes.NodeView, Nodes.ready};
ghost use Rattle.traffic.specs.{Nodes.node_moves, Persons.waiters, Persons.landing, Persons.leaving, Persons.departure_moves, Rows.World};
ghost use Rattle.traffic.specs.{Rows.at, Rows.holes_at, Rows.credit_of, Rows.person_of, Rows.At, Rows.Teleporting, Setup.Setup};
ghost use Rattle.traffic.specs.{Setup.departure, Stops.Waiter, Stops.ComesBefore, Stops.in_turn, Worked.entering};
ghost use Rattle.traffic.specs.{declared.stage.Stage.Stage, Day.landing_turns};
ghost use Rattle.traffic.specs.Day.{leaving_turns, departure_turns, node_turns, link_turns, turns_of, count_of, turns_in, events_from, day};
ghost use Rattle.traffic.specs.Frames.{Untouched, AreAt, AreFromBuffers, sees, turn_of, Ascends};
ghost use Rattle.traffic.specs.Moves.{Move, Credit, told, done, run, at_after, hole_after, credit_after, person_after_all};
ghost use Rattle.traffic.specs.Worked.{short, bus, bus_told, narrow, narrow_told, arrivals, junction, junction_told, red_light, jam, line};
ghost use Rattle.rows.specs.declared.{plan.Act.Act, plan.Leg.Leg, settings.Stuck.Stuck};
ghost use Rattle.rows.specs.declared.plan.Leg.TheVariants as leg;

/// What a move does to the rows of a link at a stage, to the holes and the credit of a link, and to
/// the row of a person depends on each of these alone.
pub fn moves_are_local()
    ensures rows { (S : Setup) (t l : ℕ) (s : Stage) (m : Move) (W : World)
        → at l s (done S t m W) ≡ at_after l s m (at l s W) }
    ensures holes { (S : Setup) (t l : ℕ) (m : Move) (W : World)
        → holes_at l (done S t m W) ≡ hole_after l m (holes_at l W) }
    ensures credits { (S : Setup) (t l : ℕ) (m : Move) (W : World) → l < length W.credits
        → credit_of l (done S t m W) ≡ credit_after l m (credit_of l W) }
    ensures persons { (S : Setup) (t i : ℕ) (m : Move) (W : World) → i < length W.persons
        → person_of i (done S t m W) ≡ person_after_all S t i (told m) (person_of i W) }
{}

/// The turn of a link changes no other link, nor anyone who waits at a stop there.
pub fn links_keep_apart()
    ensures moves { (S : Setup) (t l : ℕ) (W : World) → AreAt l (link_turns S t l W) }
    ensures link_state { (S : Setup) (t l a : ℕ) (W : World) → a ≢ l
        → link_state a (run S t (link_turns S t l W) W) ≡ link_state a W }
    ensures waiters { (S : Setup) (t l a : ℕ) (W : World) → a ≢ l
        → waiters S a (run S t (link_turns S t l W) W) ≡ waiters S a W }
{}

/// The turn of a node changes no list that the node does not see, no credit and no hole.
pub fn nodes_keep_apart()
    ensures lists { (S : Setup) (t n l : ℕ) (s : Stage) (W : World) → sees S n l s ≡ false
        → at l s (run S t (node_turns S t n W) W) ≡ at l s W }
    ensures credits { (S : Setup) (t n l : ℕ) (W : World)
        → credit_of l (run S t (node_turns S t n W) W) ≡ credit_of l W }
    ensures holes { (S : Setup) (t n l : ℕ) (W : World)
        → holes_at l (run S t (node_turns S t n W) W) ≡ holes_at l W }
{}

/// The turn of a person changes the row of no other person, and the turn of a departure that of none.
pub fn persons_keep_apart()
    ensures flights { (S : Setup) (t i j : ℕ) (W : World) → j ≢ i
        → person_of j (run S t (landing_turns S t i W) W) ≡ person_of j W }
    ensures leaves { (S : Setup) (t i j : ℕ) (W : World) → j ≢ i
        → person_of j (run S t (leaving_turns S t i W) W) ≡ person_of j W }
    ensures departures { (S : Setup) (t d j : ℕ) (W : World)
        → person_of j (run S t (departure_turns S t d W) W) ≡ person_of j W }
{}

/// The turns of a phase, made by number and each in the world that those before it left, are those
/// of the world at its start.
pub fn phases_are_at_once()
    ensures { (S : Setup) (t : ℕ) (p : Phase) (W : World)
        → turns_in S t p W ≡ map (turn_of (turns_of S t p) W) (below (count_of S p)) }
{}

/// The events of a day are in the order of their keys.
pub fn days_are_in_order()
    ensures { (S : Setup) → Ascends (day S) }
{}

/// Those who wait at a stop come in turn: the same persons, by the second since when they wait, then by
/// number.
pub fn waiters_come_in_turn()
    ensures same { (ws : List Waiter) → IsPermutation ws (in_turn ws) }
    ensures order { (ws : List Waiter) → AllPairs ComesBefore (in_turn ws) }
{}

/// A turn that has nothing to do makes no moves, but for the credit of a link, which is raised.
pub fn idle_turns_move_nothing()
    ensures links { (K : Rules) (t l : ℕ) (ws : List Waiter) (L : LinkState)
        → L.queue ≡ [] → L.wait ≡ [] → L.bay ≡ []
        → link_moves K t l ws L ≡ Credit l (raised K.gain L.credit) ∷ [] }
    ensures nodes { (K : Stuck) (t : ℕ) (word : ℕ → ℕ) (see : NodeView) → ready see.in_links ≡ []
        → node_moves K t word see ≡ [] }
    ensures flights { (t i : ℕ) (mode : Mode) (seconds start : ℕ) (next : Act)
        → start + seconds ≢ t → landing t i (leg.Teleport mode seconds) next (Teleporting start) ≡ [] }
    ensures leaves { (S : Setup) (t i end : ℕ) (here : Act) (w : Leg) (next : Act)
        → end ≢ t → leaving S t i here w next (At (Some end)) ≡ [] }
    ensures departures { (S : Setup) (t d : ℕ) → (departure S d).second ≢ t
        → departure_moves S t d ≡ [] }
{}

/// What worked days tell, computed from the definitions alone: two passengers and a bus of one
/// seat; three cars whose way leads over a short link through which one passes in an hour; two cars
/// at a junction, of which a word draws the first; a red light; and a jam on short links, without
/// and with holes that travel for two seconds.
pub fn worked_days()
    ensures bus { map short (day bus) ≡ bus_told }
    ensures narrow_removed { map short (day (narrow false)) ≡ narrow_told false }
    ensures narrow_pushed { map short (day (narrow true)) ≡ narrow_told true }
    ensures junction_lower { arrivals (day (junction 1431655765)) ≡ junction_told 0 1 }
    ensures junction_upper { arrivals (day (junction 1431655766)) ≡ junction_told 1 0 }
    ensures red { arrivals (day red_light) ≡ (3, EnteredLink, None, Some 1)
        ∷ (4, Arrival, Some 0, Some 1) ∷ [] }
    ensures jam { arrivals (events_from (line None) jam 3)
        ≡ entering ((0, 3) ∷ (1, 2) ∷ (2, 1) ∷ (2, 3) ∷ []) }
    ensures jam_with_holes { arrivals (events_from (line (Some 25)) jam 5)
        ≡ entering ((0, 3) ∷ (2, 2) ∷ (3, 3) ∷ (4, 1) ∷ []) }
{}
