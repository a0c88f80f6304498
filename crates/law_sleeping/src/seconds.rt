//! Sleep through whole phases and seconds.

ghost use Rattle.std.specs.{List.flat_map, Prelude.◌≡◌, Prelude.◌≢◌, Prelude.ℕ, Prelude.suc, Prelude.◌+◌};
ghost use Rattle.std.specs.Prelude.{◌<◌, ◌≤◌, ◌⊎◌, Bool, false, List, [], ◌∷◌, ◌++◌, length, map, filter, All};
ghost use Rattle.events.specs.declared.event.Phase.{Phase, TheVariants.C, TheVariants.D};
ghost use Rattle.fixed_flow.specs.Flow.{raised};
ghost use Rattle.traffic.specs.Day.{link_turns, turns_of, count_of, turns_in, after, second, world_at, events_in};
ghost use Rattle.traffic.specs.{Frames.turn_of, Frames.Untouched, Links.LinkState, Links.link_state, Links.rules, Links.link_moves};
ghost use Rattle.traffic.specs.{Lists.below, Moves.told, Moves.at_after_all, Nodes.in_force, Nodes.taken_at, Nodes.mark, Rows.World};
ghost use Rattle.traffic.specs.{Rows.at, Rows.holes_at, Setup.Setup, Setup.link_row, Setup.hole_of};
ghost use Rattle.traffic.specs.declared.{moves.Move.Move, moves.Move.TheVariants.Credit, node_views.InLink.InLink, numbers.Rules.Rules};
ghost use Rattle.traffic.specs.declared.{stage.Stage.Stage, stage.Stage.TheVariants.Buffer, world.Row.Row, world.Waiter.Waiter};
ghost use Rattle.law_sleeping.specs.{Marks.Buffers, Marks.AreBehind, Marks.buffers_second, Quiet.Sleeps, Quiet.link_state_after_all};
ghost use Rattle.law_sleeping.specs.Waking.{NodeSleeps, IsRedUntil, SameFront, ForFront, NoneLeft};

/// A place of a link that was taken before a second is taken after it as well, in each second in which a hole that was left
/// in it still counts, and in all seconds if none was left: nodes free no place, and links none but for a hole.
pub fn places_stay_taken()
    ensures second { (S : Setup) (t u m : ℕ) (W : World)
        → (u < t + hole_of S m) ⊎ (holes_at m (second S t W) ≡ holes_at m W)
        → taken_at S u m W ≤ taken_at S u m (second S t W) }
    ensures nodes { (S : Setup) (t u m : ℕ) (V : World)
        → taken_at S u m V ≤ taken_at S u m (after S t (turns_in S t C V) V) }
    ensures links { (S : Setup) (t u m : ℕ) (V : World)
        → (u < t + hole_of S m) ⊎ (holes_at m (after S t (turns_in S t D V) V) ≡ holes_at m V)
        → taken_at S u m V ≡ taken_at S u m (after S t (turns_in S t D V) V) }
{}

/// The holes of a day were left in seconds before, and those that are over may be forgotten. So where a hole lasts for one
/// second, none counts for a node.
pub fn old_holes_do_not_count()
    ensures before { (S : Setup) (t m : ℕ) → m < length S.links → All (λ s. s < t) (holes_at m (world_at S t)) }
    ensures over { (u h : ℕ) (old holes : List ℕ) → All (λ s. s + h ≤ u) old
        → in_force u h (old ++ holes) ≡ in_force u h holes }
{}

/// A node sleeps on through a second, if each link into it stays red, or no new front comes into its buffer and on the next
/// link of its front the holes left in this second outlast the sleep, or there are none. The buffers after a second, their red marks left
/// out, are those
/// after its nodes and its links; and a link's turn leaves the front of its buffer.
pub fn nodes_sleep_on()
    ensures sleep { (S : Setup) (t due less n : ℕ) (rows other : Buffers) (W : World) → less ≤ due
        → ((l : ℕ) → l < length S.links → (link_row S l).to ≡ n
        → IsRedUntil S (suc t) less l ⊎ (SameFront (rows l) (other l) × ForFront (NoneLeft S (suc t) less W) (rows l)))
        → NodeSleeps S t due n rows W → NodeSleeps S (suc t) less n other (second S (suc t) W) }
    ensures buffers { (S : Setup) (t : ℕ) (rows : Buffers) (W : World)
        → ((l : ℕ) → l < length S.links → (link_row S l).to < S.nodes) → AreBehind S t rows W
        → AreBehind S (suc t) (buffers_second S t rows W) (second S t W) }
    ensures fronts { (K : Rules) (t l : ℕ) (ws : List Waiter) (L : LinkState) (rows : List Row) → rows ≢ []
        → SameFront rows (at_after_all l Buffer (link_moves K t l ws L) rows) }
{}

/// A link that sleeps before the links have their turns gains credit alone, and sleeps on after them; and any link is then
/// what its own turn made of it.
pub fn links_sleep_on()
    ensures moves { (S : Setup) (blocked : Bool) (t due l : ℕ) (V : World) → l < length S.links → l < length V.credits
        → suc t < due → Sleeps (rules S l) blocked t due l (link_state l V)
        → link_turns S (suc t) l V ≡ Credit l (raised (rules S l).gain (link_state l V).credit) ∷ [] }
    ensures sleep { (S : Setup) (blocked : Bool) (t due l : ℕ) (V : World) → l < length S.links → l < length V.credits
        → suc t < due → Sleeps (rules S l) blocked t due l (link_state l V)
        → Sleeps (rules S l) blocked (suc t) due l (link_state l (after S (suc t) (turns_in S (suc t) D V) V)) }
    ensures link_state { (S : Setup) (t l : ℕ) (V : World) → l < length S.links → l < length V.credits
        → link_state l (after S t (turns_in S t D V) V) ≡ link_state_after_all l (link_turns S t l V) (link_state l V) }
{}

/// Turns that tell nothing may be left out of a phase's events, and those that do not touch a list out of what becomes of it.
/// Marks and credit tell nothing; marks touch buffers alone, and credit no list.
pub fn sleepers_may_be_left_out()
    ensures events { (S : Setup) (t : ℕ) (p : Phase) (W : World) (awake : ℕ → Bool)
        → ((n : ℕ) → awake n ≡ false → flat_map told (turns_of S t p n W) ≡ [])
        → events_in t p (turns_in S t p W)
        ≡ events_in t p (map (turn_of (turns_of S t p) W) (filter awake (below (count_of S p)))) }
    ensures lists { (S : Setup) (t l : ℕ) (s : Stage) (p : Phase) (W : World) (awake : ℕ → Bool)
        → ((n : ℕ) → awake n ≡ false → Untouched l s (turns_of S t p n W))
        → at l s (after S t (turns_in S t p W) W)
        ≡ at_after_all l s (flat_map (λ n. turns_of S t p n W) (filter awake (below (count_of S p)))) (at l s W) }
    ensures marks_told { (t : ℕ) (es : List InLink) (ms : List Move) → ms ≡ map (mark t) es → flat_map told ms ≡ [] }
    ensures credit_told { (l c : ℕ) (ms : List Move) → ms ≡ Credit l c ∷ [] → flat_map told ms ≡ [] }
    ensures marks_done { (t l : ℕ) (s : Stage) (es : List InLink) (ms : List Move) → s ≢ Buffer → ms ≡ map (mark t) es
        → Untouched l s ms }
    ensures credit_done { (l a c : ℕ) (s : Stage) (ms : List Move) → ms ≡ Credit a c ∷ [] → Untouched l s ms }
{}
