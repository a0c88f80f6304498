//! Red fronts, whose marks may be left out.

ghost use Rattle.std.specs.Prelude.{◌≡◌, ℕ, suc, ◌<◌, List, ◌++◌, length, map};
ghost use Rattle.events.specs.declared.event.Phase.TheVariants.{C, D};
ghost use Rattle.traffic.specs.declared.{numbers.Rules.Rules, stage.Stage.TheVariants.Buffer, world.Row.Row, world.Waiter.Waiter};
ghost use Rattle.traffic.specs.{Rows.World, Rows.at, Setup.Setup, Setup.link_row, Moves.at_after_all, Links.LinkState, Links.link_moves};
ghost use Rattle.traffic.specs.{Nodes.node_view, Nodes.red, Nodes.mark, Day.node_turns, Day.link_turns, Day.after, Day.turns_in};
ghost use Rattle.law_sleeping.specs.Marks.{IsBehind, Buffers, AreBehind, lazy_node_view, lazy_node_turns, buffers_after};

/// The marks of red fronts may be left out, and made up where they are read: the second of a front is the later one of what
/// it bears and the last red second. A node's turn is the same but for its marks; and after the turns of all nodes, and
/// again after those of all links, each buffer is once more as it would be but for the marks that were left out.
pub fn red_marks_may_be_left_out()
    ensures turn { (S : Setup) (t n : ℕ) (rows : Buffers) (V : World) → AreBehind S t rows V
        → node_turns S t n V ≡ map (mark t) (red (node_view S t n V).in_links) ++ lazy_node_turns S t n rows V }
    ensures views { (S : Setup) (t n : ℕ) (rows : Buffers) (V : World) → AreBehind S t rows V
        → node_view S t n V ≡ lazy_node_view S t n rows V }
    ensures nodes { (S : Setup) (t l : ℕ) (rows : Buffers) (V : World) → l < length S.links → (link_row S l).to < S.nodes
        → AreBehind S t rows V
        → IsBehind (S.green l) (suc t) (buffers_after S t rows V l) (at l Buffer (after S t (turns_in S t C V) V)) }
    ensures links { (S : Setup) (t l : ℕ) (rows : List Row) (V : World) → l < length S.links
        → IsBehind (S.green l) (suc t) rows (at l Buffer V)
        → IsBehind (S.green l) (suc t) (at_after_all l Buffer (link_turns S t l V) rows) (at l Buffer (after S t (turns_in S t D V) V)) }
    ensures length { (K : Rules) (t l : ℕ) (ws : List Waiter) (L : LinkState) (buffer : List Row) → length buffer ≡ length L.buffer
        → link_moves K t l ws (record L { buffer = buffer }) ≡ link_moves K t l ws L }
{}
