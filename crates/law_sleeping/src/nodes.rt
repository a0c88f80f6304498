//! Nodes in which nobody can leave, and words that need not be read.

ghost use Rattle.std.specs.Prelude.{◌⊎◌, ◌≡◌, ◌≢◌, ℕ, suc, ◌+◌, ◌*◌, ◌<◌, ◌≤◌, true, false, List, []};
ghost use Rattle.std.specs.Prelude.{◌∷◌, ◌++◌, length, map, filter, get_or, All, Option};
ghost use Rattle.traffic.specs.Day.{node_turns, turns_in, after};
ghost use Rattle.traffic.specs.Nodes.{NodeView, node_view, out_link, taken_at, out_links_after, pass_node_all, no_in_link, draw, red};
ghost use Rattle.traffic.specs.{Nodes.candidates, Nodes.mark, Nodes.node_moves, Rows.World, Setup.Setup, Setup.link_row, Setup.storage_of};
ghost use Rattle.traffic.specs.declared.{moves.Move.Move, node_views.InLink.InLink, node_views.OutLink.OutLink, world.Row.Row};
ghost use Rattle.rows.specs.declared.settings.Stuck.{Stuck};
ghost use Rattle.law_sleeping.specs.Able.{can_go, can_pass_node, is_able, IsFuller, AreWeighted, AreWords, order, pass_node_each, Choice};
ghost use Rattle.law_sleeping.specs.Able.{HasAble, able_now, able_before, draw_lazily, words_read};
ghost use Rattle.law_sleeping.specs.Marks.{Buffers, AreBehind, catch_up, lazy_node_view, lazy_node_turns, buffers_after};
ghost use Rattle.law_sleeping.specs.Waking.{FrontSleeps, NodeSleeps, IsFull, IsRedUntil, IsHeldUp, SameFront, ForFront, NoneFree};
ghost use Rattle.events.specs.declared.event.Phase.TheVariants.{C};

/// An in-link hands something over exactly if its front can leave; and a node none of whose in-links is able marks its red
/// fronts, and does nothing else.
pub fn nodes_rest()
    ensures none { (K : Stuck) (t : ℕ) (out_links : ℕ → Option OutLink) (e : InLink)
        → can_pass_node K t out_links e ≡ false → pass_node_all K t out_links e ≡ [] }
    ensures some { (K : Stuck) (t : ℕ) (out_links : ℕ → Option OutLink) (e : InLink)
        → can_pass_node K t out_links e ≡ true → pass_node_all K t out_links e ≢ [] }
    ensures idle { (K : Stuck) (t : ℕ) (word : ℕ → ℕ) (see : NodeView)
        → All (λ e. is_able K t see.out_links e ≡ false) see.in_links
        → node_moves K t word see ≡ map (mark t) (red see.in_links) }
{}

/// In a turn no room is gained, so who cannot leave when it begins cannot later. The turn is the handing over of those who
/// can, in the order in which all are drawn; if one can, it is his, whatever the words are.
pub fn draws_are_of_the_able()
    ensures fuller { (ms : List Move) (out_links : ℕ → Option OutLink) → IsFuller (out_links_after ms out_links) out_links }
    ensures never_later { (K : Stuck) (t : ℕ) (later out_links : ℕ → Option OutLink) (e : InLink)
        → IsFuller later out_links → can_pass_node K t out_links e ≡ false → can_pass_node K t later e ≡ false }
    ensures in_order { (K : Stuck) (t : ℕ) (word : ℕ → ℕ) (left j : ℕ) (es : List InLink) (out_links : ℕ → Option OutLink)
        → draw K t word left j es out_links ≡ pass_node_each K t out_links (order t word left j es) }
    ensures able_alone { (K : Stuck) (t : ℕ) (out_links : ℕ → Option OutLink) (es : List InLink)
        → pass_node_each K t out_links es ≡ pass_node_each K t out_links (filter (can_pass_node K t out_links) es) }
    ensures none_left { (K : Stuck) (t : ℕ) (word : ℕ → ℕ) (left j : ℕ) (es : List InLink) (out_links : ℕ → Option OutLink)
        → All (λ e. can_pass_node K t out_links e ≡ false) es → draw K t word left j es out_links ≡ [] }
    ensures only_left { (K : Stuck) (t : ℕ) (word : ℕ → ℕ) (left j k : ℕ) (es : List InLink) (out_links : ℕ → Option OutLink)
        → AreWords word → AreWeighted es → left ≡ length es → k < length es
        → ((i : ℕ) → i < length es → i ≢ k → can_pass_node K t out_links (get_or es i no_in_link) ≡ false)
        → draw K t word left j es out_links ≡ pass_node_all K t out_links (get_or es k no_in_link) }
    ensures one { (K : Stuck) (t : ℕ) (word : ℕ → ℕ) (see : NodeView) (e : InLink)
        → AreWords word → AreWeighted see.in_links → filter (is_able K t see.out_links) see.in_links ≡ e ∷ []
        → node_moves K t word see ≡ map (mark t) (red see.in_links) ++ pass_node_all K t see.out_links e }
{}

/// A turn may stop reading words as soon as one of the chosen is left, where the choice has all who can leave: those who can
/// as things stand, or those who could when the turn began. So words that are not read do not matter.
pub fn few_words_are_read()
    ensures now { (K : Stuck) (t : ℕ) (out_links : ℕ → Option OutLink) → HasAble K t (able_now K t) out_links }
    ensures before { (K : Stuck) (t : ℕ) (out_links : ℕ → Option OutLink) → HasAble K t (able_before K t out_links) out_links }
    ensures lazily { (K : Stuck) (t : ℕ) (word : ℕ → ℕ) (p : Choice) (left j : ℕ) (es : List InLink)
        (out_links : ℕ → Option OutLink)
        → AreWords word → HasAble K t p out_links → AreWeighted es → left ≡ length es
        → draw K t word left j es out_links ≡ draw_lazily p K t word left j es out_links }
    ensures moves { (K : Stuck) (t : ℕ) (word : ℕ → ℕ) (p : Choice) (see : NodeView)
        → AreWords word → AreWeighted see.in_links → HasAble K t p see.out_links
        → node_moves K t word see ≡ map (mark t) (red see.in_links)
        ++ draw_lazily p K t word (length (candidates see.in_links)) 0 (candidates see.in_links) see.out_links }
    ensures reads { (K : Stuck) (t : ℕ) (word other : ℕ → ℕ) (p : Choice) (see : NodeView)
        → AreWords word → AreWords other → AreWeighted see.in_links → HasAble K t p see.out_links
        → ((i : ℕ) → i < words_read p K t word (length (candidates see.in_links)) 0 (candidates see.in_links) see.out_links
        → word (16 * t + i) ≡ other (16 * t + i))
        → node_moves K t word see ≡ node_moves K t other see }
    ensures weights { (S : Setup) (t n : ℕ) (W : World) → ((l : ℕ) → l < length S.links → 0 < (link_row S l).capacity)
        → AreWeighted (node_view S t n W).in_links }
    ensures green { (S : Setup) (t n : ℕ) (p : Choice) (rows : Buffers) (V : World) → AreWords (S.word n)
        → ((l : ℕ) → l < length S.links → 0 < (link_row S l).capacity) → HasAble S.settings.stuck t p (out_link S t n V)
        → lazy_node_turns S t n rows V
        ≡ draw_lazily p S.settings.stuck t (S.word n) (length (candidates (lazy_node_view S t n rows V).in_links)) 0
        (candidates (lazy_node_view S t n rows V).in_links) (out_link S t n V) }
{}

/// A node that sleeps marks its red fronts before its second, and does nothing else. A front sleeps while its link is red,
/// and while it is not stuck and its next link is full; it does so in another world too, in which no place came free.
pub fn nodes_sleep()
    ensures moves { (S : Setup) (t due n u : ℕ) (rows : Buffers) (V : World) → NodeSleeps S t due n rows V
        → AreBehind S u rows V → t < u → u < due
        → node_turns S u n V ≡ map (mark u) (red (node_view S u n V).in_links) }
    ensures nothing { (S : Setup) (t due n u : ℕ) (rows : Buffers) (V : World) → NodeSleeps S t due n rows V
        → t < u → u < due → lazy_node_turns S u n rows V ≡ [] }
    ensures red { (S : Setup) (t due n l : ℕ) (V : World) (rows : List Row) → IsRedUntil S t due l
        → FrontSleeps S t due n l V rows }
    ensures held_up { (S : Setup) (now t due n l : ℕ) (V : World) (r : Row) (rs : List Row) → 0 < S.settings.stuck.seconds
        → now ≤ suc t → IsHeldUp S now t due n l V r → FrontSleeps S t due n l V (r ∷ rs) }
    ensures full { (S : Setup) (now due m u : ℕ) (V : World) → IsFull S now due m V → now ≤ u → u < due
        → storage_of S m ≤ taken_at S u m V }
    ensures elsewhere { (S : Setup) (t due later less n : ℕ) (rows other : Buffers) (V U : World) → t ≤ later → less ≤ due
        → ((l : ℕ) → l < length S.links → (link_row S l).to ≡ n
        → IsRedUntil S later less l ⊎ (SameFront (rows l) (other l) × ForFront (NoneFree S later less n V U) (rows l)))
        → NodeSleeps S t due n rows V → NodeSleeps S later less n other U }
{}

/// After the turns of all nodes no link that is green can hand over: each front is one whose next link has no room by the
/// world as it then is, and that is not stuck. So a front sleeps on, until a reason to wake.
pub fn nodes_settle()
    ensures out_links { (S : Setup) (t n : ℕ) (rows : Buffers) (V : World) → n < S.nodes → AreBehind S t rows V
        → out_links_after (lazy_node_turns S t n rows V) (out_link S t n V) ≡ out_link S t n (after S t (turns_in S t C V) V) }
    ensures fronts { (S : Setup) (t l : ℕ) (rows : Buffers) (V : World) → AreWords (S.word (link_row S l).to)
        → ((a : ℕ) → a < length S.links → 0 < (link_row S a).capacity)
        → l < length S.links → (link_row S l).to < S.nodes → AreBehind S t rows V → S.green l t ≡ true → rows l ≢ []
        → can_go S.settings.stuck t (out_link S t (link_row S l).to (after S t (turns_in S t C V) V))
        (catch_up (S.green l) t (buffers_after S t rows V l)) ≡ false }
{}
