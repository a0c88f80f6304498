//! Links that gain credit alone, and until when.

ghost use Rattle.std.specs.Prelude.{◌≡◌, ◌≢◌, ◌⊎◌, false, ℕ, suc, ◌+◌, ◌-◌, ◌*◌, ◌<◌, ◌≤◌};
ghost use Rattle.std.specs.Prelude.{◌↔◌, min, Bool, List, [], ◌∷◌, length};
ghost use Rattle.fixed_flow.specs.{Flow.full_credit, Flow.raised, Flow.raised_times, Link.ceiling, declared.TheConstants.VEHICLE_COST};
ghost use Rattle.traffic.specs.{Day.turns_in, Day.moves_of, Day.after, Links.LinkState, Links.link_state, Links.link_moves, Moves.run};
ghost use Rattle.traffic.specs.{Rows.World, Setup.Setup, declared.moves.Move.Move};
ghost use Rattle.traffic.specs.declared.moves.Move.TheVariants.{Transfer, Remove, Enter, Credit};
ghost use Rattle.traffic.specs.declared.{numbers.Rules.Rules, stage.Stage.Stage, stage.Stage.TheVariants.Queue};
ghost use Rattle.traffic.specs.declared.{stage.Stage.TheVariants.Buffer, stage.Stage.TheVariants.Wait, world.Row.Row, world.Waiter.Waiter};
ghost use Rattle.events.specs.declared.event.Phase.{Phase};
ghost use Rattle.law_sleeping.specs.Quiet.{IsQuiet, IsPoor, Sleeps, rested, link_state_after_all, IsAside, AreAside, IsSettled, IsDue};
ghost use Rattle.law_sleeping.specs.Quiet.{is_blocked};

/// A link whose bay, queue and wait list let nobody go raises its credit, and does nothing else.
pub fn links_rest()
    ensures { (K : Rules) (t l : ℕ) (ws : List Waiter) (L : LinkState) → IsQuiet K t l L
        → link_moves K t l ws L ≡ Credit l (raised K.gain L.credit) ∷ [] }
{}

/// The gains of many seconds are one gain, up to the full credit; and the seconds after which the credit pays for a vehicle
/// are those from a quotient on. A link that gains nothing keeps its credit, if that does not pay.
pub fn credit_comes_at_once()
    ensures many { (gain credit k : ℕ) → credit ≤ full_credit gain
        → raised_times gain k credit ≡ min (credit + gain * k) (full_credit gain) }
    ensures first { (gain credit k : ℕ) → 0 < gain
        → (VEHICLE_COST ≤ raised_times gain k credit) ↔ (ceiling (VEHICLE_COST - credit) gain ≤ k) }
    ensures never { (credit k : ℕ) → credit < VEHICLE_COST → raised_times 0 k credit ≡ credit }
    ensures poor { (gain t due credit : ℕ) → 0 < gain → due ≤ t + ceiling (VEHICLE_COST - credit) gain
        → IsPoor gain t due credit }
    ensures poor_ever { (t due credit : ℕ) → credit < VEHICLE_COST → IsPoor 0 t due credit }
{}

/// A link that sleeps does nothing before its second but gain credit, sleeps on after each second, and sleeps on after what
/// others do, unless that wakes it; any earlier second serves as well.
pub fn links_sleep()
    ensures quiet { (K : Rules) (blocked : Bool) (t due l k : ℕ) (L : LinkState) → Sleeps K blocked t due l L
        → t + suc k < due → IsQuiet K (t + suc k) l (rested K k L) }
    ensures moves { (K : Rules) (blocked : Bool) (t due l k : ℕ) (ws : List Waiter) (L : LinkState) → Sleeps K blocked t due l L
        → t + suc k < due → link_moves K (t + suc k) l ws (rested K k L) ≡ Credit l (raised_times K.gain (suc k) L.credit) ∷ [] }
    ensures on { (K : Rules) (blocked : Bool) (t due l : ℕ) (L : LinkState) → Sleeps K blocked t due l L
        → Sleeps K blocked (suc t) due l (record L { credit = raised K.gain L.credit }) }
    ensures earlier { (K : Rules) (blocked : Bool) (t due less l : ℕ) (L : LinkState) → less ≤ due → Sleeps K blocked t due l L
        → Sleeps K blocked t less l L }
    ensures aside { (K : Rules) (blocked : Bool) (t due l : ℕ) (ms : List Move) (L : LinkState) → AreAside blocked due l L ms
        → Sleeps K blocked t due l L → Sleeps K blocked t due l (link_state_after_all l ms L) }
    ensures link_state { (S : Setup) (t l : ℕ) (ms : List Move) (W : World) → l < length W.credits
        → link_state l (run S t ms W) ≡ link_state_after_all l ms (link_state l W) }
    ensures credits { (S : Setup) (t : ℕ) (ms : List Move) (W : World) → length (run S t ms W).credits ≡ length W.credits }
{}

/// After its turn a link lets nobody else go in that second, and so it sleeps until the least second at which a front or a
/// row of its bay may go; the mark is set where its buffer has no room and a front waits.
pub fn links_settle()
    ensures turn { (K : Rules) (t l : ℕ) (ws : List Waiter) (L : LinkState)
        → IsSettled K t l (link_state_after_all l (link_moves K t l ws L) L) }
    ensures sleep { (K : Rules) (t due l : ℕ) (L : LinkState) → IsSettled K t l L → IsDue K t due L
        → Sleeps K (is_blocked K t L) t due l L }
{}

/// What does not wake a link: what happens on other links; a row that a node takes out of its buffer while no front waits for
/// room; one that comes behind another one into its queue, or has nothing to do there before the link's second; and one that
/// comes behind another one into its wait list. So it sleeps on through a phase of such moves.
pub fn links_are_not_woken()
    ensures far { (blocked : Bool) (due l a k : ℕ) (z : Stage) (was now : Row) (L : LinkState) → a ≢ l → now.link ≢ l
        → IsAside blocked due l L (Transfer a z k was now) }
    ensures passed { (blocked : Bool) (due l a k : ℕ) (was now : Row) (L : LinkState) → now.stage ≡ Queue
        → (a ≡ l → blocked ≡ false) → (now.link ≡ l → (L.queue ≢ []) ⊎ (due ≤ now.second))
        → IsAside blocked due l L (Transfer a Buffer k was now) }
    ensures removed { (blocked : Bool) (due l a k : ℕ) (was : Row) (L : LinkState) → (a ≡ l → blocked ≡ false)
        → IsAside blocked due l L (Remove a Buffer k was) }
    ensures new { (blocked : Bool) (due l : ℕ) (now : Row) (L : LinkState) → now.stage ≡ Wait
        → (now.link ≡ l → L.wait ≢ []) → IsAside blocked due l L (Enter now) }
    ensures phase { (S : Setup) (K : Rules) (blocked : Bool) (t u due l : ℕ) (p : Phase) (V : World) → l < length V.credits
        → AreAside blocked due l (link_state l V) (moves_of (turns_in S u p V)) → Sleeps K blocked t due l (link_state l V)
        → Sleeps K blocked t due l (link_state l (after S u (turns_in S u p V) V)) }
{}
