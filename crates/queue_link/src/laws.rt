//! What the calls of a link come to, one after the other. The function does nothing: its contract is the law.

ghost use Rattle.std.specs.Prelude.{◌≡◌, ℕ, ◌∷◌, ◌++◌, List};
ghost use Rattle.fixed_flow.specs.Flow.{raised};
ghost use Rattle.rows.specs.declared.settings.Dwelling.{Dwelling};
ghost use Rattle.traffic.specs.{Links.LinkState, Links.leave_bay, Links.link_moves, declared.moves.Move.TheVariants.Credit};
ghost use Rattle.traffic.specs.declared.{moves.Occurrence.Occurrence, numbers.Rules.Rules, world.Waiter.Waiter};
ghost use Rattle.queue_link.specs.{Loops.AreOn, Loops.ComeTo, Numbers.rules_of, Turns.begun, Turns.moves_left, Turns.goes_on};
ghost use Rattle.queue_link.specs.declared.numbers.LinkNumbers.{LinkNumbers};

/// A link's second is its begin, and then the loop of its caller: `turn`, and where a vehicle stops, its service by those who wait and its
/// parking, until nothing more moves. Link by link these are the moves of `traffic`, what they make of the lists, and what they tell.
pub fn turns_are_the_second()
    ensures begin { (K : Rules) (t l : ℕ) (ws : List Waiter) (L : LinkState) → link_moves K t l ws L
        ≡ leave_bay t l 0 L.bay ++ Credit l (raised K.gain L.credit) ∷ moves_left K t l ws (begun K.gain 1 t l L) }
    ensures turn { (n : LinkNumbers) (dwell : Dwelling) (t : ℕ) (ws : List Waiter) (L : LinkState) (said : List Occurrence)
        → AreOn n.link L.queue → AreOn n.link L.wait
        → ComeTo (rules_of n dwell) t n.link ws (moves_left (rules_of n dwell) t n.link ws L) L said (goes_on n dwell ws t L said) }
{}
