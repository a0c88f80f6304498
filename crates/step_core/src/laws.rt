//! In which orders partitions may step, and where that ends. The function does nothing: its contract is the law.

ghost use Rattle.std.specs.Prelude.{◌≡◌, ℕ, ◌*◌, ◌<◌, ◌≤◌, List, length};
ghost use Rattle.step_core.specs.Nets.{Net, IsNet, MayStep, SomeMayStep, ComesTo};

/// Who has done the fewest seconds may step, so while one has not come to the end somebody may. From the start no order has more steps than
/// all partitions have seconds, and one of as many steps brings all to the end, whichever order it is.
pub fn orders_end()
    ensures fewest { (N : Net) (done : ℕ → ℕ) (p : ℕ) → IsNet N → p < N.parts → done p < N.end
        → ((q : ℕ) → q < N.parts → done p ≤ done q) → MayStep N p done }
    ensures no_dead_end { (N : Net) (done : ℕ → ℕ) (p : ℕ) → IsNet N → p < N.parts → done p < N.end → SomeMayStep N done }
    ensures no_longer { (N : Net) (ps : List ℕ) (d : ℕ → ℕ) → ComesTo N ps (λ _. 0) d → length ps ≤ N.parts * N.end }
    ensures end { (N : Net) (ps : List ℕ) (d : ℕ → ℕ) → ComesTo N ps (λ _. 0) d → length ps ≡ N.parts * N.end
        → (p : ℕ) → p < N.parts → d p ≡ N.end }
{}
