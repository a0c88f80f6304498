//! Laws of signals: a vehicle leaves a link, or is removed from the end of one, only in a second in which that link is green.
//! Each is the contract of a call that does nothing.
#![tactic(auto)]

ghost use Rattle.std.specs.Prelude.{◌≡◌, ℕ, true, All};
ghost use Rattle.traffic.specs.{Day.day, Setup.Setup};
ghost use Rattle.law_signals.specs.Signals.{KeepsSignals, NeverTogether};

/// In every day, whatever its signals: each vehicle that leaves a link, or that is stuck there and is removed, does so in a
/// second in which the link is green, and so does each person who is removed with it.
pub fn vehicles_leave_at_green()
    ensures { (S : Setup) → All (KeepsSignals S) (day S) }
{}

/// Where no second has both of two links green, no vehicle leaves the one in a second in which one leaves the other.
pub fn conflicts_keep_apart()
    ensures { (S : Setup) (a b : ℕ) → ((t : ℕ) → S.green a t ≡ true → S.green b t ≡ true → ⊥) → NeverTogether S a b }
{}
