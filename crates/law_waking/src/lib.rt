//! The laws by which a part of a network may wake its links alone when they have something to do: what the second of a link makes of those
//! who wait at its stops, and until when the link rests after it. Each is the contract of a call that does nothing.
#![tactic(auto)]

ghost use Rattle.std.specs.Prelude.{◌≡◌, ℕ, ◌+◌};
ghost use Rattle.rows.specs.declared.settings.Dwelling.{Dwelling};
ghost use Rattle.traffic.specs.Links.{LinkState, link_moves};
ghost use Rattle.traffic.specs.{Moves.run, Persons.waiters, Rows.World, Setup.Setup, declared.numbers.Rules.Rules};
ghost use Rattle.law_sleeping.specs.Quiet.{IsSettled, IsBy};
ghost use Rattle.queue_link.specs.{Links.LinkView, Numbers.rules_of, Waking.due_of};
ghost use Rattle.link_seconds.specs.Seconds.{left_after};
ghost use Rattle.law_waking.specs.Resting.{Rests};

/// Who waits at the stops of a link after its turn are those whom its services leave, one after the other.
pub fn services_leave_the_others()
    ensures { (S : Setup) (t l : ℕ) (K : Rules) (L : LinkState) (W : World)
        → waiters S l (run S t (link_moves K t l (waiters S l W) L) W)
        ≡ left_after (link_moves K t l (waiters S l W) L) (waiters S l W) }
{}

/// A link that has done a second, and whose gains are made up to it, rests up to any second that is not after the one that it is due in.
pub fn links_rest_until_due()
    ensures { (D : Dwelling) (t due : ℕ) (v : LinkView) → v.raised ≡ t + 1
        → IsSettled (rules_of v.numbers D) t v.numbers.link v.lists
        → IsBy due (due_of v.numbers t v.lists) → Rests D (t + 1) due v }
{}
