use std::marker::Model;
use traffic::Waiter;

/// Those who wait at a stop, in the order in which they come: by the second since when they wait, and then by number. Nobody
/// waits there twice.
#[derive(Drop)]
pub struct Waiting {
    pub(crate) rows: Vec<Waiter>,
}

impl Model for Waiting {
    ghost use Rattle.std.specs.Prelude.{List};
    ghost use Rattle.traffic.specs.declared.world.Waiter.{Waiter};
    ghost use Rattle.riders.specs.Waiting.{AreWaiting};

    ghost Value = { List Waiter };

    ghost view = { λ w. w.rows.items };

    ghost invariant = { λ w. AreWaiting w.rows.items };
}
