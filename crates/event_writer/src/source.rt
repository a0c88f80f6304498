//! Where the events of a day come from.

ghost use Rattle.std.specs.Prelude.{◌≡◌, ◌++◌, ◌<◌, ℕ, List, [], IfOk, OnOk, IfNone, IfSome};
ghost use Rattle.events.specs.declared.event.Event.{Event};

use events::Event;
use std::alloc::{AllocError, Global};

/// Gives the events of a day piece by piece, in their order: a day that is simulated meanwhile, or one that is over.
pub trait EventSource {
    /// The events that are still to come.
    ghost rest: { Self → List Event };

    /// In how many pieces they come at most.
    ghost pieces: { Self → ℕ };

    /// It can go on.
    ghost ready: { Self → Type 0 };

    /// The next events, or `None` where no more are to come.
    ///
    /// # Errors
    ///
    /// `AllocError`: there is no memory for them. The source is then of no use.
    fn next_piece(&mut self, alloc: Global) -> Result<Option<Vec<Event>>, AllocError>
        requires { ready self.old }
        ensures ready { OnOk result (ready self.new) }
        ensures some { IfOk result (λ piece. IfSome piece (λ events. rest self.old ≡ events.items ++ rest self.new)) }
        ensures none { IfOk result (λ piece. IfNone piece (rest self.old ≡ [])) }
        ensures fewer { IfOk result (λ piece. IfSome piece (λ _. pieces self.new < pieces self.old)) };
}
