ghost use Rattle.std.specs.{List.list_all, Prelude.◌≡◌, Prelude.length, Prelude.true};
ghost use Rattle.signals.specs.Signals.{is_among};

use crate::conflict::ConflictList;
use rows::GreenList;

/// The signal of each link, always green where it has none, and the conflicts of these links.
#[derive(Drop)]
pub struct Signals {
    pub greens: GreenList,
    pub conflicts: ConflictList,
    pub ghost there: { list_all (is_among (length greens)) conflicts ≡ true },
}
