use crate::by_second::Calendar;
use crate::short_option::ShortOption;
use std::marker::Model;

/// When each of some numbers is next woken, where it is at all. Contracts see it as the list of these seconds, by number.
///
/// Each number hangs in the calendar at its second; where it was given another second since, it hangs at the old one too, and is not
/// woken there.
#[derive(Drop)]
pub struct Wakes {
    pub(crate) due: Vec<ShortOption>,
    pub(crate) calendar: Calendar,
}

impl Model for Wakes {
    ghost use Rattle.std.specs.Prelude.{ℕ, List, Option};
    ghost use Rattle.calendar.specs.WakesViews.{is_hung};

    ghost Value = { List (Option ℕ) };

    ghost view = { λ w. w.due.items };

    ghost invariant = { is_hung };
}
