use crate::short_option::ShortOption;
use std::marker::Model;
use std::mem::size_of;

/// On what one number hangs, or none, where it is free.
#[derive(Clone, Copy)]
pub(crate) struct Hook {
    /// The number that is due; of a hook that is free it tells nothing.
    pub(crate) number: u32,
    /// The hook of the number that came to the same second before this one; of one that is free the next one that is free.
    pub(crate) next: ShortOption,
}

const _: () = prove!(size_of::<Hook>() == 8);

/// Numbers by the second in which they are due, those of one second in the order in which they came.
///
/// Each number hangs on a hook, and a second has the hook of the number that came to it last, from which the others hang. All hooks lie in
/// one list, and the one that came free last is used first: so what a number takes is in the memory that was touched not long ago, and
/// there are never more hooks than numbers were due at once.
///
/// The seconds stand in blocks of 32. A block has rows from when somebody is due in one of its seconds on until its last second was taken
/// and nobody is left in it, and none else: a day has many more seconds than there are ones in which somebody is due.
#[derive(Drop)]
pub struct Calendar {
    /// By block, of each of its seconds the last hook.
    pub(crate) blocks: Vec<Vec<ShortOption>>,
    /// All hooks, by number.
    pub(crate) hooks: Vec<Hook>,
    /// The first of the hooks that are free.
    pub(crate) free: ShortOption,
}

impl Model for Calendar {
    ghost use Rattle.calendar.specs.{Due.Due, DueViews.due_view, DueViews.is_laid};

    ghost Value = { Due };

    ghost view = { due_view };

    ghost invariant = { is_laid };
}
