//! Numbers come to a second, and are taken from it.

ghost use Rattle.std.specs.Prelude.{◌≡◌, ℕ, true, [], OnOk, OnErr, IfOk};
ghost use Rattle.calendar.specs.Due.{due_at, HasOneMore, HasNone};

use crate::blocks::{clear, head_of, is_quiet_at, put_head, reach};
use crate::by_second::{Calendar, Hook};
use crate::hooks::{give_back, hanging, hook_up};
use crate::short_option::ShortOption;
use std::alloc::{AllocError, Global};

impl Calendar {
    /// No number is due.
    #[tactic(auto, unfolding(crate::specs::Blocks::all_seconds))]
    pub fn new(alloc: Global) -> Calendar
        ensures { result ≡ [] }
    {
        Calendar {
            blocks: Vec::new(alloc),
            hooks: Vec::new(alloc),
            free: ShortOption::none(),
        }
    }

    /// One number more is due in this second. There is a place for each block of seconds up to that of the last one that was given.
    ///
    /// # Errors
    ///
    /// `AllocError`: there is no memory for one more, or for the seconds up to then, or 2^32 - 1 numbers are due already. The same ones are
    /// due then as before.
    pub fn add(&mut self, second: u32, number: u32) -> Result<(), AllocError>
        ensures ok { OnOk result (HasOneMore second number self.old self.new) }
        ensures err { OnErr result ((u : ℕ) → due_at u self.new ≡ due_at u self.old) }
    {
        let place = second as usize;
        reach(&mut self.blocks, place)?;
        let next = head_of(&self.blocks, place);
        let hook = hook_up(&mut self.hooks, &mut self.free, Hook { number, next })?;
        put_head(&mut self.blocks, place, hook);
        Ok(())
    }

    /// Whether it is seen at once that no number is due in this second. In the last second of a block that has rows it is not, so that this
    /// second is taken and the rows go.
    pub fn is_quiet(&self, second: u32) -> bool
        ensures { result ≡ true → due_at second self.now ≡ [] }
    {
        is_quiet_at(&self.blocks, second as usize)
    }

    /// Takes those that are due in this second, in the order in which they came. Nothing is touched where it is seen at once that none is.
    ///
    /// # Errors
    ///
    /// `AllocError`: there is no memory for the answer. The same ones are due then as before.
    pub fn take(&mut self, second: u32) -> Result<Vec<u32>, AllocError>
        ensures due { IfOk result (λ numbers. numbers.items ≡ due_at second self.old) }
        ensures rest { OnOk result (HasNone second self.old self.new) }
        ensures err { OnErr result (self.new ≡ self.old) }
    {
        if self.is_quiet(second) {
            return Ok(Vec::new(*self.blocks.allocator()));
        }
        let place = second as usize;
        let head = head_of(&self.blocks, place);
        let all = hanging(*self.blocks.allocator(), &self.hooks, head)?;
        give_back(&mut self.hooks, &mut self.free, head, all.last);
        clear(&mut self.blocks, place);
        Ok(all.numbers)
    }
}
