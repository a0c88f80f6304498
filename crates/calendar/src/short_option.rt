//! Numbers that may be missing, in four bytes.

ghost use Rattle.calendar.specs.declared.short_option.TheConstants.{NO_NUMBER};
ghost use Rattle.std.specs.Prelude.{◌≡◌, ◌<◌, None, Some, IfOk, IfSome, OnErr};

use std::alloc::AllocError;
use std::marker::Model;
use std::mem::size_of;

/// This number stands for none.
pub(crate) const NO_NUMBER: u32 = u32::MAX;

/// A number below `u32::MAX`, or none, in four bytes, where an `Option<u32>` takes eight: in lists of which most lines of memory are seldom
/// looked at. Contracts see it as that option.
#[derive(Clone, Copy)]
pub(crate) struct ShortOption {
    number: u32,
}

impl Model for ShortOption {
    ghost use Rattle.std.specs.Prelude.{ℕ, Option};
    ghost use Rattle.calendar.specs.ShortViews.{short_view, short_of, short_ok};

    ghost Value = { Option ℕ };

    ghost view = { short_view };

    ghost inverse = { short_of };

    ghost inverse_ok = { λ s _. short_ok s };
}

const _: () = prove!(size_of::<ShortOption>() == 4);

impl ShortOption {
    /// No number.
    pub(crate) fn none() -> ShortOption
        ensures { result ≡ None }
    {
        ShortOption { number: NO_NUMBER }
    }

    /// A number.
    pub(crate) fn some(number: u32) -> ShortOption
        requires { number < NO_NUMBER }
        ensures { result ≡ Some number }
    {
        ShortOption { number }
    }

    /// The same option.
    ///
    /// # Errors
    ///
    /// `AllocError`: four bytes have no room for it, which is `u32::MAX`.
    pub(crate) fn from_option(number: Option<u32>) -> Result<ShortOption, AllocError>
        ensures ok { IfOk result (λ short. short ≡ number) }
        ensures err { OnErr result (number ≡ Some NO_NUMBER) }
    {
        match number {
            None => Ok(ShortOption::none()),
            Some(NO_NUMBER) => Err(AllocError),
            Some(number) => Ok(ShortOption::some(number)),
        }
    }

    /// The number, where there is one.
    pub(crate) fn get(self) -> Option<u32>
        ensures same { result ≡ self }
        ensures short { IfSome result (λ number. number < NO_NUMBER) }
    {
        if self.number == NO_NUMBER {
            return None;
        }
        Some(self.number)
    }
}
