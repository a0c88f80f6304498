//! Labels of nodes, in eight bytes each.

ghost use Rattle.router.specs.Frontiers.{is_later};
ghost use Rattle.router.specs.declared.label.TheConstants.{NO_SECOND};
ghost use Rattle.std.specs.Prelude.{◌≡◌, ◌<◌, None, Some, IfSome};

use std::marker::Model;
use std::mem::size_of;

/// This second stands for no label.
pub(crate) const NO_SECOND: u64 = u64::MAX;

/// The second in which a node is reached, or that it is not, in eight bytes, where an `Option<u64>` takes sixteen: a search reads and writes
/// labels all over its table. Contracts see it as that option.
#[derive(Clone, Copy)]
pub struct Label {
    second: u64,
}

impl Model for Label {
    ghost use Rattle.std.specs.Prelude.{ℕ, Option};
    ghost use Rattle.router.specs.LabelViews.{label_view, label_of, label_ok};

    ghost Value = { Option ℕ };

    ghost view = { label_view };

    ghost inverse = { label_of };

    ghost inverse_ok = { λ l _. label_ok l };
}

const _: () = prove!(size_of::<Label>() == 8);

impl Label {
    /// No label.
    pub fn none() -> Label
        ensures { result ≡ None }
    {
        Label { second: NO_SECOND }
    }

    /// The label of a node that is reached in a second.
    pub fn some(second: u64) -> Label
        requires { second < NO_SECOND }
        ensures { result ≡ Some second }
    {
        Label { second }
    }

    /// The second, where there is one.
    pub fn get(self) -> Option<u64>
        ensures { result ≡ self }
    {
        if self.second == NO_SECOND {
            return None;
        }
        Some(self.second)
    }

    /// Whether the label is later than a second, as no label is.
    pub fn is_later(self, second: u64) -> bool
        requires { second < NO_SECOND }
        ensures { result ≡ is_later self second }
    {
        second < self.second
    }
}
