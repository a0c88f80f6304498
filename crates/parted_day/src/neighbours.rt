//! The neighbours of a partition.

ghost use Rattle.std.specs.Prelude.{◌≡◌, ◌<◌};
ghost use Rattle.divided_day.specs.Days.{borders_in};

use part_seconds::{Run, borders_at};
use step_core::Border;

/// The neighbours of a partition of a run, ascending, with the lags from them.
pub(crate) fn neighbours_of<'a>(run: &Run<'a>, partition: u32) -> &'a [Border]
    requires { partition < run.now.owner.now.parts }
    ensures { result.now ≡ borders_in run.now.day.now run.now.owner.now partition }
{
    borders_at(run.borders, partition)
}
