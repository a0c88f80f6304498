//! Seconds in which nobody of a partition has anything to do.

ghost use Rattle.std.specs.Prelude.{◌<◌};
ghost use Rattle.limits.specs.declared.TheConstants.{LAST_SECOND};
ghost use Rattle.parted_day.specs.Rest.{AreAtRest, RestIsNothing};

use law_parcels::{own_worlds_go_on, parcels_make_ready};
use part_seconds::Area;

/// How many seconds are looked at at once.
const LOOK_AHEAD: u32 = 32;

/// A second before which no neighbour sent anything, and in which nobody of a partition has anything to do, changes nothing: its part
/// stands for what the partition holds then as it is, nothing is told, nothing goes to a neighbour, and nobody more strays.
pub(crate) fn rest_changes_nothing()
    ensures { RestIsNothing }
{
    parcels_make_ready();
    own_worlds_go_on();
}

/// The first second from this one on of which it is not seen at once that nobody has anything to do in it; where there is none among those
/// that are looked at, the one behind them. An earlier one would be right too, and slow.
fn first_busy(area: &Area, second: u32) -> u32
    requires { second < LAST_SECOND }
    ensures { AreAtRest second result area.now }
{
    for ahead in 0..LOOK_AHEAD {
        if !area.rests(second + ahead) {
            return second + ahead;
        }
    }
    second + LOOK_AHEAD
}

/// Up to which second it is seen at once that nobody has anything to do, where that is known up to `known`. Seconds that follow are looked
/// at where it is not known of this one: so a part that rests for long looks at its calendars of 32 seconds at once, and then not for 32
/// seconds. Where something came, the second is to be done as it is, and nothing is looked at.
pub(crate) fn quiet_until(area: &Area, second: u32, known: u32, came: bool) -> u32
    requires second_in { second < LAST_SECOND }
    requires quiet { AreAtRest second known area.now }
    ensures { AreAtRest second result area.now }
{
    if came || second < known {
        return known;
    }
    first_busy(area, second)
}
