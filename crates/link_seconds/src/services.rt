//! A vehicle at a stop.

ghost use Rattle.std.specs.Prelude.{◌≡◌, ◌<◌, ◌++◌, [], ◌∷◌, length, set, OnOk};
ghost use Rattle.limits.specs.declared.TheConstants.{LAST_SECOND};
ghost use Rattle.rows.specs.Settings.{IsDwelling};
ghost use Rattle.traffic.specs.{Stops.next_call, Stops.left_behind, Stops.served_row, Telling.serves};
ghost use Rattle.riders.specs.Serving.{stopping};
ghost use Rattle.link_seconds.specs.Seconds.{line_at, AreShort, CanStop};

use queue_link::LinkState;
use riders::Waiting;
use rows::Dwelling;
use std::alloc::AllocError;
use traffic::{Occurrence, Vehicle};
use vehicles::next_call;

/// A vehicle of a link is served at its next stop by those who wait in the line there, and stands in the bay.
pub(crate) fn serve(
    second: u32,
    dwell: &Dwelling,
    link: &mut LinkState,
    lines: &mut [Waiting],
    vehicle: Vehicle,
    said: &mut Vec<Occurrence>,
) -> Result<(), AllocError>
    requires second_in { second < LAST_SECOND }
    requires dwell_in { IsDwelling dwell.now }
    requires calls { vehicle.served < length vehicle.calls }
    requires can_stop { CanStop (length lines.old) vehicle }
    requires short { AreShort lines.old }
    ensures link { OnOk result (link.new ≡ record link.old {
      lists = record link.old.lists {
        bay = link.old.lists.bay
            ++ served_row dwell.now second link.old.numbers.link (line_at lines.old (next_call vehicle).stop) vehicle ∷ [];
      };
    }) }
    ensures lines { OnOk result (lines.new
        ≡ set lines.old (next_call vehicle).stop (left_behind vehicle (line_at lines.old (next_call vehicle).stop))) }
    ensures told { OnOk result (said.new.items ≡ said.old.items ++ serves (stopping link.old.numbers.link vehicle)
        (served_row dwell.now second link.old.numbers.link (line_at lines.old (next_call vehicle).stop) vehicle)) }
{
    let mut vehicle = vehicle;
    let stop = next_call(&vehicle).stop as usize;
    let number = link.numbers().link;
    let line = &mut lines[stop];
    let served = line.serve(second, number, dwell, &mut vehicle, said)?;
    link.park(vehicle, served.until)?;
    Ok(())
}
