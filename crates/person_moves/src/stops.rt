//! The stops of a town.

ghost use Rattle.std.specs.Prelude.{◌≡◌};
ghost use Rattle.town.specs.Views.{setup};
ghost use Rattle.rows.specs.Stops.{stop_link};
ghost use Rattle.traffic.specs.Setup.{link_of_stop};

use rows::{StopList, stop_link};
use town::DayInput;

fn link_in(stops: &StopList, stop: u32) -> u32
    ensures { result ≡ stop_link stops.now stop }
{
    stop_link(&stops.rows, stop)
}

/// The link of a stop of the town, which is 0 where there is no such stop.
#[tactic(auto, unfolding(town::specs::Setups::setup_of))]
pub fn link_of_stop(day: &DayInput, stop: u32) -> u32
    ensures { result ≡ link_of_stop (setup day.now) stop }
{
    link_in(&day.town.stops.rows, stop)
}
